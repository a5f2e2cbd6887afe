// Words of marks: the operators on 64 places at once, a mark a bit, the first place lowest.
#![tactic(auto)]

ghost use Rattle.std.specs.Prelude.{◌≡◌, ◌+◌, ◌<◌, ◌≤◌, Bool, true, false, List, length, replicate};
ghost use Rattle.definitions.specs.Limits.{word_marks};
ghost use Rattle.definitions.specs.Bounded.{bit};
ghost use Rattle.definitions.specs.Readings.{marks_word};
ghost use Rattle.mark_words.specs.Lists.{last_only, until_row, since_row};
ghost use Rattle.mark_words.specs.Words.{Window, gathered};

// The marks of one word.
pub const WORD_MARKS: usize = 64;

// For each place: does q come within a reach of places with p at each before it, and is p at each place of the reach.
#[derive(Clone, Copy)]
pub struct Reach {
    pub found: u64,
    pub held: u64,
}

// Twice the reach d.
fn doubled(w: Reach, d: usize) -> Reach
    requires { d < word_marks }
    ensures { (ps qs : List Bool) → Window ps qs d w → Window ps qs (d + d) result }
{
    Reach {
        found: w.found | (w.held & (w.found >> d)),
        held: w.held & (w.held >> d),
    }
}

// p until q within a word, with no past the last place.
pub fn until_word(p: u64, q: u64) -> u64
    ensures { (ps qs : List Bool) → p ≡ marks_word ps → q ≡ marks_word qs → length ps ≡ length qs → length ps ≤ word_marks → result ≡ marks_word (until_row false ps qs) }
{
    let a = doubled(Reach { found: q, held: p }, 1);
    let b = doubled(a, 2);
    let c = doubled(b, 4);
    let d = doubled(c, 8);
    let e = doubled(d, 16);
    let f = doubled(e, 32);
    f.found
}

// p since q within a word, with c before the first place: the carries of a sum.
pub fn since_word(p: u64, q: u64, c: u64) -> u64
    ensures { (ps qs : List Bool) (b : Bool) → p ≡ marks_word ps → q ≡ marks_word qs → c ≡ bit b → length ps ≡ length qs → result ≡ marks_word (since_row b ps qs) }
{
    let s = q.wrapping_add(p | q).wrapping_add(c);
    q | (p & (p ^ s))
}

// The word of n marks, each of them yes.
pub fn ones(n: usize) -> u64
    requires { n ≤ word_marks }
    ensures { result ≡ marks_word (replicate n true) }
{
    if n == WORD_MARKS {
        return u64::MAX;
    }
    (1u64 << n) - 1
}

// The word of n marks, none of them yes but the last, if that one is.
pub fn last_word(n: usize, yes: bool) -> u64
    requires { n ≤ word_marks }
    ensures { result ≡ marks_word (last_only yes n) }
{
    if n == 0 {
        return 0;
    }
    if yes {
        return 1u64 << (n - 1);
    }
    0
}

// Bit `bit` of each of the states from..to, gathered from the last one back.
pub fn gather(states: &[u64], from: usize, to: usize, bit: usize) -> u64
    requires { (from ≤ to) × (to ≤ length states.now) × (to ≤ from + word_marks) × (bit < word_marks) }
    ensures { result ≡ gathered states.now from to bit }
{
    let mut word = 0u64;
    for k in (from..to).rev() {
        word = word * 2 + (states[k] >> bit) % 2;
    }
    word
}
