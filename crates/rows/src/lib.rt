// A row: 128 marks and the count of states, by value, and the operators on it. `stored`: rows in lent space; `pair`: a node's two rows. What a row means is
// not asked here.
#![tactic(auto)]

pub mod pair;
pub mod stored;

ghost use Rattle.std.specs.Prelude.{◌≡◌, true, false, not, ◌&&◌, ◌||◌, [], ◌∷◌, ◌++◌, ◌+◌, ◌<◌, ◌≤◌, length, get_or};
ghost use Rattle.definitions.specs.Limits.{max_states, word_marks};
ghost use Rattle.definitions.specs.Bounded.{tabulate, bit_of};
ghost use Rattle.definitions.specs.Readings.{next_at, until_at, prev_at, since_at};
ghost use Rattle.rows.specs.Marks.{marks, low_word, high_word, Whole, Made};
ghost use Rattle.mark_words.specs.Lists.{last_only};
ghost use Rattle.mark_words.specs.Marks.{mark_at, yes_marks, last_at};

use mark_words::{WORD_MARKS, gather, last_word, ones, since_word, until_word};

// Before place 0 there is no place at which since could hold.
const NO_PAST: u64 = 0;

#[derive(Clone, Copy)]
pub struct Row {
    pub words: [u64; 2],
    pub count: usize,
}

impl Row {
    // The words of a row in lent space: low, high and count.
    pub const WORDS: usize = 3;

    // The word of places 0 to 63.
    pub fn low(self) -> u64
        requires { Whole self }
        ensures { result ≡ low_word self }
    {
        self.words[0]
    }

    // The word of places 64 to 127.
    pub fn high(self) -> u64
        requires { Whole self }
        ensures { result ≡ high_word self }
    {
        self.words[1]
    }

    pub fn full(count: usize) -> Row
        requires { count ≤ max_states }
        ensures { Made result count (tabulate count (λ k. true)) }
    {
        if count <= WORD_MARKS {
            return Row {
                words: [ones(count), 0],
                count,
            };
        }
        Row {
            words: [ones(WORD_MARKS), ones(count - WORD_MARKS)],
            count,
        }
    }

    // No mark but the last place's, if that is yes.
    fn last(count: usize, yes: bool) -> Row
        requires { count ≤ max_states }
        ensures { Made result count (last_only yes count) }
    {
        if count <= WORD_MARKS {
            return Row {
                words: [last_word(count, yes), 0],
                count,
            };
        }
        Row {
            words: [0, last_word(count - WORD_MARKS, yes)],
            count,
        }
    }

    pub fn none(count: usize) -> Row
        requires { count ≤ max_states }
        ensures { Made result count (tabulate count (λ k. false)) }
    {
        Row::last(count, false)
    }

    // Bit `bit` of each of the first n states.
    pub fn column(states: &[u64], n: usize, bit: usize) -> Row
        requires { (n ≤ max_states) × (n ≤ length states.now) × (bit < word_marks) }
        ensures { Made result n (tabulate n (λ k. bit_of (get_or states.now k 0) bit)) }
    {
        if n <= WORD_MARKS {
            return Row {
                words: [gather(states, 0, n, bit), 0],
                count: n,
            };
        }
        Row {
            words: [
                gather(states, 0, WORD_MARKS, bit),
                gather(states, WORD_MARKS, n, bit),
            ],
            count: n,
        }
    }

    pub fn mark(self, i: usize) -> bool
        requires { (Whole self) × (i < max_states) }
        ensures { result ≡ mark_at (marks self) i }
    {
        (self.words[i / WORD_MARKS] >> (i % WORD_MARKS)) % 2 == 1
    }

    // One place more, with the mark `yes`.
    pub fn push(self, yes: bool) -> Row
        requires { (Whole self) × (self.count < max_states) }
        ensures { Made result (self.count + 1) (marks self ++ (yes ∷ [])) }
    {
        let n = self.count;
        let longer = n + 1;
        if n < WORD_MARKS {
            let mark = u64::from(yes) << n;
            return Row {
                words: [self.low() | mark, self.high()],
                count: longer,
            };
        }
        let mark = u64::from(yes) << (n - WORD_MARKS);
        Row {
            words: [self.low(), self.high() | mark],
            count: longer,
        }
    }

    // How many marks are yes.
    pub fn total(self) -> u32
        requires { Whole self }
        ensures { result ≡ yes_marks (marks self) }
    {
        self.low().count_ones() + self.high().count_ones()
    }

    pub fn not(self) -> Row
        requires { Whole self }
        ensures { Made result self.count (tabulate self.count (λ k. not (mark_at (marks self) k))) }
    {
        let full = Row::full(self.count);
        Row {
            words: [full.low() ^ self.low(), full.high() ^ self.high()],
            count: self.count,
        }
    }

    pub fn or(self, q: Row) -> Row
        requires { (Whole self) × (Whole q) × (self.count ≡ q.count) }
        ensures { Made result self.count (tabulate self.count (λ k. mark_at (marks self) k || mark_at (marks q) k)) }
    {
        Row {
            words: [self.low() | q.low(), self.high() | q.high()],
            count: self.count,
        }
    }

    pub fn and(self, q: Row) -> Row
        requires { (Whole self) × (Whole q) × (self.count ≡ q.count) }
        ensures { Made result self.count (tabulate self.count (λ k. mark_at (marks self) k && mark_at (marks q) k)) }
    {
        Row {
            words: [self.low() & q.low(), self.high() & q.high()],
            count: self.count,
        }
    }

    // The row with `weak` at its last place: a foreign atom's there.
    pub fn with_last(self, weak: bool) -> Row
        requires { Whole self }
        ensures { Made result self.count (tabulate self.count (last_at weak self.count (mark_at (marks self)))) }
    {
        let before = self.and(Row::last(self.count, true).not());
        before.or(Row::last(self.count, weak))
    }

    pub fn next(self, weak: bool) -> Row
        requires { Whole self }
        ensures { Made result self.count (tabulate self.count (next_at weak self.count (mark_at (marks self)))) }
    {
        let low = self.low();
        let high = self.high();
        let moved = Row {
            words: [(low >> 1) | (high << (WORD_MARKS - 1)), high >> 1],
            count: self.count,
        };
        moved.or(Row::last(self.count, weak))
    }

    // The weak ending is q at the last place, where p is; the high word's first place enters the low word in the same way.
    pub fn until(self, q: Row, weak: bool) -> Row
        requires { (Whole self) × (Whole q) × (self.count ≡ q.count) }
        ensures { Made result self.count (tabulate self.count (until_at weak self.count (mark_at (marks self)) (mark_at (marks q)))) }
    {
        let ended = q.or(self.and(Row::last(self.count, weak)));
        let p = self.low();
        let high = until_word(self.high(), ended.high());
        let low = until_word(p, ended.low() | (p & (high << (WORD_MARKS - 1))));
        Row {
            words: [low, high],
            count: self.count,
        }
    }

    pub fn prev(self) -> Row
        requires { Whole self }
        ensures { Made result self.count (tabulate self.count (prev_at (mark_at (marks self)))) }
    {
        let full = Row::full(self.count);
        let low = self.low();
        let carried = (self.high() << 1) | (low >> (WORD_MARKS - 1));
        Row {
            words: [(low << 1) & full.low(), carried & full.high()],
            count: self.count,
        }
    }

    pub fn since(self, q: Row) -> Row
        requires { (Whole self) × (Whole q) × (self.count ≡ q.count) }
        ensures { Made result self.count (tabulate self.count (since_at (mark_at (marks self)) (mark_at (marks q)))) }
    {
        let low = since_word(self.low(), q.low(), NO_PAST);
        let high = since_word(self.high(), q.high(), low >> (WORD_MARKS - 1));
        Row {
            words: [low, high],
            count: self.count,
        }
    }
}
