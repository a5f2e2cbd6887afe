// A node's two rows, and the operators on them.
ghost use Rattle.std.specs.Prelude.{◌≡◌, false, ◌+◌, ◌*◌, ◌≤◌, length};
ghost use Rattle.definitions.specs.Limits.{pair_words};
ghost use Rattle.definitions.specs.Nodes.{Until};
ghost use Rattle.rules.specs.Kinds.{kind_in, is_leaf};
ghost use Rattle.rows.specs.Pairs.{rows_in, PairMade, PairWhole, PairStored, Counted, Operable, operated, pair_at, pair_of_node};

use super::Row;
use super::stored::{load, store};
use rules::kind::Kind;
use rules::limits::Limits;

#[derive(Clone, Copy)]
pub struct Pair {
    pub weak: Row,
    pub strong: Row,
}

impl Pair {
    // Where the strong row lies in lent space: after the weak one.
    pub const STRONG: usize = Row::WORDS;

    // One row for both readings.
    pub fn both(row: Row) -> Pair
        ensures { result ≡ record { weak = row; strong = row } }
    {
        Pair {
            weak: row,
            strong: row,
        }
    }
}

#[tactic(auto, unfolding(crate::specs::Pairs::pair_at))]
pub fn load_pair(rows: &[u64], at: usize) -> Pair
    requires { at + pair_words ≤ length rows.now }
    ensures { result ≡ pair_at rows.now at }
{
    Pair {
        weak: load(rows, at),
        strong: load(rows, at + Pair::STRONG),
    }
}

// The rows of node j.
pub fn pair_of_node(rows: &[u64], j: usize) -> Pair
    requires { j * pair_words + pair_words ≤ length rows.now }
    ensures { result ≡ pair_of_node rows.now j }
{
    load_pair(rows, j * Limits::PAIR_WORDS)
}

// Lays a pair over that of node j.
pub fn store_pair(rows: &mut [u64], j: usize, p: Pair)
    requires { (PairWhole p) × (j * pair_words + pair_words ≤ length rows.old) }
    ensures { PairStored rows.old j p rows.new }
{
    store(rows, j * Limits::PAIR_WORDS, p.weak);
    store(rows, j * Limits::PAIR_WORDS + Pair::STRONG, p.strong);
}

// The pair, its counts told to be n: the compiler then sees one count where there are two.
pub fn counted(p: Pair, n: usize) -> Pair
    requires { Counted n p }
    ensures { result ≡ p }
{
    Pair {
        weak: Row { count: n, ..p.weak },
        strong: Row {
            count: n,
            ..p.strong
        },
    }
}

// Until of each reading, on copies: rows that are handed to a call lie in memory, and so only until's do.
fn untils(p: Pair, q: Pair) -> Pair
    requires { Operable p q }
    ensures { PairMade result p.weak.count (operated Until p.weak.count (rows_in p) (rows_in q)) }
{
    let n = p.weak.count;
    let a = counted(p, n);
    let b = counted(q, n);
    Pair {
        weak: a.weak.until(b.weak, true),
        strong: a.strong.until(b.strong, false),
    }
}

// The rows of an operator, each reading by itself; not swaps the readings.
pub fn operate(kind: Kind, p: Pair, q: Pair) -> Pair
    requires { (is_leaf (kind_in kind) ≡ false) × (Operable p q) }
    ensures { PairMade result p.weak.count (operated (kind_in kind) p.weak.count (rows_in p) (rows_in q)) }
{
    match kind {
        Kind::Not => Pair {
            weak: p.strong.not(),
            strong: p.weak.not(),
        },
        Kind::Or => Pair {
            weak: p.weak.or(q.weak),
            strong: p.strong.or(q.strong),
        },
        Kind::Next => Pair {
            weak: p.weak.next(true),
            strong: p.strong.next(false),
        },
        Kind::Until => untils(p, q),
        Kind::Prev => Pair {
            weak: p.weak.prev(),
            strong: p.strong.prev(),
        },
        Kind::Since => Pair {
            weak: p.weak.since(q.weak),
            strong: p.strong.since(q.strong),
        },
        Kind::True | Kind::Atom | Kind::Run | Kind::End | Kind::Unknown(_) => unreachable!(),
    }
}
