// Wanted places: a pair of rows for each node, as the evaluator lays them.
ghost use Rattle.std.specs.Prelude.{◌+◌, ◌*◌, ◌<◌, ◌≤◌, length};
ghost use Rattle.definitions.specs.Limits.{max_states, pair_words};
ghost use Rattle.rows.specs.Pairs.{PairMade, pair_of_node, Operable};
ghost use Rattle.walk.specs.Wanted.{Wished, Held, none, chosen, started};

use rows::Row;
use rows::pair::{Pair, pair_of_node, store_pair};

// What is taken of node j is wanted, beside what is wanted of it already.
pub fn want(wanted: &mut [u64], j: usize, taken: Pair)
    requires { (j * pair_words + pair_words ≤ length wanted.old) × (Operable (pair_of_node wanted.old j) taken) }
    ensures { Wished wanted.old j taken wanted.new }
{
    let p = pair_of_node(wanted, j);
    let weak = p.weak.or(taken.weak);
    let strong = p.strong.or(taken.strong);
    store_pair(wanted, j, Pair { weak, strong });
}

fn blank(count: usize, n: usize, wanted: &mut [u64])
    requires { (count * pair_words ≤ length wanted.old) × (n ≤ max_states) }
    ensures { Held n count wanted.new (λ j. none n) }
{
    let row = Row::none(n);
    for j in 0..count {
        store_pair(wanted, j, Pair::both(row));
    }
}

// Place 0, in the reading that was chosen: prev is no there and nowhere else.
fn chosen(n: usize, weak: bool) -> Pair
    requires { n ≤ max_states }
    ensures { PairMade result n (chosen n weak) }
{
    let none = Row::none(n);
    let here = Row::full(n).prev().not();
    if weak {
        return Pair {
            weak: here,
            strong: none,
        };
    }
    Pair {
        weak: none,
        strong: here,
    }
}

// "Walk from the rule": nothing is wanted but the last node.
pub fn start(count: usize, n: usize, weak: bool, wanted: &mut [u64])
    requires { (0 < count) × (count * pair_words ≤ length wanted.old) × (n ≤ max_states) }
    ensures { Held n count wanted.new (started n count weak) }
{
    blank(count, n, wanted);
    want(wanted, count - 1, chosen(n, weak));
}
