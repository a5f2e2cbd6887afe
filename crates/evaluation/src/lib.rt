// The evaluator of a table over a trace of state words: a weak and a strong row for each node, into lent rows. `leaf`: the rows of a node without operands;
// `traced`: the trace. It gives no verdict.
#![tactic(auto)]

pub mod leaf;
pub mod traced;

ghost use Rattle.std.specs.Prelude.{◌≡◌, ◌++◌, ◌+◌, ◌*◌, ◌<◌, ◌≤◌, length, drop};
ghost use Rattle.definitions.specs.Limits.{pair_words};
ghost use Rattle.definitions.specs.Readings.{pairs_words};
ghost use Rattle.evaluation.specs.Nodes.{again, Ready, Evaluable, rows_to, rows_at};
ghost use Rattle.rows.specs.Pairs.{PairMade, Operands, operator_rows};

use leaf::leaf;
use rows::pair::{Pair, counted, operate, pair_of_node, store_pair};
use rules::node::Node;
use traced::Traced;

// Stands for the controller where a table has no node of kind run or end, as no rule has: then nothing reads it.
pub const UNREAD_CONTROLLER: usize = 0;

// The leaves seen so far: a slot holds the number of the last node whose leaf fell into it.
const SLOTS: usize = 64;

// Tells the leaves' slots apart: true at 0, the atoms at 5 to 36, run at 40, end at 45.
const SPREAD: usize = 5;

fn slot(node: Node) -> usize
    ensures { result < SLOTS }
{
    (node.kind.number() as usize * SPREAD + node.first as usize) % SLOTS
}

// Whether `earlier` is a node before node i with the same word.
fn is_again(nodes: &[u32], i: usize, earlier: usize) -> bool
    requires { i < length nodes.now }
    ensures { result ≡ again nodes.now i earlier }
{
    earlier < i && nodes[earlier] == nodes[i]
}

// An unused operand is 0, which is a node before it too. The count is told, not read: what depends on it is then made once for all nodes.
fn operator(node: Node, n: usize, rows: &[u64]) -> Pair
    requires { Operands node.kind node.first node.second n rows.now }
    ensures { PairMade result n (operator_rows node.kind node.first node.second n rows.now) }
{
    let p = pair_of_node(rows, node.first as usize);
    let q = pair_of_node(rows, node.second as usize);
    operate(node.kind, counted(p, n), counted(q, n))
}

// Node i's two rows, from the rows of the nodes before it; a leaf that stood there before has its rows already.
fn node_rows(
    nodes: &[u32],
    i: usize,
    traced: Traced<'_>,
    rows: &[u64],
    seen: &mut [usize; SLOTS],
) -> Pair
    requires { Ready nodes.now i traced.states.now traced.count traced.controller traced.own rows.now }
    ensures { PairMade result traced.entry.count (rows_at nodes.now i traced.entry.states.now traced.entry.count traced.entry.controller traced.entry.own) }
{
    let node = Node::of_word(nodes[i]);
    if node.kind.is_leaf() {
        let at = slot(node);
        let earlier = seen[at];
        seen[at] = i;
        if is_again(nodes, i, earlier) {
            return pair_of_node(rows, earlier);
        }
        return leaf(node, traced);
    }
    operator(node, traced.count, rows)
}

fn evaluate_node(
    nodes: &[u32],
    i: usize,
    traced: Traced<'_>,
    rows: &mut [u64],
    seen: &mut [usize; SLOTS],
)
    requires { Ready nodes.now i traced.states.now traced.count traced.controller traced.own rows.old }
    ensures { rows.new ≡ pairs_words (rows_to nodes.now (i + 1) traced.entry.states.now traced.entry.count traced.entry.controller traced.entry.own) ++ drop ((i + 1) * pair_words) rows.old }
{
    let p = node_rows(nodes, i, traced, rows, seen);
    store_pair(rows, i, p);
}

// Each node once, in order: its operands' rows are laid when its turn comes.
pub fn evaluate(nodes: &[u32], count: usize, traced: Traced<'_>, rows: &mut [u64])
    requires { Evaluable nodes.now count traced.states.now traced.count traced.controller rows.old }
    ensures { rows.new ≡ pairs_words (rows_to nodes.now count traced.entry.states.now traced.entry.count traced.entry.controller traced.entry.own) ++ drop (count * pair_words) rows.old }
{
    let mut seen = [0usize; SLOTS];
    for i in 0..count {
        evaluate_node(nodes, i, traced, rows, &mut seen);
    }
}
