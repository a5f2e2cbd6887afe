// The walk behind a verdict, from the rule's node to the first. `step`, `taken`: what one node's wanted places take of its operands; `wanted`: the wanted places
// of each node, as rows. Which of them are readings is not asked here.
#![tactic(auto)]

pub mod step;
pub mod taken;
pub mod wanted;

ghost use Rattle.rules.specs.Kinds.{kind_in};
ghost use Rattle.rules.specs.Meaning.{meaning};
ghost use Rattle.rows.specs.Pairs.{pair_of_node};
ghost use Rattle.walk.specs.Steps.{TakenMade};
ghost use Rattle.walk.specs.Walking.{Taking, OperatorReady, word_node, Turning, Turned, Walkable, Walked};

use rows::pair::pair_of_node;
use rules::node::Node;
use step::Operator;
use taken::{Taken, take};
use wanted::{start, want};

// What the wanted places of node m take.
fn taken_by(node: Node, m: usize, rows: &[u64], wanted: &[u64]) -> Taken
    requires { Taking node.kind node.first node.second m rows.now wanted.now }
    ensures { TakenMade (kind_in node.kind) (pair_of_node wanted.now m) (pair_of_node rows.now m) (pair_of_node rows.now node.first) (pair_of_node rows.now node.second) result }
{
    let operator = Operator {
        wanted: pair_of_node(wanted, m),
        own: pair_of_node(rows, m),
        first: pair_of_node(rows, node.first as usize),
        second: pair_of_node(rows, node.second as usize),
    };
    take(node.kind, operator)
}

// An operator's turn: what it takes of its operands is wanted of them. An unused operand is 0, of which nothing is taken.
fn turn_operator(node: Node, m: usize, n: usize, rows: &[u64], wanted: &mut [u64])
    requires { OperatorReady node.kind node.first node.second m n rows.now wanted.old }
    ensures { Turned (meaning node) m n rows.now wanted.old wanted.new }
{
    let t = taken_by(node, m, rows, wanted);
    want(wanted, node.first as usize, t.first);
    want(wanted, node.second as usize, t.second);
}

// Node m's turn: a leaf takes nothing.
fn turn(nodes: &[u32], m: usize, n: usize, rows: &[u64], wanted: &mut [u64])
    requires { Turning nodes.now m n rows.now wanted.old }
    ensures { Turned (word_node nodes.now m) m n rows.now wanted.old wanted.new }
{
    let node = Node::of_word(nodes[m]);
    if !node.kind.is_leaf() {
        turn_operator(node, m, n, rows, wanted);
    }
}

// The places at which each of the nodes is wanted, from their rows over n places.
pub fn walk(nodes: &[u32], count: usize, n: usize, rows: &[u64], weak: bool, wanted: &mut [u64])
    requires { Walkable nodes.now count n rows.now wanted.old }
    ensures { Walked nodes.now count n rows.now weak wanted.new }
{
    start(count, n, weak, wanted);
    for m in (0..count).rev() {
        turn(nodes, m, n, rows, wanted);
    }
}
