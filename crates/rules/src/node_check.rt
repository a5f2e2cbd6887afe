// The check of one node of a table.
ghost use Rattle.std.specs.Prelude.{Bool, false, ◌≡◌, ℕ};
ghost use Rattle.definitions.specs.Tables.{node_refusal};
ghost use Rattle.rules.specs.Kinds.{kind_in};
ghost use Rattle.rules.specs.Meaning.{meaning};
ghost use Rattle.rules.specs.Fits.{is_held, takes_nodes, unused_clear, node_fits};
ghost use Rattle.rules.specs.Refusals.{number_of, refusal_in};

use super::choice::pick;
use super::kind::Kind;
use super::limits::Limits;
use super::node::Node;
use super::refusal::Refusal;

// The kinds that a rule's table, or (rewritten) the judge's, may hold.
fn is_held(rewritten: bool, kind: Kind) -> bool
    ensures { result ≡ is_held rewritten (kind_in kind) }
{
    !kind.is_unknown() & (!kind.is_rewritten() | rewritten)
}

// Not, or, next, until, prev, since.
fn takes_nodes(kind: Kind) -> bool
    ensures { result ≡ takes_nodes (kind_in kind) }
{
    !kind.is_leaf()
}

// A second operand that is not used is 0.
fn unused_clear(n: Node) -> bool
    ensures { result ≡ unused_clear (meaning n) }
{
    n.kind.takes_two() | (n.second == 0)
}

// A kind that the table may hold; operands that are nodes are earlier ones; others are below their limits. No test is a
// branch that the kinds of a table decide, and none is wider than an operand.
pub fn node_fits(rewritten: bool, i: u16, n: Node) -> bool
    ensures { result ≡ node_fits rewritten i (meaning n) }
{
    let nodes = takes_nodes(n.kind);
    let early = (n.first < i) & (n.second < i);
    let within = n.first < pick(n.kind == Kind::Atom, Limits::ATOMS as u16, 1);
    is_held(rewritten, n.kind) & unused_clear(n) & ((nodes & early) | (!nodes & within))
}

// Of a node that doesn't fit: 3 where nothing but a node that it takes can be wrong, else 2.
fn misfit(n: Node) -> Refusal
    ensures { (rewritten : Bool) (i : ℕ) → node_fits rewritten i (meaning n) ≡ false → number_of result ≡ node_refusal rewritten i (meaning n) }
{
    pick(
        takes_nodes(n.kind) & unused_clear(n),
        Refusal::RuleOperand,
        Refusal::RuleLimits,
    )
}

// Node i of a rule's table, or (rewritten) of the judge's; few tests accept a node that fits.
pub fn check_node(rewritten: bool, i: u16, n: Node) -> Result<(), Refusal>
    ensures { refusal_in result ≡ node_refusal rewritten i (meaning n) }
{
    if node_fits(rewritten, i, n) {
        return Ok(());
    }
    Err(misfit(n))
}
