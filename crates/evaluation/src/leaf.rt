// The rows of a node without operand nodes, gathered from the states.
ghost use Rattle.std.specs.Prelude.{[], ◌<◌};
ghost use Rattle.definitions.specs.Limits.{atom_count, max_controllers};
ghost use Rattle.definitions.specs.Bounded.{tabulate};
ghost use Rattle.definitions.specs.Nodes.{node};
ghost use Rattle.definitions.specs.Projection.{end_at};
ghost use Rattle.definitions.specs.Readings.{node_rows};
ghost use Rattle.rules.specs.Kinds.{kind_in};
ghost use Rattle.rows.specs.Marks.{Made};
ghost use Rattle.evaluation.specs.Traced.{Gathered, LeafReady, trace_of, atom_rows, state_run};
ghost use Rattle.rows.specs.Pairs.{PairMade};

use super::traced::Traced;
use recordings::masks::is_own;
use rows::Row;
use rows::pair::Pair;
use rules::kind::Kind;
use rules::limits::Limits;
use rules::node::Node;

// A foreign atom's two rows are one column, but for its last place.
fn atom(a: usize, traced: Traced<'_>) -> Pair
    requires { (Gathered traced.states.now traced.count) × (a < atom_count) }
    ensures { PairMade result traced.entry.count (atom_rows traced.entry.states.now traced.entry.count traced.entry.own a) }
{
    let column = Row::column(traced.states, traced.count, a);
    if is_own(traced.own, a) {
        return Pair::both(column);
    }
    Pair {
        weak: column.with_last(true),
        strong: column.with_last(false),
    }
}

// The marks, but for the last state's: a step whose result isn't there is no run.
fn run(traced: Traced<'_>) -> Row
    requires { (Gathered traced.states.now traced.count) × (traced.controller < max_controllers) }
    ensures { Made result traced.entry.count (tabulate traced.entry.count (state_run traced.entry.states.now traced.entry.count traced.entry.controller)) }
{
    let marks = Row::column(
        traced.states,
        traced.count,
        Limits::ATOMS + traced.controller,
    );
    marks.with_last(false)
}

// No run from here on: no run until a place that never comes.
fn end(traced: Traced<'_>) -> Row
    requires { (Gathered traced.states.now traced.count) × (traced.controller < max_controllers) }
    ensures { Made result traced.entry.count (tabulate traced.entry.count (end_at (state_run traced.entry.states.now traced.entry.count traced.entry.controller) traced.entry.count)) }
{
    let idle = run(traced).not();
    idle.until(Row::none(traced.count), true)
}

// All but a foreign atom read one row for both readings.
pub fn leaf(n: Node, traced: Traced<'_>) -> Pair
    requires { LeafReady n.kind n.first traced.states.now traced.count traced.controller }
    ensures { PairMade result traced.entry.count (node_rows (trace_of traced.entry.states.now traced.entry.count traced.entry.controller traced.entry.own) [] (node (kind_in n.kind) n.first 0)) }
{
    match n.kind {
        Kind::True => Pair::both(Row::full(traced.count)),
        Kind::Atom => atom(n.first as usize, traced),
        Kind::Run => Pair::both(run(traced)),
        Kind::End => Pair::both(end(traced)),
        Kind::Not
        | Kind::Or
        | Kind::Next
        | Kind::Until
        | Kind::Prev
        | Kind::Since
        | Kind::Unknown(_) => unreachable!(),
    }
}
