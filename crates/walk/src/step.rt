// A step in one reading: from the node's wanted places, its own row and its operands' rows.
ghost use Rattle.std.specs.Prelude.{◌≡◌, not, false, ◌&&◌};
ghost use Rattle.definitions.specs.Bounded.{tabulate};
ghost use Rattle.definitions.specs.Nodes.{Or, Until, Since};
ghost use Rattle.mark_words.specs.Marks.{mark_at};
ghost use Rattle.rows.specs.Marks.{marks, Whole, Made};
ghost use Rattle.rules.specs.Kinds.{kind_in, is_leaf};
ghost use Rattle.walk.specs.Steps.{Twin, Even, OfFirst, Reached, Stepped};

use rows::Row;
use rules::kind::Kind;

// What stands around an operator, a row or a pair each: its wanted places, its own, and those of its operands.
#[derive(Clone, Copy)]
pub struct Operator<T> {
    pub wanted: T,
    pub own: T,
    pub first: T,
    pub second: T,
}

// The places that are taken of the first operand, and of the second.
#[derive(Clone, Copy)]
pub struct Step {
    pub first: Row,
    pub second: Row,
}

fn but_not(p: Row, q: Row) -> Row
    requires { Twin p q }
    ensures { Made result p.count (tabulate p.count (λ k. mark_at (marks p) k && not (mark_at (marks q) k))) }
{
    p.and(q.not())
}

// The places are taken of the first operand alone.
fn of_first(places: Row) -> Step
    requires { Whole places }
    ensures { OfFirst places result }
{
    Step {
        first: places,
        second: Row::none(places.count),
    }
}

// "an or that is yes takes its first yes operand, one that is no takes both"
fn or_step(operator: Operator<Row>) -> Step
    requires { Even operator.wanted operator.own operator.first operator.second }
    ensures { Stepped Or operator.wanted operator.own operator.first operator.second result }
{
    Step {
        first: but_not(operator.wanted, but_not(operator.own, operator.first)),
        second: but_not(operator.wanted, operator.first),
    }
}

// Of the places that an until or a since came to, which are the wanted ones here: a yes takes the first operand where the second is no and the second where it
// is yes, a no takes the first where that is no, and the second.
fn reached(operator: Operator<Row>) -> Step
    requires { Even operator.wanted operator.own operator.first operator.second }
    ensures { Reached operator.wanted operator.own operator.first operator.second result }
{
    let held = but_not(operator.own, operator.second);
    let failed = but_not(operator.own.not(), operator.first);
    Step {
        first: operator.wanted.and(held.or(failed)),
        second: but_not(operator.wanted, held),
    }
}

// An until hands its question on to the next place where its first operand is yes and its second is no.
fn until_step(operator: Operator<Row>) -> Step
    requires { Even operator.wanted operator.own operator.first operator.second }
    ensures { Stepped Until operator.wanted operator.own operator.first operator.second result }
{
    let from = but_not(operator.first, operator.second).prev();
    reached(Operator {
        wanted: from.since(operator.wanted),
        ..operator
    })
}

// A since hands it on to the place before.
fn since_step(operator: Operator<Row>) -> Step
    requires { Even operator.wanted operator.own operator.first operator.second }
    ensures { Stepped Since operator.wanted operator.own operator.first operator.second result }
{
    let from = but_not(operator.first, operator.second).next(false);
    reached(Operator {
        wanted: from.until(operator.wanted, false),
        ..operator
    })
}

// The step of an operator.
pub fn step_of(kind: Kind, operator: Operator<Row>) -> Step
    requires { (is_leaf (kind_in kind) ≡ false) × (Even operator.wanted operator.own operator.first operator.second) }
    ensures { Stepped (kind_in kind) operator.wanted operator.own operator.first operator.second result }
{
    match kind {
        Kind::Not => of_first(operator.wanted),
        Kind::Or => or_step(operator),
        Kind::Next => of_first(operator.wanted.prev()),
        Kind::Until => until_step(operator),
        Kind::Prev => of_first(operator.wanted.next(false)),
        Kind::Since => since_step(operator),
        Kind::True | Kind::Atom | Kind::Run | Kind::End | Kind::Unknown(_) => unreachable!(),
    }
}
