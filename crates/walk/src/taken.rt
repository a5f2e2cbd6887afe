// A step in both readings.
ghost use Rattle.std.specs.Prelude.{◌≡◌, false};
ghost use Rattle.rules.specs.Kinds.{kind_in, is_leaf};
ghost use Rattle.walk.specs.Steps.{PairsEven, pair_under, TakenMade};

use super::step::{Operator, step_of};
use rows::Row;
use rows::pair::Pair;
use rules::kind::Kind;

// What is taken of the first operand, and of the second.
#[derive(Clone, Copy)]
pub struct Taken {
    pub first: Pair,
    pub second: Pair,
}

impl Operator<Pair> {
    fn weak(self) -> Operator<Row>
        ensures { result ≡ record { wanted = self.wanted.weak; own = self.own.weak; first = self.first.weak; second = self.second.weak } }
    {
        Operator {
            wanted: self.wanted.weak,
            own: self.own.weak,
            first: self.first.weak,
            second: self.second.weak,
        }
    }

    fn strong(self) -> Operator<Row>
        ensures { result ≡ record { wanted = self.wanted.strong; own = self.own.strong; first = self.first.strong; second = self.second.strong } }
    {
        Operator {
            wanted: self.wanted.strong,
            own: self.own.strong,
            first: self.first.strong,
            second: self.second.strong,
        }
    }
}

// "a not passes on", in the other reading.
fn under(kind: Kind, weak: Row, strong: Row) -> Pair
    ensures { result ≡ pair_under (kind_in kind) weak strong }
{
    if kind == Kind::Not {
        return Pair {
            weak: strong,
            strong: weak,
        };
    }
    Pair { weak, strong }
}

pub fn take(kind: Kind, operator: Operator<Pair>) -> Taken
    requires { (is_leaf (kind_in kind) ≡ false) × (PairsEven operator.wanted operator.own operator.first operator.second) }
    ensures { TakenMade (kind_in kind) operator.wanted operator.own operator.first operator.second result }
{
    let weak = step_of(kind, operator.weak());
    let strong = step_of(kind, operator.strong());
    Taken {
        first: under(kind, weak.first, strong.first),
        second: under(kind, weak.second, strong.second),
    }
}
