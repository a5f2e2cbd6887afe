// The answer of a judge.
ghost use Rattle.std.specs.Prelude.{◌≡◌};
ghost use Rattle.judges.specs.Verdicts.{Topped, tops_in};

use rows::pair::Pair;
use rows::stored::load;
use rules::limits::Limits;

#[derive(Clone, Copy)]
pub struct Verdicts {
    pub weak: bool,
    pub strong: bool,
}

// "The verdict is the reading at place 0": the weak one at one top, the strong one at another.
pub fn at_tops(rows: &[u64], weak_top: usize, strong_top: usize) -> Verdicts
    requires { Topped rows.now weak_top strong_top }
    ensures { result ≡ tops_in rows.now weak_top strong_top }
{
    Verdicts {
        weak: load(rows, weak_top * Limits::PAIR_WORDS).mark(0),
        strong: load(rows, strong_top * Limits::PAIR_WORDS + Pair::STRONG).mark(0),
    }
}
