// The signals of an archive text: a line of digits for each controller's run marks and for each atom. `reading`: from the lines into the states; `writing`:
// from the states. The masks are not asked for here.
#![tactic(auto)]

pub mod reading;
pub mod writing;

ghost use Rattle.std.specs.Prelude.{◌≡◌};
ghost use Rattle.signals.specs.Places.{InSignals, place_of};

use rules::limits::Limits;

// The bit of a state that signal j holds.
pub fn place(controllers: usize, j: usize) -> usize
    requires { InSignals controllers j }
    ensures { result ≡ place_of controllers j }
{
    if j < controllers {
        return Limits::ATOMS + j;
    }
    j - controllers
}
