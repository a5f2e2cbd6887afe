// One pass over the states: after each of them it holds the local trace of the recording that ends there, and its run marks.
ghost use Rattle.std.specs.Prelude.{List, ◌≡◌, ℕ, ◌<◌, length};
ghost use Rattle.definitions.specs.Recordings.{Recording, state_at, mask_of};
ghost use Rattle.theorems.proofs.OneStateMore.{OneMore};
ghost use Rattle.rows.specs.Marks.{Whole};
ghost use Rattle.projection.specs.Passes.{Holds, Ready, Passed, Closed, Counted};
ghost use Rattle.projection.specs.Places.{Projectable};

use recordings::state::{atoms_of, marked};
use rows::Row;
use rules::choice::pick;

// What is held beside the lent places: the run marks of all states but the last, how many places stand before the last place, the word
// of the last place, and the state taken last. Whether that one is a run is told by the next.
#[derive(Clone, Copy)]
pub struct Pass {
    pub run: Row,
    pub placed: usize,
    pub own: u32,
    pub last: u64,
}

impl Pass {
    // One state: one place.
    pub fn begin(mask: u32, state: u64) -> Pass
        ensures { (S : Recording) (c : ℕ) (places : List ℕ) → S.count ≡ 1 → state_at S 0 ≡ state → mask_of S c ≡ mask → Holds S c places result places }
    {
        Pass {
            run: Row::none(0),
            placed: 0,
            own: atoms_of(state) & mask,
            last: state,
        }
    }

    // One state more. The word of the state before it is written to the last place, and kept there if the controller ran: no branch
    // that the marks decide.
    pub fn take(self, c: usize, mask: u32, state: u64, places: &mut [u32]) -> Pass
        requires { Ready c self places.old }
        ensures { (S R : Recording) (entry : List ℕ) → OneMore S R state → mask_of R c ≡ mask → Holds S c entry self places.old → Holds R c entry result places.new }
    {
        let ran = marked(c, self.last);
        let at = self.placed;
        places[at] = atoms_of(self.last);
        Pass {
            run: self.run.push(ran),
            placed: pick(ran, at + 1, at),
            own: pick(ran, atoms_of(state) & mask, self.own),
            last: state,
        }
    }

    // The last place, after the others.
    pub fn close(self, places: &mut [u32])
        requires { self.placed < length places.old }
        ensures { Closed self places.old places.new }
    {
        places[self.placed] = self.own;
    }

    // "one more than the number of run marks of that controller": they form a row, whose ones are counted.
    pub fn length(self) -> usize
        requires { Whole self.run }
        ensures { Counted self result }
    {
        self.run.total() as usize + 1
    }
}

// The first `count` states, each read once, when it is taken.
pub fn pass_over(count: usize, mask: u32, c: usize, states: &[u64], places: &mut [u32]) -> Pass
    requires { Projectable count c states.now places.old }
    ensures { Passed count mask c states.now places.old result places.new }
{
    let mut held = Pass::begin(mask, states[0]);
    for state in &states[1..count] {
        held = held.take(c, mask, *state, places);
    }
    held
}
