// Projection as an operation: the local trace of one controller of any recording, in lent space. `pass`: one pass over the states, which after each holds the
// local trace so far; `places`: of an accepted recording; `place_state`: the state that a place is. No atom is read here.
#![tactic(auto)]

pub mod pass;
pub mod place_state;
pub mod places;

ghost use Rattle.recordings.specs.Heading.{recording_in};
ghost use Rattle.projection.specs.Answers.{ProjectIs};

use lent::clear;
use places::project_counted;
use recordings::check::check_joined;
use recordings::heading::Recording;
use recordings::masks::mask_at;
use rules::limits::Limits;
use rules::refusal::Refusal;

// 13 leaves the lent places alone, another refusal zeroes them; else the answer is the local length.
pub fn project(recording: Recording<'_>, c: usize, places: &mut [u32]) -> Result<usize, Refusal>
    ensures { ProjectIs (recording_in recording.entry) c places.old result places.new }
{
    if places.len() < Limits::STATES {
        return Err(Refusal::LentShort);
    }
    if let Err(refusal) = check_joined(recording, c) {
        clear(places, 0, Limits::STATES);
        return Err(refusal);
    }
    let mask = mask_at(recording.masks, c);
    let length = project_counted(recording.count, mask, c, recording.states, places);
    clear(places, length, Limits::STATES);
    Ok(length)
}
