// A state arrives.
ghost use Rattle.std.specs.Prelude.{◌≡◌, ◌≤◌, length};
ghost use Rattle.definitions.specs.Limits.{max_states};
ghost use Rattle.definitions.specs.Sessions.{controllers_refusal, arrival_refusal};
ghost use Rattle.rules.specs.Refusals.{refusal_in};
ghost use Rattle.sessions.specs.Calls.{ArriveIs};

use super::heading::Heading;
use recordings::check::check_state;
use rules::limits::Limits;
use rules::refusal::{Refusal, unless};

// C within its limits.
#[tactic(auto, unfolding(definitions::specs::Sessions::controllers_refusal))]
pub fn check_controllers(controllers: usize) -> Result<(), Refusal>
    ensures { refusal_in result ≡ controllers_refusal controllers }
{
    let within = (1 <= controllers) & (controllers <= Limits::CONTROLLERS);
    unless(Refusal::RecordingLimits, within)
}

// 17, then C, then the state against the one before it: no earlier state is looked at.
#[tactic(auto, using(crate::proofs::ArrivalLaws::check_laws))]
fn check_arrival(
    controllers: usize,
    masks: &[u32],
    held: usize,
    states: &[u64],
    state: u64,
) -> Result<(), Refusal>
    requires { max_states ≤ length states.now }
    ensures { refusal_in result ≡ arrival_refusal controllers masks.now held states.now state }
{
    if Limits::STATES <= held {
        return Err(Refusal::SessionFull);
    }
    check_controllers(controllers)?;
    let prior = states[held.saturating_sub(1)];
    check_state(controllers, masks, held, prior, state)
}

// All is checked before anything is written.
#[tactic(auto, using(crate::proofs::ArrivalLaws::arrive_laws))]
pub fn arrive(
    state: u64,
    heading: &mut [usize; Heading::NUMBERS],
    masks: &[u32],
    states: &mut [u64],
) -> Result<(), Refusal>
    ensures { ArriveIs state heading.old masks.now states.old (refusal_in result) heading.new states.new }
{
    if states.len() < Limits::STATES {
        return Err(Refusal::LentShort);
    }
    let controllers = heading[Heading::CONTROLLERS];
    let held = heading[Heading::HELD];
    check_arrival(controllers, masks, held, states, state)?;
    states[held] = state;
    heading[Heading::HELD] = held + 1;
    Ok(())
}
