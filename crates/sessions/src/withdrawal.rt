// The last state is withdrawn.
ghost use Rattle.rules.specs.Refusals.{refusal_in};
ghost use Rattle.sessions.specs.Calls.{WithdrawIs};

use super::heading::Heading;
use rules::limits::Limits;
use rules::refusal::Refusal;

// A withdrawn state's entry is zero again.
pub fn withdraw(heading: &mut [usize; Heading::NUMBERS], states: &mut [u64]) -> Result<(), Refusal>
    ensures { WithdrawIs heading.old states.old (refusal_in result) heading.new states.new }
{
    if states.len() < Limits::STATES {
        return Err(Refusal::LentShort);
    }
    let held = heading[Heading::HELD];
    if held == 0 {
        return Err(Refusal::SessionEmpty);
    }
    if Limits::STATES < held {
        return Err(Refusal::RecordingLimits);
    }
    states[held - 1] = 0;
    heading[Heading::HELD] = held - 1;
    Ok(())
}
