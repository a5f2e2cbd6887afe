// The reader of a recording text: masks and states into lent space, C and N as the answer; refused, lent space is zeros. `line`: the first line; `mask_line`:
// the line of a mask; `scan`: all lines up to the first refusal.
#![tactic(auto)]

pub mod line;
pub mod mask_line;
pub mod scan;

ghost use Rattle.recording_reader.specs.Reading.{ReadRecording};

use recordings::heading::RecordingHeading;
use rules::limits::Limits;
use rules::refusal::Refusal;
use scan::scan_recording;

// Reads a recording into `masks` and `states`: refused, nothing of it is kept.
pub fn read_recording(
    text: &[u8],
    masks: &mut [u32],
    states: &mut [u64],
) -> Result<RecordingHeading, Refusal>
    ensures { ReadRecording text.now masks.old states.old result masks.new states.new }
{
    if masks.len() < Limits::CONTROLLERS {
        return Err(Refusal::LentShort);
    }
    if states.len() < Limits::STATES {
        return Err(Refusal::LentShort);
    }
    let read = scan_recording(text, masks, states);
    let masks_kept = read.map_or(0, |heading| heading.controllers);
    let states_kept = read.map_or(0, |heading| heading.count);
    lent::clear(masks, masks_kept, Limits::CONTROLLERS);
    lent::clear(states, states_kept, Limits::STATES);
    read.map_err(|cut| cut.stop.refusal)
}
