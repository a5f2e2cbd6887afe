// A recording text without gauges, or an archive text, read into masks and states up to the first refusal.
ghost use Rattle.std.specs.Prelude.{drop};
ghost use Rattle.definitions.specs.Archive.{after_opening};
ghost use Rattle.archives.specs.Reading.{scan_text, after_text, AfterRoom, AfterScanned, TextRoom, TextScanned};

use lines::{Stop, first_line};
use recording_reader::line::next_heading;
use recording_reader::scan::{scan_masks, scan_plain};
use recordings::check::check_states;
use recordings::heading::RecordingHeading;
use signals::reading::scan_signals;

// The signals from `start` to the end of an archive text, into the states, which are zero; then the output rule.
#[tactic(auto, using(crate::proofs::ReadingLaws::turned_laws))]
fn scan_turned(
    text: &[u8],
    start: usize,
    heading: RecordingHeading,
    masks: &[u32],
    states: &mut [u64],
) -> Result<usize, Stop>
    requires { AfterRoom heading start text.now states.old }
    ensures { AfterScanned (after_opening heading.controllers heading.count masks.now (drop start text.now)) heading.count text.now result states.new }
{
    let controllers = heading.controllers;
    let count = heading.count;
    let at = scan_signals(text, start, controllers, count, states)?;
    if let Err(refusal) = check_states(controllers, count, masks, states) {
        return Err(Stop { refusal, at });
    }
    Ok(at)
}

// What follows the masks: signals, or the lines of the states.
fn scan_after(
    back: bool,
    text: &[u8],
    start: usize,
    heading: RecordingHeading,
    masks: &[u32],
    states: &mut [u64],
) -> Result<usize, Stop>
    requires { AfterRoom heading start text.now states.old }
    ensures { AfterScanned (after_text back heading.controllers heading.count masks.now (drop start text.now)) heading.count text.now result states.new }
{
    if back {
        return scan_turned(text, start, heading, masks, states);
    }
    scan_plain(text, start, heading, masks, states)
}

// Reads a text into `masks` and `states`, which is zero: an archive text where it goes `back`, else a recording text.
#[tactic(auto, using(crate::proofs::ReadingLaws::text_laws))]
pub fn scan_text(
    back: bool,
    text: &[u8],
    masks: &mut [u32],
    states: &mut [u64],
) -> Result<RecordingHeading, Stop>
    requires { TextRoom masks.old states.old }
    ensures { TextScanned (scan_text back text.now) text.now result masks.new states.new }
{
    let line = first_line(text);
    let heading = next_heading(text, line.len).map_err(|refusal| Stop { refusal, at: 0 })?;
    let start = scan_masks(text, line.next, heading.controllers, masks)?;
    let owned = &masks[..heading.controllers];
    scan_after(back, text, start, heading, owned, states)?;
    Ok(heading)
}
