// A recording text read line by line: masks and states into lent space, up to the first refusal.
ghost use Rattle.std.specs.Prelude.{[], ◌≡◌, drop};
ghost use Rattle.definitions.specs.Gauges.{no_gauges};
ghost use Rattle.definitions.specs.RecordingText.{at_line, scan_masks, scan_states};
ghost use Rattle.at_lines.specs.Lines.{StateTurn};
ghost use Rattle.at_lines.specs.Measured.{at_told};
ghost use Rattle.gauges.specs.Held.{gauges_in, gauges_of};
ghost use Rattle.lines.specs.Reading.{LinesScanned};
ghost use Rattle.lines.specs.Told.{told};
ghost use Rattle.recording_reader.specs.Scanning.{Room, MaskRoom, RestRoom, unread, RecordingScanned};

use super::line::next_heading;
use super::mask_line::next_mask;
use at_lines::measured::next_measured;
use at_lines::next_state;
use gauges::gauge::{Gauge, Gauges};
use gauges::scan::scan_gauges;
use lines::{CutShort, Stop, first_line};
use recordings::heading::RecordingHeading;
use rules::refusal::Refusal;

// The mask lines from `start` on, into `masks`, up to the first refusal.
pub fn scan_masks(
    text: &[u8],
    start: usize,
    controllers: usize,
    masks: &mut [u32],
) -> Result<usize, Stop>
    requires { MaskRoom controllers start text.now masks.old }
    ensures { LinesScanned (scan_masks controllers [] (drop start text.now)) text.now masks.old result masks.new }
{
    let mut at = start;
    let mut seen = 0;
    for c in 0..controllers {
        let t = &text[at..];
        let line = first_line(t);
        let mask = next_mask(seen, t, line.len).map_err(|refusal| Stop { refusal, at })?;
        masks[c] = mask;
        seen |= mask;
        at += line.next;
    }
    Ok(at)
}

// State k against `prior`, the state before it: without gauges its line ends with no values.
fn next_at(
    controllers: usize,
    masks: &[u32],
    gauges: &[Gauge],
    k: usize,
    prior: u64,
    t: &[u8],
    len: usize,
) -> Result<u64, Refusal>
    requires { StateTurn controllers len t.now }
    ensures { told result ≡ at_told (gauges_of gauges.now) (at_line controllers masks.now (gauges_of gauges.now) k prior t.now) }
{
    if gauges.is_empty() {
        return next_state(controllers, masks, k, prior, t, len);
    }
    next_measured(controllers, masks, gauges, k, prior, t, len)
}

// The state lines after the gauge lines, to the end of the text, into `states`, up to the first refusal.
fn scan_states(
    text: &[u8],
    gauges: Gauges,
    heading: RecordingHeading,
    masks: &[u32],
    states: &mut [u64],
) -> Result<usize, Stop>
    requires { RestRoom heading gauges.at text.now states.old }
    ensures { LinesScanned (scan_states heading.controllers masks.now (gauges_in gauges) heading.count 0 0 (drop gauges.at text.now)) text.now states.old result states.new }
{
    let held = gauges.held();
    let mut at = gauges.at;
    let mut prior = 0;
    for k in 0..heading.count {
        let t = &text[at..];
        let line = first_line(t);
        let read = next_at(heading.controllers, masks, held, k, prior, t, line.len);
        let state = read.map_err(|refusal| Stop { refusal, at })?;
        states[k] = state;
        prior = state;
        at += line.next;
    }
    if at < text.len() {
        let refusal = Refusal::RecordingLines;
        return Err(Stop { refusal, at });
    }
    Ok(at)
}

// The state lines of a recording without gauges from `start` to the end of the text, into `states`, up to the first refusal.
pub fn scan_plain(
    text: &[u8],
    start: usize,
    heading: RecordingHeading,
    masks: &[u32],
    states: &mut [u64],
) -> Result<usize, Stop>
    requires { RestRoom heading start text.now states.old }
    ensures { LinesScanned (scan_states heading.controllers masks.now no_gauges heading.count 0 0 (drop start text.now)) text.now states.old result states.new }
{
    scan_states(text, Gauges::none(start), heading, masks, states)
}

// A reading that stops before the states tells no C and no N.
fn unread(stop: Stop) -> CutShort<RecordingHeading>
    ensures { result ≡ unread stop }
{
    let read = RecordingHeading {
        controllers: 0,
        count: 0,
    };
    CutShort { read, stop }
}

// Reads a recording text into `masks` and `states`, up to the first refusal.
pub fn scan_recording(
    text: &[u8],
    masks: &mut [u32],
    states: &mut [u64],
) -> Result<RecordingHeading, CutShort<RecordingHeading>>
    requires { Room masks.old states.old }
    ensures { RecordingScanned text.now masks.old states.old result masks.new states.new }
{
    let line = first_line(text);
    let opened = next_heading(text, line.len);
    let heading = opened.map_err(|refusal| unread(Stop { refusal, at: 0 }))?;
    let owned = scan_masks(text, line.next, heading.controllers, masks);
    let start = owned.map_err(unread)?;
    let gauges = scan_gauges(text, start).map_err(|cut| unread(cut.stop))?;
    let ended = scan_states(text, gauges, heading, masks, states);
    ended.map_err(|stop| CutShort {
        read: heading,
        stop,
    })?;
    Ok(heading)
}
