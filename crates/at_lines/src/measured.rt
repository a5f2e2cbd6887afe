// An `at` line that ends with values: the next line, refused with a number or read as a state with its finished word.
ghost use Rattle.std.specs.Prelude.{◌≡◌, ◌≤◌, length};
ghost use Rattle.definitions.specs.Limits.{max_controllers};
ghost use Rattle.definitions.specs.Recordings.{state_of};
ghost use Rattle.definitions.specs.RecordingText.{word_and_values, at_form, at_line};
ghost use Rattle.lines.specs.Told.{told};
ghost use Rattle.gauges.specs.Held.{atoms_of, gauges_of};
ghost use Rattle.at_lines.specs.Lines.{StateTurn};
ghost use Rattle.at_lines.specs.Measured.{tested_of, measured_told, at_told};

use super::{WORD_DIGITS, mark_digits};
use fields::{form, number};
use gauges::gauge::Gauge;
use gauges::{line, values};
use lines::{check_end, scan};
use recordings::{check, state};
use rules::refusal::{Refusal, unless};

// A line of its form with values in their limits: its marks, its word, and the finished word.
#[tactic(auto, using(crate::proofs::MeasuredLaws::tested_laws))]
fn tested(
    controllers: usize,
    marks: u32,
    word: u32,
    finished: u32,
    gauges: &[Gauge],
) -> Result<u64, Refusal>
    requires { controllers ≤ max_controllers }
    ensures { told result ≡ tested_of controllers (atoms_of gauges.now) (state_of marks word) finished }
{
    unless(Refusal::RecordingLimits, marks >> controllers == 0)?;
    unless(Refusal::GaugeBitSet, !line::any_set(gauges, word))?;
    Ok(state::state_of(marks, finished))
}

// Word and values.
#[tactic(auto, using(crate::proofs::MeasuredLaws::word_laws))]
fn word_and_values(
    controllers: usize,
    marks: u32,
    gauges: &[Gauge],
    s: &[u8],
) -> Result<u64, Refusal>
    requires { controllers ≤ max_controllers }
    ensures { told result ≡ measured_told controllers (gauges_of gauges.now) (word_and_values (length gauges.now) marks s.now) }
{
    let i = scan::until_byte(s, scan::TAB);
    let word = number::hexadecimal(&s[..i], WORD_DIGITS).ok_or(Refusal::RecordingForm)?;
    let finished = values::values(gauges, word, s)?;
    tested(controllers, marks, word, finished, gauges)
}

// An `at` line: run marks, word and values.
#[tactic(auto, using(crate::proofs::MeasuredLaws::at_line_laws))]
fn at_line(controllers: usize, gauges: &[Gauge], s: &[u8]) -> Result<u64, Refusal>
    requires { controllers ≤ max_controllers }
    ensures { told result ≡ measured_told controllers (gauges_of gauges.now) (at_form controllers (length gauges.now) s.now) }
{
    let fields = form::after_word(s, b"at").ok_or(Refusal::RecordingForm)?;
    let (first, rest) = scan::split(fields, scan::TAB).ok_or(Refusal::RecordingForm)?;
    let digits = mark_digits(controllers);
    let marks = number::hexadecimal(first, digits).ok_or(Refusal::RecordingForm)?;
    word_and_values(controllers, marks, gauges, rest)
}

// State k against `prior`, the state before it, by the gauges of the recording.
#[tactic(auto, using(crate::proofs::MeasuredLaws::measured_laws))]
pub fn next_measured(
    controllers: usize,
    masks: &[u32],
    gauges: &[Gauge],
    k: usize,
    prior: u64,
    t: &[u8],
    len: usize,
) -> Result<u64, Refusal>
    requires { StateTurn controllers len t.now }
    ensures { told result ≡ at_told (gauges_of gauges.now) (at_line controllers masks.now (gauges_of gauges.now) k prior t.now) }
{
    check_end(t, len, Refusal::RecordingLines, Refusal::RecordingForm)?;
    let state = at_line(controllers, gauges, &t[..len])?;
    check::check_state(controllers, masks, k, prior, state)?;
    Ok(state)
}
