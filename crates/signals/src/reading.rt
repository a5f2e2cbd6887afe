// The lines of an archive text after its masks, read into the states: each line adds its signal to them.
ghost use Rattle.std.specs.Prelude.{◌≡◌};
ghost use Rattle.definitions.specs.Lines.{same};
ghost use Rattle.definitions.specs.Archive.{signal_word};
ghost use Rattle.rules.specs.Refusals.{refusal_in};
ghost use Rattle.signals.specs.Laying.{digit_read, Room, Laid};
ghost use Rattle.signals.specs.Scanning.{LineRoom, LineLaid, NextLaid, NextRoom, ScanRoom, SignalsScanned};

use super::place;
use lines::{Stop, check_end, first_line, scan};
use rules::limits::Limits;
use rules::refusal::{Refusal, unless};

// The value of a digit 0 or 1.
fn binary(b: u8) -> Option<u64>
    ensures { result ≡ digit_read b }
{
    match b {
        b'0' => Some(0),
        b'1' => Some(1),
        _ => None,
    }
}

// Adds the signal `s` to the states, up to the first byte that is no digit: a digit 1 of state k adds `weight` to it.
fn lay(s: &[u8], weight: u64, states: &mut [u64]) -> Result<(), Refusal>
    requires { Room s.now weight states.old }
    ensures { Laid s.now weight states.old (refusal_in result) states.new }
{
    for (k, b) in s.iter().enumerate() {
        let Some(d) = binary(*b) else {
            return Err(Refusal::RecordingForm);
        };
        let x = states[k];
        states[k] = x + d * weight;
    }
    Ok(())
}

// Whether `word` opens the line of signal j.
fn opens(controllers: usize, j: usize, word: &[u8]) -> bool
    ensures { result ≡ same word.now (signal_word controllers j) }
{
    if j < controllers {
        return scan::same(word, b"runs");
    }
    scan::same(word, b"bits")
}

// Adds the line of signal j to the states.
fn lay_line(
    controllers: usize,
    count: usize,
    j: usize,
    s: &[u8],
    states: &mut [u64],
) -> Result<(), Refusal>
    requires { LineRoom controllers count j states.old }
    ensures { LineLaid controllers count j s.now states.old (refusal_in result) states.new }
{
    let Some((word, field)) = scan::split(s, scan::TAB) else {
        return Err(Refusal::RecordingForm);
    };
    unless(Refusal::RecordingForm, opens(controllers, j, word))?;
    unless(Refusal::RecordingForm, field.len() == count)?;
    lay(field, 1 << place(controllers, j), states)
}

// Adds the next line, of `len` bytes, as that of signal j to the states.
fn lay_next(
    controllers: usize,
    count: usize,
    j: usize,
    t: &[u8],
    len: usize,
    states: &mut [u64],
) -> Result<(), Refusal>
    requires { NextRoom controllers count j len t.now states.old }
    ensures { NextLaid controllers count j t.now states.old (refusal_in result) states.new }
{
    check_end(t, len, Refusal::RecordingLines, Refusal::RecordingForm)?;
    lay_line(controllers, count, j, &t[..len], states)
}

// The lines from `start` to the end of the text, into the states, which are zero, up to the first refusal.
pub fn scan_signals(
    text: &[u8],
    start: usize,
    controllers: usize,
    count: usize,
    states: &mut [u64],
) -> Result<usize, Stop>
    requires { ScanRoom controllers count start text.now states.old }
    ensures { SignalsScanned controllers count start text.now result states.new }
{
    let mut at = start;
    for j in 0..controllers + Limits::ATOMS {
        let t = &text[at..];
        let line = first_line(t);
        if let Err(refusal) = lay_next(controllers, count, j, t, line.len, states) {
            return Err(Stop { refusal, at });
        }
        at += line.next;
    }
    if at < text.len() {
        let refusal = Refusal::RecordingLines;
        return Err(Stop { refusal, at });
    }
    Ok(at)
}
