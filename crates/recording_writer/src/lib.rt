// The writer of a recording's lines: the heading and `owns` lines, which an archive text has too, and the `at` lines. Nothing is checked here: the caller has
// an accepted recording, and room.
#![tactic(auto)]

ghost use Rattle.std.specs.Prelude.{◌≡◌, ◌+◌, ◌<◌, ◌≤◌, [], length};
ghost use Rattle.definitions.specs.RecordingWriting.{hex_byte, hex_text, mask_text, state_text, masks_text, states_text, opening_text};
ghost use Rattle.printing.specs.Printing.{Printed};
ghost use Rattle.recording_writer.specs.Writing.{heading_line, OpeningRoom};

use at_lines::{WORD_DIGITS, mark_digits};
use lines::scan;
use printing::{put, put_byte, put_field};
use recordings::state;

// A hexadecimal digit as a byte.
#[tactic(auto, unfolding(definitions::specs::RecordingWriting::hex_byte, definitions::specs::Bounded::pick))]
fn hex_byte(digit: u8) -> u8
    requires { digit < 16 }
    ensures { result ≡ hex_byte digit }
{
    if digit < 10 {
        return b'0' + digit;
    }
    (b'a' - 10) + digit
}

// Writes the last `width` hexadecimal digits of `v` from `at` on, highest first. The place after them.
fn put_hexadecimal(v: u32, width: usize, at: usize, text: &mut [u8]) -> usize
    requires { at + length (hex_text width v) ≤ length text.old }
    ensures { Printed (hex_text width v) text.old at result text.new }
{
    if width == 0 {
        return at;
    }
    let next = put_hexadecimal(v / 16, width - 1, at, text);
    text[next] = hex_byte((v % 16) as u8);
    next + 1
}

// The line of a mask, without its end.
fn put_mask(mask: u32, at: usize, text: &mut [u8]) -> usize
    requires { at + length (mask_text mask) ≤ length text.old }
    ensures { Printed (mask_text mask) text.old at result text.new }
{
    let after_word = put(b"owns\t", at, text);
    put_hexadecimal(mask, WORD_DIGITS, after_word, text)
}

// The lines of the masks.
fn put_masks(masks: &[u32], start: usize, text: &mut [u8]) -> usize
    requires { start + length (masks_text masks.now []) ≤ length text.old }
    ensures { Printed (masks_text masks.now []) text.old start result text.new }
{
    let mut at = start;
    for mask in masks {
        let end = put_mask(*mask, at, text);
        at = put_byte(scan::NEWLINE, end, text);
    }
    at
}

// The first line.
fn put_heading(controllers: usize, count: usize, text: &mut [u8]) -> usize
    requires { length (heading_line controllers count) ≤ length text.old }
    ensures { Printed (heading_line controllers count) text.old 0 result text.new }
{
    let after_word = put(b"recording", 0, text);
    let after_controllers = put_field(controllers as u64, after_word, text);
    let after_count = put_field(count as u64, after_controllers, text);
    put_byte(scan::NEWLINE, after_count, text)
}

// The first line and the lines of the masks.
pub fn put_opening(controllers: usize, count: usize, masks: &[u32], text: &mut [u8]) -> usize
    requires { OpeningRoom controllers count masks.now text.old }
    ensures { Printed (opening_text controllers count masks.now []) text.old 0 result text.new }
{
    let after_heading = put_heading(controllers, count, text);
    put_masks(masks, after_heading, text)
}

// The line of a state, without its end.
fn put_state(controllers: usize, state: u64, at: usize, text: &mut [u8]) -> usize
    requires { at + length (state_text controllers state) ≤ length text.old }
    ensures { Printed (state_text controllers state) text.old at result text.new }
{
    let marks = state::marks_of(state) as u32;
    let after_word = put(b"at\t", at, text);
    let after_marks = put_hexadecimal(marks, mark_digits(controllers), after_word, text);
    let after_tab = put_byte(scan::TAB, after_marks, text);
    put_hexadecimal(state::atoms_of(state), WORD_DIGITS, after_tab, text)
}

// The lines of the states.
pub fn put_states(controllers: usize, states: &[u64], start: usize, text: &mut [u8]) -> usize
    requires { start + length (states_text controllers states.now) ≤ length text.old }
    ensures { Printed (states_text controllers states.now) text.old start result text.new }
{
    let mut at = start;
    for state in states {
        let end = put_state(controllers, *state, at, text);
        at = put_byte(scan::NEWLINE, end, text);
    }
    at
}
