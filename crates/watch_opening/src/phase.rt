// The program between two lines.
use rules::limits::Limits;

// The opening's text comes; a session is held; the text of its new rule comes; nothing more is read.
#[derive(Clone, Copy, PartialEq, Eq)]
pub enum Phase {
    Opening,
    Running,
    Ruling,
    Ended,
}

// What it is after a line, and how many bytes are printed of that line.
#[derive(Clone, Copy)]
pub struct Stepped {
    pub phase: Phase,
    pub printed: usize,
}

// The bytes of the longest output: `refused`, a number of three digits, two tabs, byte 10 and a line that is all of the longest opening.
pub const OUTPUT_BYTES: usize = Limits::INPUT_BYTES + 13;
