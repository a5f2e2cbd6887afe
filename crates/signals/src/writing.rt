// The lines of an archive text after its masks, written from the states.
ghost use Rattle.std.specs.Prelude.{◌≡◌, ◌+◌, ◌<◌, ◌≤◌, length};
ghost use Rattle.definitions.specs.Archive.{signals_of, signals_text};
ghost use Rattle.printing.specs.Printing.{Printed};
ghost use Rattle.signals.specs.Writing.{digit_of, digits_of, Writable, line_text, LineWritable, LinesWritable};

use super::place;
use lines::scan;
use printing::{put, put_byte};
use rules::limits::Limits;

// The digit of bit `place` of a state.
fn digit(state: u64, place: usize) -> u8
    requires { place < 64 }
    ensures { result ≡ digit_of place state }
{
    b'0' + ((state >> place) % 2) as u8
}

// Writes bit `place` of each state from `at` on. The place after it.
fn put_signal(states: &[u64], place: usize, at: usize, text: &mut [u8]) -> usize
    requires { Writable states.now place at text.old }
    ensures { Printed (digits_of place states.now) text.old at result text.new }
{
    for (k, state) in states.iter().enumerate() {
        text[at + k] = digit(*state, place);
    }
    at + states.len()
}

// The line of signal j, without its end.
fn put_line(controllers: usize, j: usize, states: &[u64], at: usize, text: &mut [u8]) -> usize
    requires { LineWritable controllers j states.now at text.old }
    ensures { Printed (line_text controllers j states.now) text.old at result text.new }
{
    if j < controllers {
        let after_runs = put(b"runs\t", at, text);
        return put_signal(states, place(controllers, j), after_runs, text);
    }
    let after_bits = put(b"bits\t", at, text);
    put_signal(states, place(controllers, j), after_bits, text)
}

// The lines of all signals.
pub fn put_signals(controllers: usize, states: &[u64], start: usize, text: &mut [u8]) -> usize
    requires { LinesWritable controllers states.now start text.old }
    ensures { Printed (signals_text controllers 0 (signals_of controllers states.now)) text.old start result text.new }
{
    let mut at = start;
    for j in 0..controllers + Limits::ATOMS {
        let end = put_line(controllers, j, states, at, text);
        at = put_byte(scan::NEWLINE, end, text);
    }
    at
}
