// Lines of a text: the first line with either ending, what is after it, and how the next line is refused for its end. `scan`: bytes and the rest after one.
// What a line says is not asked here.
#![tactic(auto)]

pub mod scan;

ghost use Rattle.std.specs.Prelude.{◌≡◌};
ghost use Rattle.definitions.specs.Lines.{line_length};
ghost use Rattle.lines.specs.Reading.{Ending, FirstLine, end_refusal};
ghost use Rattle.rules.specs.Refusals.{number_of, refusal_in};

use rules::refusal::{Refusal, unless};

// The first line of a text: how many bytes it has without its ending, and where the text after its ending begins.
#[derive(Clone, Copy)]
pub struct Line {
    pub len: usize,
    pub next: usize,
}

// Why a reading of lines stopped, and the place of the line that it stopped at.
#[derive(Clone, Copy)]
pub struct Stop {
    pub refusal: Refusal,
    pub at: usize,
}

// Where a reading of lines stopped, and what was read before.
#[derive(Clone, Copy)]
pub struct CutShort<T> {
    pub read: T,
    pub stop: Stop,
}

// How many bytes the first line has, closed by the newline at `end`: a carriage return right before that is of its ending.
#[tactic(auto, using(crate::proofs::NextLaws::ending_laws))]
fn before_ending(t: &[u8], end: usize) -> usize
    requires { Ending t.now end }
    ensures { result ≡ line_length t.now }
{
    if end == 0 {
        return end;
    }
    if t[end - 1] == scan::CARRIAGE_RETURN {
        return end - 1;
    }
    end
}

// The first line, which ends in a newline or in a carriage return and a newline; unclosed, it is all of the text.
pub fn first_line(t: &[u8]) -> Line
    ensures { FirstLine t.now result }
{
    let end = scan::until_byte(t, scan::NEWLINE);
    if end < t.len() {
        return Line {
            len: before_ending(t, end),
            next: end + 1,
        };
    }
    Line {
        len: end,
        next: end,
    }
}

// How the next line, of `len` bytes, is refused for its end: it is missing, or nothing closes it.
#[tactic(auto, using(crate::proofs::NextLaws::end_laws))]
pub fn check_end(t: &[u8], len: usize, missing: Refusal, unclosed: Refusal) -> Result<(), Refusal>
    requires { len ≡ line_length t.now }
    ensures { refusal_in result ≡ end_refusal (number_of missing) (number_of unclosed) t.now }
{
    if t.is_empty() {
        return Err(missing);
    }
    unless(unclosed, len < t.len())
}
