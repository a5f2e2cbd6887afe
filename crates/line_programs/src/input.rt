// The only line of an input.
ghost use Rattle.std.specs.Prelude.{◌≡◌};
ghost use Rattle.definitions.specs.LinePrograms.{input_refusal};
ghost use Rattle.lines.specs.Reading.{FirstLine};
ghost use Rattle.rules.specs.Refusals.{refusal_in};
ghost use Rattle.line_programs.specs.Printing.{OnlyLineOf};

use lines::{Line, first_line};
use rules::limits::Limits;
use rules::refusal::{Refusal, unless};

// How an input is refused, and its first line.
#[derive(Clone, Copy)]
pub struct RefusedInput<'a> {
    pub refusal: Refusal,
    pub line: &'a [u8],
}

// 14, then 1 for an input that isn't closed, or goes on after its first line.
fn check_only(line: Line, input: &[u8]) -> Result<(), Refusal>
    requires { FirstLine input.now line }
    ensures { refusal_in result ≡ input_refusal input.now }
{
    unless(Refusal::InputLong, input.len() <= Limits::INPUT_BYTES)?;
    let whole = (line.len < input.len()) & (line.next == input.len());
    unless(Refusal::RuleForm, whole)
}

// The first line, if it is all of the input.
pub fn only_line(input: &[u8]) -> Result<&[u8], RefusedInput<'_>>
    ensures { OnlyLineOf input.now result }
{
    let first = first_line(input);
    let line = &input[..first.len];
    match check_only(first, input) {
        Ok(()) => Ok(line),
        Err(refusal) => Err(RefusedInput { refusal, line }),
    }
}
