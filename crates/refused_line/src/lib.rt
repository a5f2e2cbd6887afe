// Where the refused line of the program's input stands: in which text, and its number there (`number`). Nothing is judged or printed here.
#![tactic(auto)]

pub mod number;

ghost use Rattle.std.specs.Prelude.{◌≡◌};
ghost use Rattle.refused_line.specs.Finding.{texts_line, input_line};
ghost use Rattle.program_input.specs.Splitting.{Texts};

use joint_reading::join;
use joint_reading::scan::Text;
use number::line_number;
use program_input::split;
use rules::limits::Limits;

// The text that has the refused line, and the line's number in it.
#[derive(Clone, Copy)]
pub struct Line {
    pub text: Text,
    pub number: u32,
}

// The refused line of two texts, unless they are accepted.
fn in_texts(rule: &[u8], recording: &[u8]) -> Option<Line>
    requires { Texts rule.now recording.now }
    ensures { result ≡ texts_line rule.now recording.now }
{
    let mut nodes = [0u32; Limits::RULE_NODES];
    let mut masks = [0u32; Limits::CONTROLLERS];
    let mut states = [0u64; Limits::STATES];
    let found = join(rule, recording, &mut nodes, &mut masks, &mut states);
    if found.read.is_ok() {
        return None;
    }
    let line = match found.text {
        Text::Rule => Line {
            text: Text::Rule,
            number: line_number(rule, found.from),
        },
        Text::Recording => Line {
            text: Text::Recording,
            number: line_number(recording, found.from),
        },
    };
    Some(line)
}

// The refused line of the program's input, unless that is accepted or too long.
pub fn refused_line(input: &[u8]) -> Option<Line>
    ensures { result ≡ input_line input.now }
{
    if Limits::INPUT_BYTES < input.len() {
        return None;
    }
    let parts = split(input);
    in_texts(parts.rule, parts.recording)
}
