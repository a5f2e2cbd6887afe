// The input of a program: split at its first line `-`. `asked`: what the first line of the input of `why` asks for. No text is read here.
#![tactic(auto)]

pub mod asked;

ghost use Rattle.std.specs.Prelude.{◌≡◌, length};
ghost use Rattle.definitions.specs.Lines.{line_length, line_of, same};
ghost use Rattle.definitions.specs.Program.{split_line, rule_length};
ghost use Rattle.program_input.specs.Splitting.{SplitIs};

use lines::{first_line, scan};

// The two texts of an input.
#[derive(Clone, Copy)]
pub struct Parts<'a> {
    pub rule: &'a [u8],
    pub recording: &'a [u8],
}

// Whether the first line of `t`, of `len` bytes, is `-`.
fn is_split(t: &[u8], len: usize) -> bool
    requires { len ≡ line_length t.now }
    ensures { result ≡ same (line_of t.now) split_line }
{
    scan::same(&t[..len], b"-")
}

// How many bytes stand before the first closed line `-`: all of them where there is none.
fn rule_length(input: &[u8]) -> usize
    ensures { result ≡ rule_length (length input.now) input.now }
{
    let mut at = 0;
    while at < input.len() {
        let t = &input[at..];
        let line = first_line(t);
        if line.len == t.len() {
            return input.len();
        }
        if is_split(t, line.len) {
            return at;
        }
        at = at + line.next;
    }
    at
}

// Splits the input; without a line `-` the recording text is its empty end.
pub fn split(input: &[u8]) -> Parts<'_>
    ensures { SplitIs input.now result }
{
    let end = rule_length(input);
    let line = first_line(&input[end..]);
    Parts {
        rule: &input[..end],
        recording: &input[end + line.next..],
    }
}
