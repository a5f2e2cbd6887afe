// The program: the first line asks for a reading, and both texts after it are read, judged, and printed of.
#![tactic(auto)]

ghost use Rattle.definitions.specs.Program.{rule_text_in, recording_text_in};
ghost use Rattle.definitions.specs.Why.{why_texts, why_output};
ghost use Rattle.printing.specs.Printing.{Printed, OutputIs};
ghost use Rattle.why_program.specs.Output.{WhyRoom, InputRoom};

use evidence_text::{MOST_BYTES, put_behind};
use program_input::asked::asked_by;
use program_input::split;
use report::put_refused;
use report::read::{Tables, read_tables};
use rules::limits::Limits;
use rules::refusal::Refusal;

// The bytes of the longest output: that of an accepted rule and recording. A refusal has fewer.
pub const OUTPUT_BYTES: usize = MOST_BYTES;

// Reads both texts, and prints the refusal or the verdict and what is behind it.
#[tactic(auto, using(crate::proofs::WhyLaws::texts_laws))]
fn why_texts(weak: bool, rule: &[u8], recording: &[u8], text: &mut [u8]) -> usize
    requires { WhyRoom rule.now recording.now text.old }
    ensures { Printed (why_texts weak rule.now recording.now) text.old 0 result text.new }
{
    let mut tables = Tables::new();
    match read_tables(rule, recording, &mut tables, text) {
        Ok(read) => put_behind(weak, read.rule, read.recording, text),
        Err(end) => end,
    }
}

// The input of the program `judge`, split at its first line `-`.
#[tactic(auto, using(crate::proofs::WhyLaws::split_laws))]
fn why_asked(weak: bool, input: &[u8], text: &mut [u8]) -> usize
    requires { InputRoom input.now text.old }
    ensures { Printed (why_texts weak (rule_text_in input.now) (recording_text_in input.now)) text.old 0 result text.new }
{
    let parts = split(input);
    why_texts(weak, parts.rule, parts.recording, text)
}

// From the input to what is printed of it, and how many bytes that is.
#[tactic(auto, using(crate::proofs::WhyLaws::why_laws))]
pub fn why(input: &[u8], output: &mut [u8; OUTPUT_BYTES]) -> usize
    ensures { OutputIs (why_output input.now) output.old result output.new }
{
    if Limits::INPUT_BYTES < input.len() {
        return put_refused(Refusal::InputLong, &input[..0], output);
    }
    match asked_by(input) {
        Ok(asked) => why_asked(asked.weak, asked.texts, output),
        Err(line) => put_refused(Refusal::RuleForm, line, output),
    }
}
