// The program: both texts are read, judged, and printed of.
#![tactic(auto)]

ghost use Rattle.definitions.specs.Program.{texts_output, program_output};
ghost use Rattle.printing.specs.Printing.{Printed, OutputIs};
ghost use Rattle.rules.specs.Handed.{rule_in};
ghost use Rattle.recordings.specs.Heading.{recording_in};
ghost use Rattle.report.specs.ReadTables.{TextsRoom};
ghost use Rattle.report.specs.Judged.{judged_of, JudgedReady};

use program_input::split;
use recordings::heading::Recording;
use report::read::{Tables, read_tables};
use report::tables::judge_tables;
use report::{OUTPUT_BYTES, put_refused, put_report};
use rules::limits::Limits;
use rules::refusal::Refusal;
use rules::rule::Rule;

// Of accepted tables.
#[tactic(auto, using(crate::proofs::OutputLaws::judged_laws))]
fn put_judged(rule: Rule<'_>, recording: Recording<'_>, text: &mut [u8]) -> usize
    requires { JudgedReady (rule_in rule) (recording_in recording) text.old }
    ensures { Printed (judged_of (rule_in rule.entry) (recording_in recording.entry)) text.old 0 result text.new }
{
    put_report(judge_tables(rule, recording), text)
}

// Reads both texts, and prints the refusal or the judgements.
#[tactic(auto, using(crate::proofs::OutputLaws::texts_laws))]
fn judge_texts(rule: &[u8], recording: &[u8], text: &mut [u8]) -> usize
    requires { TextsRoom rule.now recording.now text.old }
    ensures { Printed (texts_output rule.now recording.now) text.old 0 result text.new }
{
    let mut tables = Tables::new();
    match read_tables(rule, recording, &mut tables, text) {
        Ok(read) => put_judged(read.rule, read.recording, text),
        Err(end) => end,
    }
}

// From the input to what is printed of it, and how many bytes that is.
#[tactic(auto, using(crate::proofs::OutputLaws::judge_laws))]
pub fn judge(input: &[u8], output: &mut [u8; OUTPUT_BYTES]) -> usize
    ensures { OutputIs (program_output input.now) output.old result output.new }
{
    if Limits::INPUT_BYTES < input.len() {
        return put_refused(Refusal::InputLong, &input[..0], output);
    }
    let parts = split(input);
    judge_texts(parts.rule, parts.recording, output)
}
