// What the program `judge` prints, line by line: of a refusal, and of an accepted rule and recording. `read`: both texts as tables, or their refusal printed;
// `tables`: accepted ones judged in each way.
#![tactic(auto)]

pub mod read;
pub mod tables;

ghost use Rattle.std.specs.Prelude.{◌≡◌, ◌+◌, ◌≤◌, length, drop};
ghost use Rattle.definitions.specs.Lines.{line_of};
ghost use Rattle.definitions.specs.Program.{refused_text};
ghost use Rattle.printing.specs.Printing.{Printed};
ghost use Rattle.report.specs.Reporting.{verdicts_end, own_line, rewritten_line, report_text, is_refused, LineRoom};
ghost use Rattle.rules.specs.Refusals.{number_of};

use judges::verdicts::Verdicts;
use lines::{Stop, first_line, scan};
use printing::{put, put_byte, put_line};
use rewritten_judge::Rewritten;
use rules::limits::Limits;
use rules::refusal::Refusal;

// The bytes of the longest output: `refused`, a number of two digits, two tabs, byte 10 and a line that is all of the longest input.
pub const OUTPUT_BYTES: usize = Limits::INPUT_BYTES + 12;

// All that is printed of an accepted rule and recording.
#[derive(Clone, Copy)]
pub struct Report {
    pub places: u32,
    pub own: Verdicts,
    pub plain: Rewritten,
    pub short: Rewritten,
}

// "(weak, strong ..)", closed by byte 10.
#[tactic(auto, unfolding(crate::specs::Reporting::verdicts_end))]
fn end_of(v: Verdicts) -> &'static [u8]
    ensures { result.now ≡ verdicts_end v }
{
    match (v.weak, v.strong) {
        (true, true) => b"\tyes\tyes\n",
        (true, false) => b"\tyes\tno\n",
        (false, true) => b"\tno\tyes\n",
        (false, false) => b"\tno\tno\n",
    }
}

// "`own yes no` (weak, strong on the local trace)"
fn put_own(own: Verdicts, at: usize, text: &mut [u8]) -> usize
    requires { at + length (own_line own) ≤ length text.old }
    ensures { Printed (own_line own) text.old at result text.new }
{
    let after_word = put(b"own", at, text);
    put(end_of(own), after_word, text)
}

// "`plain 55 yes no` (nodes, weak, strong)", and so for `short`.
fn put_rewritten(word: &[u8], rewritten: Rewritten, at: usize, text: &mut [u8]) -> usize
    requires { at + length (rewritten_line word.now rewritten) ≤ length text.old }
    ensures { Printed (rewritten_line word.now rewritten) text.old at result text.new }
{
    put_line(
        word,
        rewritten.count as u64,
        end_of(rewritten.verdicts),
        at,
        text,
    )
}

// The four lines of an accepted rule and recording.
pub fn put_report(report: Report, text: &mut [u8]) -> usize
    requires { length (report_text report) ≤ length text.old }
    ensures { Printed (report_text report) text.old 0 result text.new }
{
    let after_local = put_line(b"local", report.places as u64, b"\n", 0, text);
    let after_own = put_own(report.own, after_local, text);
    let after_plain = put_rewritten(b"plain", report.plain, after_own, text);
    put_rewritten(b"short", report.short, after_plain, text)
}

// "Refused, it prints only `refused`, number, line, tab-parted"
#[tactic(auto, using(crate::proofs::ReportLaws::refused_laws))]
pub fn put_refused(refusal: Refusal, line: &[u8], text: &mut [u8]) -> usize
    requires { length (refused_text (number_of refusal) line.now) ≤ length text.old }
    ensures { Printed (refused_text (number_of refusal) line.now) text.old 0 result text.new }
{
    let after_number = put_line(b"refused", refusal.number() as u64, b"\t", 0, text);
    let after_line = put(line, after_number, text);
    put_byte(scan::NEWLINE, after_line, text)
}

// The refusal that a reading of `lines` stopped for, and the line that it stopped at.
#[tactic(auto, using(crate::proofs::ReportLaws::stopped_laws))]
pub fn put_stopped(stop: Stop, lines: &[u8], text: &mut [u8]) -> usize
    requires { LineRoom lines.now stop.at text.old }
    ensures { Printed (refused_text (number_of stop.refusal) (line_of (drop stop.at lines.now))) text.old 0 result text.new }
{
    let rest = &lines[stop.at..];
    let line = first_line(rest);
    put_refused(stop.refusal, &rest[..line.len], text)
}

// Whether a refusal is what a program printed that judges.
pub fn is_refused(printed: &[u8]) -> bool
    ensures { result ≡ is_refused printed.now }
{
    printed.starts_with(b"refused")
}
