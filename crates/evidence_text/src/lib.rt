// What is printed of an accepted rule and recording: the verdict that is asked for, and a line for each reading behind it. `verdict`, `line`: these lines.
// Nothing is refused here.
#![tactic(auto)]

pub mod line;
pub mod verdict;

ghost use Rattle.std.specs.Prelude.{◌≤◌, length};
ghost use Rattle.definitions.specs.Why.{verdict_text};
ghost use Rattle.printing.specs.Printing.{Printed};
ghost use Rattle.rules.specs.Handed.{rule_in};
ghost use Rattle.recordings.specs.Heading.{recording_in};
ghost use Rattle.evidence_text.specs.Behind.{max_verdict_bytes, behind_of, BehindReady};
ghost use Rattle.evidence_text.specs.Verdict.{chosen};

use evidence::accepted::evidence_accepted;
use judges::local::local_trace;
use judges::verdicts::Verdicts;
use line::put_pairs;
use printing::put;
use recordings::heading::Recording;
use rules::limits::Limits;
use rules::rule::Rule;
use verdict::{VERDICT_BYTES, verdict_line};

// The bytes of the longest line of a reading.
const PAIR_BYTES: usize = 40;

// The bytes of the most that is printed: the verdict, and a line for each of the most pairs that lent space can hold.
pub const MOST_BYTES: usize = VERDICT_BYTES + Limits::PAIRS * PAIR_BYTES;

// The line of the verdict that is asked for.
fn put_verdict(weak: bool, verdicts: Verdicts, text: &mut [u8]) -> usize
    requires { max_verdict_bytes ≤ length text.old }
    ensures { Printed (verdict_text weak (chosen weak verdicts)) text.old 0 result text.new }
{
    put(verdict_line(weak, verdicts), 0, text)
}

// The verdict and what is behind it.
pub fn put_behind(weak: bool, rule: Rule<'_>, recording: Recording<'_>, text: &mut [u8]) -> usize
    requires { BehindReady (rule_in rule) (recording_in recording) text.old }
    ensures { Printed (behind_of weak (rule_in rule.entry) (recording_in recording.entry)) text.old 0 result text.new }
{
    let trace = local_trace(rule.controller, recording);
    let mut pairs = [0u32; Limits::PAIRS];
    let explained = evidence_accepted(rule, trace, weak, &mut pairs);
    let after = put_verdict(weak, explained.verdicts, text);
    put_pairs(
        rule,
        trace,
        recording,
        &pairs[..explained.count],
        after,
        text,
    )
}
