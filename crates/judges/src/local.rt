// Judging a rule on its local trace.
ghost use Rattle.std.specs.Prelude.{◌≡◌, ◌≤◌, take};
ghost use Rattle.definitions.specs.Limits.{max_states};
ghost use Rattle.definitions.specs.Operations.{judge_local_number, judge_local_answer};
ghost use Rattle.rules.specs.Handed.{rule_in};
ghost use Rattle.rules.specs.Refusals.{refusal_in};
ghost use Rattle.recordings.specs.Heading.{recording_in};
ghost use Rattle.judges.specs.Local.{TraceReady, TraceIs, LocalReady, RowsReady, LocalRows, verdicts_on};
ghost use Rattle.judges.specs.Verdicts.{meant, answer_of};

use super::verdicts::{Verdicts, at_tops};
use evaluation::traced::Traced;
use evaluation::{UNREAD_CONTROLLER, evaluate};
use projection::places::project_counted;
use recordings::check::check_joined;
use recordings::heading::Recording;
use recordings::masks::mask_at;
use rules::limits::Limits;
use rules::refusal::Refusal;
use rules::rule::Rule;
use rules::table_check::check_rule;

// The local trace of one controller: its mask, how many places there are, and their words; what stands past these does not matter.
// The words stand beside their count since nothing is allocated.
#[derive(Clone, Copy)]
pub struct LocalTrace {
    pub controller: usize,
    pub mask: u32,
    pub count: usize,
    pub words: [u32; Limits::STATES],
}

// The rule, then the recording and its controller.
pub fn check_local(rule: Rule<'_>, recording: Recording<'_>) -> Result<(), Refusal>
    ensures { refusal_in result ≡ judge_local_number (rule_in rule.entry) (recording_in recording.entry) }
{
    check_rule(rule)?;
    check_joined(recording, rule.controller)
}

// The first n places as states without run marks.
fn widened(words: &[u32; Limits::STATES], n: usize) -> [u64; Limits::STATES]
    requires { n ≤ max_states }
    ensures { take n result ≡ take n words.now }
{
    let mut states = [0; Limits::STATES];
    for (i, word) in words[..n].iter().enumerate() {
        states[i] = u64::from(*word);
    }
    states
}

// The local trace of controller `c` of an accepted recording that has it.
pub fn local_trace(c: usize, recording: Recording<'_>) -> LocalTrace
    requires { TraceReady (recording_in recording) c }
    ensures { TraceIs (recording_in recording.entry) c result }
{
    let mut words = [0; Limits::STATES];
    let mask = mask_at(recording.masks, c);
    let count = project_counted(recording.count, mask, c, recording.states, &mut words);
    LocalTrace {
        controller: c,
        mask,
        count,
        words,
    }
}

// The rows of an accepted rule over a local trace.
pub fn local_rows(rule: Rule<'_>, trace: LocalTrace, rows: &mut [u64])
    requires { RowsReady (rule_in rule) trace rows.old }
    ensures { LocalRows (rule_in rule.entry) trace rows.old rows.new }
{
    let states = widened(&trace.words, trace.count);
    let traced = Traced {
        states: &states,
        count: trace.count,
        controller: UNREAD_CONTROLLER,
        own: trace.mask,
    };
    evaluate(rule.nodes, rule.count, traced, rows);
}

// An accepted rule on a local trace: "the last is the rule". Its rows need no lent space.
pub fn judge_accepted_locally(rule: Rule<'_>, trace: LocalTrace) -> Verdicts
    requires { LocalReady (rule_in rule) trace }
    ensures { meant result ≡ verdicts_on (rule_in rule.entry) trace }
{
    let mut rows = [0; Limits::RULE_NODES * Limits::PAIR_WORDS];
    local_rows(rule, trace, &mut rows);
    let last = rule.count - 1;
    at_tops(&rows, last, last)
}

// "judge a rule on its local trace"
pub fn judge_local(rule: Rule<'_>, recording: Recording<'_>) -> Result<Verdicts, Refusal>
    ensures { answer_of result ≡ judge_local_answer (rule_in rule.entry) (recording_in recording.entry) }
{
    check_local(rule, recording)?;
    let trace = local_trace(rule.controller, recording);
    Ok(judge_accepted_locally(rule, trace))
}
