// The readings behind a verdict as an operation: of any rule on any recording, in lent space. `accepted`: of what is accepted already; `found`, `pairs`: the
// pairs of a node of kind atom and a place, from the places that are wanted.
#![tactic(auto)]

pub mod accepted;
pub mod found;
pub mod pairs;

ghost use Rattle.rules.specs.Handed.{rule_in};
ghost use Rattle.recordings.specs.Heading.{recording_in};
ghost use Rattle.evidence.specs.Answers.{EvidenceIs};

use accepted::evidence_accepted;
use judges::local::{check_local, local_trace};
use lent::clear;
use recordings::heading::Recording;
use rules::limits::Limits;
use rules::refusal::Refusal;
use rules::rule::Rule;

// "the readings .. that decide the weak or the strong verdict, as chosen", and how many there are: 13 leaves the lent pairs alone, another refusal zeroes them.
pub fn evidence(
    rule: Rule<'_>,
    recording: Recording<'_>,
    weak: bool,
    pairs: &mut [u32],
) -> Result<usize, Refusal>
    ensures { EvidenceIs (rule_in rule.entry) (recording_in recording.entry) weak pairs.old result pairs.new }
{
    if pairs.len() < Limits::PAIRS {
        return Err(Refusal::LentShort);
    }
    if let Err(refusal) = check_local(rule, recording) {
        clear(pairs, 0, Limits::PAIRS);
        return Err(refusal);
    }
    let trace = local_trace(rule.controller, recording);
    let explained = evidence_accepted(rule, trace, weak, pairs);
    Ok(explained.count)
}
