// The readings behind a verdict of what is accepted, with the verdicts: the rule is evaluated once.
ghost use Rattle.rules.specs.Handed.{rule_in};
ghost use Rattle.judges.specs.Local.{RowsReady};
ghost use Rattle.evidence.specs.Accepted.{WantedIs, EvidenceReady, ExplainedIs};

use super::pairs::lay_pairs;
use judges::local::{LocalTrace, local_rows};
use judges::verdicts::{Verdicts, at_tops};
use rules::limits::Limits;
use rules::rule::Rule;
use walk::walk;

// The verdicts of a rule on its local trace, and how many pairs decide the chosen one.
#[derive(Clone, Copy)]
pub struct Explained {
    pub verdicts: Verdicts,
    pub count: usize,
}

// The places to which the walk from an accepted rule comes on a local trace; answers the rule's verdicts there.
#[tactic(auto, using(crate::proofs::AcceptedLaws::wanted_laws))]
fn wanted_places(rule: Rule<'_>, trace: LocalTrace, weak: bool, wanted: &mut [u64]) -> Verdicts
    requires { RowsReady (rule_in rule) trace wanted.old }
    ensures { WantedIs (rule_in rule.entry) trace weak result wanted.new }
{
    let mut rows = [0u64; Limits::RULE_NODES * Limits::PAIR_WORDS];
    local_rows(rule, trace, &mut rows);
    walk(rule.nodes, rule.count, trace.count, &rows, weak, wanted);
    let last = rule.count - 1;
    at_tops(&rows, last, last)
}

// The pairs that decide the weak or the strong verdict of an accepted rule on a local trace, and zeros after them.
pub fn evidence_accepted(
    rule: Rule<'_>,
    trace: LocalTrace,
    weak: bool,
    pairs: &mut [u32],
) -> Explained
    requires { EvidenceReady (rule_in rule) trace pairs.old }
    ensures { ExplainedIs (rule_in rule.entry) trace weak pairs.old result pairs.new }
{
    let mut wanted = [0u64; Limits::RULE_NODES * Limits::PAIR_WORDS];
    let verdicts = wanted_places(rule, trace, weak, &mut wanted);
    let count = lay_pairs(rule, &trace, &wanted, pairs);
    Explained { verdicts, count }
}
