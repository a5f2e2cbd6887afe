// Demand 3 in code: rewrite the rule, judge the whole recording by that table. The verdicts are those of the rule on its own local trace.
#![tactic(auto)]

ghost use Rattle.theorems.proofs.ScheduleIndependence.{Accepted};
ghost use Rattle.rules.specs.Handed.{rule_in};
ghost use Rattle.recordings.specs.Heading.{recording_in};
ghost use Rattle.rewritten_judge.specs.Rewritten.{RewrittenIs};

use judges::verdicts::Verdicts;
use judges::whole::judge_accepted_table;
use recordings::heading::Recording;
use recordings::masks::mask_at;
use rewriting::rewrite_accepted;
use rules::limits::Limits;
use rules::rule::{Rule, Table};

// The node count of a rewritten rule, and its verdicts.
#[derive(Clone, Copy)]
pub struct Rewritten {
    pub count: u32,
    pub verdicts: Verdicts,
}

// An accepted rule, rewritten plain or short, over an accepted recording. The table and its rows need no lent space.
pub fn judge_rewriting(short: bool, rule: Rule<'_>, recording: Recording<'_>) -> Rewritten
    requires { Accepted (rule_in rule) (recording_in recording) }
    ensures { RewrittenIs short (rule_in rule.entry) (recording_in recording.entry) result }
{
    let mut words = [0u32; Limits::TABLE_NODES];
    let mut rows = [0u64; Limits::ROWS_WORDS];
    let c = rule.controller;
    let mask = mask_at(recording.masks, c);
    let nodes = &rule.nodes[..rule.count];
    let tops = rewrite_accepted(short, nodes, mask, &mut words);
    let table = Table {
        count: tops.count,
        nodes: &words,
        weak_top: tops.weak,
        strong_top: tops.strong,
    };
    let verdicts = judge_accepted_table(table, recording.count, recording.states, c, &mut rows);
    Rewritten {
        count: tops.count as u32,
        verdicts,
    }
}
