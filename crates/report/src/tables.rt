// The values that are printed of an accepted rule and recording: judged on the local trace, and rewritten, plain and short, over the whole recording.
ghost use Rattle.theorems.proofs.ScheduleIndependence.{Accepted};
ghost use Rattle.rules.specs.Handed.{rule_in};
ghost use Rattle.recordings.specs.Heading.{recording_in};
ghost use Rattle.report.specs.Judged.{ReportIs};

use super::Report;
use judges::local::{judge_accepted_locally, local_trace};
use recordings::heading::Recording;
use rewritten_judge::judge_rewriting;
use rules::rule::Rule;

// All that is printed, before any of it is.
pub fn judge_tables(rule: Rule<'_>, recording: Recording<'_>) -> Report
    requires { Accepted (rule_in rule) (recording_in recording) }
    ensures { ReportIs (rule_in rule.entry) (recording_in recording.entry) result }
{
    let trace = local_trace(rule.controller, recording);
    Report {
        places: trace.count as u32,
        own: judge_accepted_locally(rule, trace),
        plain: judge_rewriting(false, rule, recording),
        short: judge_rewriting(true, rule, recording),
    }
}
