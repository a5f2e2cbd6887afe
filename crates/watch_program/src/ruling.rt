// The text of a new rule, so far: it lacks only lines, a line of it is refused, or the session takes it.
ghost use Rattle.std.specs.Prelude.{◌≡◌, ◌≤◌, length};
ghost use Rattle.definitions.specs.Sessions.{lent_space, Replace};
ghost use Rattle.definitions.specs.Watching.{begins_rule, calls, rule_so_far, rule_step};
ghost use Rattle.rules.specs.Handed.{rule_in};
ghost use Rattle.session_status.specs.Status.{max_printed};
ghost use Rattle.watch_opening.specs.Openings.{SteppedIs};
ghost use Rattle.watch_opening.specs.declared.phase.Phase.TheVariants.{Running};

use super::event::refuse_line;
use lines::{Stop, first_line, scan};
use report::put_refused;
use rule_reader::scan_rule;
use rules::limits::Limits;
use rules::refusal::Refusal;
use rules::rule::Rule;
use session_status::put_status;
use sessions::heading::Heading;
use sessions::replacement::replace_rule;
use watch_opening::lacks_lines;
use watch_opening::phase::{Phase, Stepped};

// Whether the first field of a line is the word `rule`.
pub fn begins_rule(text: &[u8]) -> bool
    ensures { result ≡ begins_rule text.now }
{
    let first = first_line(text);
    let line = &text[..first.len];
    let end = scan::until_byte(line, scan::TAB);
    scan::same(&line[..end], b"rule")
}

// The session goes on, with so much printed.
fn running(printed: usize) -> Stepped
    ensures { result ≡ record { phase = Running; printed = printed } }
{
    Stepped {
        phase: Phase::Running,
        printed,
    }
}

// The session takes the rule that was read; the line of its refusal is the text's first.
fn replace_read(
    given: Rule<'_>,
    text: &[u8],
    heading: &mut [usize; Heading::NUMBERS],
    masks: &[u32],
    nodes: &mut [u32],
    states: &[u64],
    output: &mut [u8],
) -> Stepped
    requires { max_printed ≤ length output.old }
    ensures { SteppedIs (calls text.now (lent_space heading.old masks.now nodes.old states.now) (Replace (rule_in given.entry))) text.now (lent_space heading.old masks.now nodes.old states.now) output.old result (lent_space heading.new masks.now nodes.new states.now) output.new }
{
    match replace_rule(given, heading, nodes) {
        Ok(()) => running(put_status(heading, masks, nodes, states, output)),
        Err(refusal) => running(refuse_line(Stop { refusal, at: 0 }, text, output)),
    }
}

// The whole text so far. A line that can't be part of it ends it, and is not read as an event.
fn take_text(
    ended: bool,
    text: &[u8],
    heading: &mut [usize; Heading::NUMBERS],
    masks: &[u32],
    nodes: &mut [u32],
    states: &[u64],
    output: &mut [u8],
) -> Stepped
    requires { max_printed ≤ length output.old }
    ensures { SteppedIs (rule_so_far ended text.now (lent_space heading.old masks.now nodes.old states.now)) text.now (lent_space heading.old masks.now nodes.old states.now) output.old result (lent_space heading.new masks.now nodes.new states.now) output.new }
{
    let mut words = [0u32; Limits::RULE_NODES];
    match scan_rule(text, &mut words) {
        Ok(read) => {
            let given = Rule {
                controller: read.controller,
                count: read.count,
                nodes: &words[..read.count],
            };
            replace_read(given, text, heading, masks, nodes, states, output)
        }
        Err(cut) => {
            if lacks_lines(ended, cut.stop.refusal, Refusal::RuleLines) {
                return Stepped {
                    phase: Phase::Ruling,
                    printed: 0,
                };
            }
            running(refuse_line(cut.stop, text, output))
        }
    }
}

// The whole text so far, if it isn't too long.
pub fn take_rule(
    ended: bool,
    text: &[u8],
    heading: &mut [usize; Heading::NUMBERS],
    masks: &[u32],
    nodes: &mut [u32],
    states: &[u64],
    output: &mut [u8],
) -> Stepped
    requires { max_printed ≤ length output.old }
    ensures { SteppedIs (rule_step ended text.now (lent_space heading.old masks.now nodes.old states.now)) text.now (lent_space heading.old masks.now nodes.old states.now) output.old result (lent_space heading.new masks.now nodes.new states.now) output.new }
{
    if Limits::INPUT_BYTES < text.len() {
        return running(put_refused(Refusal::InputLong, &text[..0], output));
    }
    take_text(ended, text, heading, masks, nodes, states, output)
}
