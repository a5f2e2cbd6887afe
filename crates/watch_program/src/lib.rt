// The program `watch`, one line after the other. `event`: a line as a call; `ruling`: the lines of a new rule. Nothing is read or written here. What its
// lines tell: proofs/Told.
#![tactic(auto)]

pub mod event;
pub mod ruling;

ghost use Rattle.std.specs.Prelude.{◌≤◌, length, take, drop};
ghost use Rattle.definitions.specs.Watching.{event_step, step};
ghost use Rattle.session_status.specs.Spaces.{space_in};
ghost use Rattle.session_status.specs.Status.{max_printed};
ghost use Rattle.watch_opening.specs.Openings.{watch_of, text_with, SteppedIs};

use event::follow;
use ruling::{begins_rule, take_rule};
use session_status::space::Space;
use watch_opening::open;
use watch_opening::phase::{OUTPUT_BYTES, Phase, Stepped};

// The first line of an event; no line is the end of the input.
fn take_line(line: &[u8], space: &mut Space, output: &mut [u8]) -> Stepped
    requires { max_printed ≤ length output.old }
    ensures { SteppedIs (event_step line.now (space_in space.old)) line.now (space_in space.old) output.old result (space_in space.new) output.new }
{
    if line.is_empty() {
        return Stepped {
            phase: Phase::Ended,
            printed: 0,
        };
    }
    if begins_rule(line) {
        return take_rule(
            false,
            line,
            &mut space.heading,
            &space.masks,
            &mut space.nodes,
            &space.states,
            output,
        );
    }
    Stepped {
        phase: Phase::Running,
        printed: follow(
            line,
            &mut space.heading,
            &space.masks,
            &space.nodes,
            &mut space.states,
            output,
        ),
    }
}

// The line from `from` on, the last of `text`; no line is the end of the input. What stands before it is the text so far of the opening or of a new rule.
pub fn step(
    phase: Phase,
    text: &[u8],
    from: usize,
    space: &mut Space,
    output: &mut [u8; OUTPUT_BYTES],
) -> Stepped
    ensures { SteppedIs (step (drop from text.now) (watch_of phase (take from text.now) (space_in space.old))) (text_with phase (take from text.now) (drop from text.now)) (space_in space.old) output.old result (space_in space.new) output.new }
{
    let at = from.min(text.len());
    let ended = at == text.len();
    match phase {
        Phase::Opening => open(ended, text, space, output),
        Phase::Running => take_line(&text[at..], space, output),
        Phase::Ruling => take_rule(
            ended,
            text,
            &mut space.heading,
            &space.masks,
            &mut space.nodes,
            &space.states,
            output,
        ),
        Phase::Ended => Stepped {
            phase: Phase::Ended,
            printed: 0,
        },
    }
}
