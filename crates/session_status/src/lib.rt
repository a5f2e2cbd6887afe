// The line that is printed of a session: how many states are held, and both verdicts. `space`: the lent space of a session.
#![tactic(auto)]

pub mod space;

ghost use Rattle.std.specs.Prelude.{◌≡◌, ◌≤◌, length};
ghost use Rattle.definitions.specs.Sessions.{lent_space};
ghost use Rattle.definitions.specs.Watching.{status_text, verdict_fields};
ghost use Rattle.printing.specs.Printing.{Printed};
ghost use Rattle.session_status.specs.Status.{max_printed};

use judges::verdicts::Verdicts;
use printing::put_line;
use sessions::heading::Heading;
use sessions::query::session_verdicts;

// "yes" or "no" twice, the weak verdict first, and what they come to.
#[tactic(auto, unfolding(definitions::specs::Watching::verdict_fields, definitions::specs::Watching::verdict_word, definitions::specs::Bounded::pick))]
fn end_of(v: Verdicts) -> &'static [u8]
    ensures { result.now ≡ verdict_fields v.weak v.strong }
{
    match (v.weak, v.strong) {
        (true, true) => b"\tyes\tyes\tkept\n",
        (true, false) => b"\tyes\tno\topen\n",
        (false, true) => b"\tno\tyes\topen\n",
        (false, false) => b"\tno\tno\tbroken\n",
    }
}

// Without verdicts, how many states are held, alone.
pub fn put_status(
    heading: &[usize; Heading::NUMBERS],
    masks: &[u32],
    nodes: &[u32],
    states: &[u64],
    text: &mut [u8],
) -> usize
    requires { max_printed ≤ length text.old }
    ensures { Printed (status_text (lent_space heading.now masks.now nodes.now states.now)) text.old 0 result text.new }
{
    let held = heading[Heading::HELD] as u64;
    let judged = session_verdicts(heading, masks, nodes, states);
    match judged.ok().flatten() {
        Some(verdicts) => put_line(b"states", held, end_of(verdicts), 0, text),
        None => put_line(b"states", held, b"\n", 0, text),
    }
}
