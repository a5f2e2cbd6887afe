// A line of the input as an event: the call that it is, taken where it isn't refused.
ghost use Rattle.std.specs.Prelude.{◌≡◌, ℕ, ◌≤◌, List, length, drop};
ghost use Rattle.definitions.specs.Lines.{line_length};
ghost use Rattle.definitions.specs.Program.{refused_text};
ghost use Rattle.definitions.specs.Sessions.{lent_space};
ghost use Rattle.definitions.specs.Watching.{call_of, event_text};
ghost use Rattle.printing.specs.Printing.{Printed};
ghost use Rattle.rules.specs.Refusals.{number_of, refusal_in};
ghost use Rattle.session_status.specs.Status.{max_printed};
ghost use Rattle.watch_program.specs.Events.{meant, Taken, RefusedRoom, EventIs};

use at_lines::{WORD_DIGITS, mark_digits};
use fields::form;
use lines::{Stop, first_line, scan};
use recordings::state::state_of;
use report::put_refused;
use rules::limits::Limits;
use rules::refusal::Refusal;
use session_status::put_status;
use sessions::arrival::arrive;
use sessions::heading::Heading;
use sessions::withdrawal::withdraw;

#[derive(Clone, Copy)]
pub enum Event {
    Arrival(u64),
    Withdrawal,
}

// The line, of `len` bytes without its ending, in a session of so many controllers.
#[tactic(auto, using(crate::proofs::EventLaws::event_laws))]
fn event_of(controllers: usize, line: &[u8], len: usize) -> Option<Event>
    requires { len ≡ line_length line.now }
    ensures { meant result ≡ call_of controllers line.now }
{
    if len == line.len() {
        return None;
    }
    let line = &line[..len];
    if scan::same(line, b"withdraw") {
        return Some(Event::Withdrawal);
    }
    let digits = mark_digits(controllers);
    let (marks, word) = form::worded_hexadecimals(line, b"at", digits, WORD_DIGITS)?;
    Some(Event::Arrival(state_of(marks, word)))
}

// The call's refusal, or 5 where it is none, whatever the nodes are.
fn take_event(
    event: Option<Event>,
    heading: &mut [usize; Heading::NUMBERS],
    masks: &[u32],
    states: &mut [u64],
) -> Result<(), Refusal>
    ensures { (nodes : List ℕ) → Taken event (lent_space heading.old masks.now nodes states.old) (refusal_in result) (lent_space heading.new masks.now nodes states.new) }
{
    match event {
        Some(Event::Arrival(state)) => arrive(state, heading, masks, states),
        Some(Event::Withdrawal) => withdraw(heading, states),
        None => Err(Refusal::RecordingForm),
    }
}

// Prints the line that is refused: at most its first 1,024 bytes, without its ending.
pub fn refuse_line(stop: Stop, text: &[u8], output: &mut [u8]) -> usize
    requires { RefusedRoom stop.at text.now output.old }
    ensures { Printed (refused_text (number_of stop.refusal) (event_text (drop stop.at text.now))) output.old 0 result output.new }
{
    let line = &text[stop.at..];
    let first = first_line(line);
    let shown = first.len.min(Limits::LINE_BYTES);
    put_refused(stop.refusal, &line[..shown], output)
}

// Takes the event of a line, and prints the session's line, or the refused line itself.
pub fn follow(
    line: &[u8],
    heading: &mut [usize; Heading::NUMBERS],
    masks: &[u32],
    nodes: &[u32],
    states: &mut [u64],
    text: &mut [u8],
) -> usize
    requires { max_printed ≤ length text.old }
    ensures { EventIs line.now (lent_space heading.old masks.now nodes.now states.old) text.old result (lent_space heading.new masks.now nodes.now states.new) text.new }
{
    let first = first_line(line);
    let event = event_of(heading[Heading::CONTROLLERS], line, first.len);
    match take_event(event, heading, masks, states) {
        Ok(()) => put_status(heading, masks, nodes, states, text),
        Err(refusal) => refuse_line(Stop { refusal, at: 0 }, line, text),
    }
}
