// The `at` lines of a recording text: the next line, refused with a number or read as a state. Here without gauges; `measured`: a line that ends with values.
// The line has `len` bytes; nothing is kept of it but its state.
#![tactic(auto)]

pub mod measured;

ghost use Rattle.std.specs.Prelude.{◌≡◌};
ghost use Rattle.definitions.specs.RecordingText.{mark_digits};
ghost use Rattle.lines.specs.Told.{told};
ghost use Rattle.at_lines.specs.Lines.{state_told, state_line, StateTurn};

use fields::form;
use lines::check_end;
use recordings::{check, state};
use rules::choice::pick;
use rules::limits::Limits;
use rules::refusal::Refusal;

// The digits of a mask, and of a word of atoms.
pub const WORD_DIGITS: usize = 8;

// The digits of run marks.
#[tactic(auto, using(crate::proofs::StateLaws::digits_is))]
pub fn mark_digits(controllers: usize) -> usize
    ensures { result ≡ mark_digits controllers }
{
    pick(Limits::TWO_DIGIT_CONTROLLERS < controllers, 3, 2)
}

// State k against `prior`, the state before it, in a recording without gauges.
#[tactic(auto, using(crate::proofs::StateLaws::state_laws))]
pub fn next_state(
    controllers: usize,
    masks: &[u32],
    k: usize,
    prior: u64,
    t: &[u8],
    len: usize,
) -> Result<u64, Refusal>
    requires { StateTurn controllers len t.now }
    ensures { told result ≡ state_told (state_line controllers masks.now k prior t.now) }
{
    check_end(t, len, Refusal::RecordingLines, Refusal::RecordingForm)?;
    let digits = mark_digits(controllers);
    let fields = form::worded_hexadecimals(&t[..len], b"at", digits, WORD_DIGITS);
    let (marks, word) = fields.ok_or(Refusal::RecordingForm)?;
    let state = state::state_of(marks, word);
    check::check_state(controllers, masks, k, prior, state)?;
    Ok(state)
}
