// The check of a recording: heading, masks, states, then lines that are missing.
ghost use Rattle.std.specs.Prelude.{◌≡◌, ◌^◌, ◌≤◌, take};
ghost use Rattle.definitions.specs.Limits.{max_controllers};
ghost use Rattle.definitions.specs.Recordings.{state_of, state_refusal, recording_heading_refusal, states_refusal, recording_lines_refusal, recording_refusal};
ghost use Rattle.rules.specs.Refusals.{refusal_in};
ghost use Rattle.recordings.specs.Heading.{recording_in};
ghost use Rattle.recordings.specs.Joining.{joined_refusal};
ghost use Rattle.recordings.specs.Turns.{step_refusal};

use super::entries::counted;
use super::heading::Recording;
use super::held::{Tables, held_changed, output_broken};
use super::masks::check_masks;
use super::state::{ATOM_WORDS, marks_of};
use rules::limits::Limits;
use rules::refusal::{Refusal, unless};

pub fn check_heading(controllers: usize, count: usize) -> Result<(), Refusal>
    ensures { refusal_in result ≡ recording_heading_refusal controllers count }
{
    let few = (1 <= controllers) & (controllers <= Limits::CONTROLLERS);
    let short = (1 <= count) & (count <= Limits::STATES);
    unless(Refusal::RecordingLimits, few & short)
}

// States from this word on have a run mark at C or above.
fn state_limit(controllers: usize) -> u64
    requires { controllers ≤ max_controllers }
    ensures { result ≡ state_of (2 ^ controllers) 0 }
{
    ATOM_WORDS << controllers
}

// What a state is refused for.
fn check_step(limit: u64, state: u64, broken: bool) -> Result<(), Refusal>
    ensures { refusal_in result ≡ step_refusal limit state broken }
{
    unless(Refusal::RecordingLimits, state < limit)?;
    unless(Refusal::OutputRule, !broken)
}

// State k against the prior state.
pub fn check_state(
    controllers: usize,
    masks: &[u32],
    k: usize,
    prior: u64,
    state: u64,
) -> Result<(), Refusal>
    requires { controllers ≤ max_controllers }
    ensures { refusal_in result ≡ state_refusal controllers masks.now k prior state }
{
    let broken = (0 < k) & output_broken(controllers, masks, prior, state);
    check_step(state_limit(controllers), state, broken)
}

// The states that are there, in order. `held` are the atoms that the prior state holds, none before the first.
pub fn check_states(
    controllers: usize,
    count: usize,
    masks: &[u32],
    states: &[u64],
) -> Result<(), Refusal>
    requires { controllers ≤ max_controllers }
    ensures { refusal_in result ≡ states_refusal controllers masks.now 0 0 (take count states.now) }
{
    let tables = Tables::new(controllers, masks);
    let limit = state_limit(controllers);
    let mut prior: u64 = 0;
    let mut held: u32 = 0;
    for state in counted(count, states) {
        check_step(limit, *state, held_changed(held, prior, *state))?;
        held = tables.at(controllers, marks_of(*state));
        prior = *state;
    }
    Ok(())
}

// Fewer masks or states than the heading says.
fn check_lines(recording: Recording<'_>) -> Result<(), Refusal>
    ensures { refusal_in result ≡ recording_lines_refusal (recording_in recording.entry) }
{
    let masks = recording.masks.len() < recording.controllers;
    let states = recording.states.len() < recording.count;
    unless(Refusal::RecordingLines, !(masks | states))
}

// A refused heading ends it: the shifts of the states need C within its limit.
pub fn check_recording(recording: Recording<'_>) -> Result<(), Refusal>
    ensures { refusal_in result ≡ recording_refusal (recording_in recording.entry) }
{
    let Recording {
        controllers,
        count,
        masks,
        states,
    } = recording;
    check_heading(controllers, count)?;
    check_masks(controllers, masks)?;
    check_states(controllers, count, masks, states)?;
    check_lines(recording)
}

// The recording, then the controller that it is asked for.
pub fn check_joined(recording: Recording<'_>, c: usize) -> Result<(), Refusal>
    ensures { refusal_in result ≡ joined_refusal (recording_in recording.entry) c }
{
    check_recording(recording)?;
    unless(Refusal::NoController, c < recording.controllers)
}
