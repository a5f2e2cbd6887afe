// The text that a session opens on, so far: it lacks only lines, a line of it is refused, or the session is opened. `phase`: the program `watch` between two
// lines.
#![tactic(auto)]

pub mod phase;

ghost use Rattle.std.specs.Prelude.{◌≡◌, ◌≤◌, not, ◌&&◌, eqb, length, drop};
ghost use Rattle.definitions.specs.Limits.{max_controllers};
ghost use Rattle.definitions.specs.Lines.{line_length, line_of};
ghost use Rattle.definitions.specs.Sessions.{Open};
ghost use Rattle.definitions.specs.Watching.{session_line, Refuses, opened_by, opened_texts};
ghost use Rattle.lines.specs.Told.{told, next_told};
ghost use Rattle.report.specs.Reporting.{LineRoom};
ghost use Rattle.rules.specs.Handed.{rule_in};
ghost use Rattle.rules.specs.Refusals.{number_of};
ghost use Rattle.session_status.specs.Spaces.{space_in};
ghost use Rattle.watch_opening.specs.Openings.{SessionIs, RefusedIs, OpenRoom, OpenStep, TextsRoom, OpeningIs};

use fields::form;
use lines::{Stop, check_end, first_line};
use phase::{OUTPUT_BYTES, Phase, Stepped};
use program_input::split;
use recording_reader::scan::scan_masks;
use report::{put_refused, put_stopped};
use rule_reader::scan_rule;
use rules::limits::Limits;
use rules::refusal::Refusal;
use rules::rule::Rule;
use session_status::put_status;
use session_status::space::Space;
use sessions::arrival::check_controllers;
use sessions::opening::open_session;

// The next line, of `len` bytes, as a `session` line: C.
fn next_session(t: &[u8], len: usize) -> Result<usize, Refusal>
    requires { len ≡ line_length t.now }
    ensures { told result ≡ next_told (λ C. C) (session_line t.now) }
{
    check_end(t, len, Refusal::RecordingLines, Refusal::RecordingForm)?;
    let number = form::worded_decimal(&t[..len], b"session");
    let controllers = number.ok_or(Refusal::RecordingForm)? as usize;
    check_controllers(controllers)?;
    Ok(controllers)
}

// Only lines are missing, and more may come.
pub fn lacks_lines(ended: bool, refusal: Refusal, missing: Refusal) -> bool
    ensures { result ≡ (not ended && eqb (number_of refusal) (number_of missing)) }
{
    !ended & (refusal.number() == missing.number())
}

// The `session` line, then as many `owns` lines as it says, into `owned`: C.
fn scan_session(text: &[u8], owned: &mut [u32]) -> Result<usize, Stop>
    requires { max_controllers ≤ length owned.old }
    ensures { SessionIs text.now result owned.new }
{
    let line = first_line(text);
    let read = next_session(text, line.len);
    let controllers = read.map_err(|refusal| Stop { refusal, at: 0 })?;
    scan_masks(text, line.next, controllers, owned)?;
    Ok(controllers)
}

// Prints the line that is refused, without its ending; nothing more is read.
fn refuse(stop: Stop, text: &[u8], output: &mut [u8]) -> Stepped
    requires { LineRoom text.now stop.at output.old }
    ensures { RefusedIs (Refuses (number_of stop.refusal) (line_of (drop stop.at text.now))) output.old result output.new }
{
    Stepped {
        phase: Phase::Ended,
        printed: put_stopped(stop, text, output),
    }
}

// Opens the session; the line of its refusal is the rule's first.
fn open_read(
    controllers: usize,
    owned: &[u32],
    rule: Rule<'_>,
    text: &[u8],
    space: &mut Space,
    output: &mut [u8],
) -> Stepped
    requires { OpenRoom text.now output.old }
    ensures { OpenStep (opened_by text.now (Open controllers owned.now (rule_in rule.entry))) (space_in space.old) output.old result (space_in space.new) output.new }
{
    let opened = open_session(
        controllers,
        owned,
        rule,
        &mut space.heading,
        &mut space.masks,
        &mut space.nodes,
        &mut space.states,
    );
    match opened {
        Ok(()) => Stepped {
            phase: Phase::Running,
            printed: put_status(
                &space.heading,
                &space.masks,
                &space.nodes,
                &space.states,
                output,
            ),
        },
        Err(refusal) => refuse(Stop { refusal, at: 0 }, text, output),
    }
}

// The rule text, then the lines after the line `-`.
fn open_texts(
    ended: bool,
    text: &[u8],
    session: &[u8],
    space: &mut Space,
    output: &mut [u8],
) -> Stepped
    requires { TextsRoom text.now session.now output.old }
    ensures { OpenStep (opened_texts ended text.now session.now) (space_in space.old) output.old result (space_in space.new) output.new }
{
    let mut nodes = [0u32; Limits::RULE_NODES];
    let heading = match scan_rule(text, &mut nodes) {
        Ok(heading) => heading,
        Err(cut) => return refuse(cut.stop, text, output),
    };
    let mut owned = [0u32; Limits::CONTROLLERS];
    match scan_session(session, &mut owned) {
        Ok(controllers) => {
            let rule = Rule {
                controller: heading.controller,
                count: heading.count,
                nodes: &nodes[..heading.count],
            };
            open_read(
                controllers,
                &owned[..controllers],
                rule,
                text,
                space,
                output,
            )
        }
        Err(stop) => {
            if lacks_lines(ended, stop.refusal, Refusal::RecordingLines) {
                return Stepped {
                    phase: Phase::Opening,
                    printed: 0,
                };
            }
            refuse(stop, session, output)
        }
    }
}

// The whole text so far. Without a line `-` it is read at the end of the input only.
pub fn open(ended: bool, text: &[u8], space: &mut Space, output: &mut [u8; OUTPUT_BYTES]) -> Stepped
    ensures { OpeningIs ended text.now (space_in space.old) output.old result (space_in space.new) output.new }
{
    if Limits::INPUT_BYTES < text.len() {
        return Stepped {
            phase: Phase::Ended,
            printed: put_refused(Refusal::InputLong, &text[..0], output),
        };
    }
    let parts = split(text);
    if !ended & (parts.rule.len() == text.len()) {
        return Stepped {
            phase: Phase::Opening,
            printed: 0,
        };
    }
    open_texts(ended, parts.rule, parts.recording, space, output)
}
