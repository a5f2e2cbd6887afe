// The lines of pairs.
ghost use Rattle.std.specs.Prelude.{◌≡◌, ◌+◌, ◌≤◌, length};
ghost use Rattle.printing.specs.Printing.{Printed};
ghost use Rattle.rules.specs.Handed.{rule_in};
ghost use Rattle.recordings.specs.Heading.{recording_in};
ghost use Rattle.evidence_text.specs.Pairs.{pair_of, line_text, place_text, reading_text, pair_in, pairs_in, PairReady, PairsReady};

use judges::local::LocalTrace;
use printing::put_line;
use projection::place_state::state_of_place;
use recordings::heading::Recording;
use rules::limits::Limits;
use rules::node::Node;
use rules::rule::Rule;

// What is said of a pair: the state of the recording, the controller's step, the atom, its bit there, the rule's node.
#[derive(Clone, Copy)]
struct Line {
    state: u32,
    step: u32,
    atom: u32,
    value: u32,
    node: u32,
}

// Of the pair that is this number.
fn line_of(rule: Rule<'_>, trace: LocalTrace, recording: Recording<'_>, pair: u32) -> Line
    requires { PairReady (rule_in rule) trace (recording_in recording) pair }
    ensures { line_text result ≡ pair_in (rule_in rule.entry) trace (recording_in recording.entry) (pair_of pair) }
{
    let place = pair as usize / Limits::RULE_NODES;
    let node = pair as usize % Limits::RULE_NODES;
    let atom = Node::of_word(rule.nodes[node]).first as u32;
    let state = state_of_place(recording.count, trace.controller, recording.states, place);
    Line {
        state: state as u32,
        step: place as u32,
        atom,
        value: (trace.words[place] >> atom) % 2,
        node: node as u32,
    }
}

// The state of the recording and the controller's step.
fn put_place(line: Line, at: usize, text: &mut [u8]) -> usize
    requires { at + length (place_text line) ≤ length text.old }
    ensures { Printed (place_text line) text.old at result text.new }
{
    let after_state = put_line(b"state", line.state as u64, b"\t", at, text);
    put_line(b"step", line.step as u64, b"\t", after_state, text)
}

// The atom, its bit there, and the rule's node.
fn put_reading(line: Line, at: usize, text: &mut [u8]) -> usize
    requires { at + length (reading_text line) ≤ length text.old }
    ensures { Printed (reading_text line) text.old at result text.new }
{
    let after_atom = put_line(b"atom", line.atom as u64, b"\t", at, text);
    let after_value = put_line(b"is", line.value as u64, b"\t", after_atom, text);
    put_line(b"node", line.node as u64, b"\n", after_value, text)
}

// Words and numbers, all tab-parted, closed by byte 10.
fn put_pair(line: Line, at: usize, text: &mut [u8]) -> usize
    requires { at + length (line_text line) ≤ length text.old }
    ensures { Printed (line_text line) text.old at result text.new }
{
    let after_place = put_place(line, at, text);
    put_reading(line, after_place, text)
}

// A line for each pair. The place after them.
pub fn put_pairs(
    rule: Rule<'_>,
    trace: LocalTrace,
    recording: Recording<'_>,
    pairs: &[u32],
    at: usize,
    text: &mut [u8],
) -> usize
    requires { PairsReady (rule_in rule) trace (recording_in recording) pairs.now at text.old }
    ensures { Printed (pairs_in (rule_in rule.entry) trace (recording_in recording.entry) pairs.now) text.old at result text.new }
{
    let mut end = at;
    for pair in pairs {
        end = put_pair(line_of(rule, trace, recording, *pair), end, text);
    }
    end
}
