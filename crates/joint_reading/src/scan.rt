// Both texts, read up to the first refusal.
ghost use Rattle.std.specs.Prelude.{◌≡◌, ◌≤◌, length, drop};
ghost use Rattle.definitions.specs.Lines.{line_length};
ghost use Rattle.joint_reading.specs.Room.{Room};
ghost use Rattle.joint_reading.specs.Scanning.{refused_at, kept, JointScanned};

use lines::first_line;
use recording_reader::scan::scan_recording;
use recordings::heading::RecordingHeading;
use rule_reader::scan_rule;
use rules::refusal::Refusal;
use rules::rule::RuleHeading;

// Which of the two texts.
#[derive(Clone, Copy, PartialEq, Eq)]
pub enum Text {
    Rule,
    Recording,
}

// What stands before the nodes, and before the masks and states.
#[derive(Clone, Copy)]
pub struct Joined {
    pub rule: RuleHeading,
    pub recording: RecordingHeading,
}

// What was read, or the refusal; and the part handed back: of which text, from where, how long.
#[derive(Clone, Copy)]
pub struct Found {
    pub read: Result<Joined, Refusal>,
    pub text: Text,
    pub from: usize,
    pub len: usize,
}

// Refused, nothing that was read counts.
const NOTHING: Joined = Joined {
    rule: RuleHeading {
        controller: 0,
        count: 0,
    },
    recording: RecordingHeading {
        controllers: 0,
        count: 0,
    },
};

// What of lent space is kept.
pub fn kept(read: Result<Joined, Refusal>) -> Joined
    ensures { result ≡ kept read }
{
    match read {
        Ok(joined) => joined,
        Err(_) => NOTHING,
    }
}

// A refusal with the line that begins at `at`, without its ending.
pub fn refused_at(refusal: Refusal, text: Text, bytes: &[u8], at: usize) -> Found
    requires { at ≤ length bytes.now }
    ensures { result ≡ refused_at refusal text at (line_length (drop at bytes.now)) }
{
    let line = first_line(&bytes[at..]);
    Found {
        read: Err(refusal),
        text,
        from: at,
        len: line.len,
    }
}

// Reads both texts into lent space of full size, up to the first refusal.
pub fn scan_joint(
    rule: &[u8],
    recording: &[u8],
    nodes: &mut [u32],
    masks: &mut [u32],
    states: &mut [u64],
) -> Found
    requires { Room nodes.old masks.old states.old }
    ensures { JointScanned rule.now recording.now nodes.old masks.old states.old result nodes.new masks.new states.new }
{
    let ruled = match scan_rule(rule, nodes) {
        Ok(heading) => heading,
        Err(cut) => return refused_at(cut.stop.refusal, Text::Rule, rule, cut.stop.at),
    };
    let recorded = match scan_recording(recording, masks, states) {
        Ok(heading) => heading,
        Err(cut) => return refused_at(cut.stop.refusal, Text::Recording, recording, cut.stop.at),
    };
    if recorded.controllers <= ruled.controller {
        return refused_at(Refusal::NoController, Text::Rule, rule, 0);
    }
    let joined = Joined {
        rule: ruled,
        recording: recorded,
    };
    Found {
        read: Ok(joined),
        text: Text::Recording,
        from: recording.len(),
        len: 0,
    }
}
