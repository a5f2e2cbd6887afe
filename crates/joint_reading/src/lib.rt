// The joint reading: the rule text, then the recording text, then the two together, and the refused line as a part of its text. `space`: the three lent tables;
// `scan`: both texts up to the first refusal, and which line is handed back. Nothing is judged here.
#![tactic(auto)]

pub mod scan;
pub mod space;

ghost use Rattle.std.specs.Prelude.{◌≡◌, ◌≤◌, ◌+◌, length};
ghost use Rattle.definitions.specs.Bounded.{pick};
ghost use Rattle.joint_reading.specs.Room.{Room};
ghost use Rattle.joint_reading.specs.Scanning.{Low, of_rule};
ghost use Rattle.joint_reading.specs.Joining.{IsPart, IsFound, heading_in, Joined, ReadJoint};

use rules::refusal::Refusal;
use scan::{Found, Text, kept, refused_at, scan_joint};
use space::{clear_past, is_short};

// Reads both texts into lent space of full size, and zeroes its unused entries: after a refusal, all.
fn join_whole(
    rule: &[u8],
    recording: &[u8],
    nodes: &mut [u32],
    masks: &mut [u32],
    states: &mut [u64],
) -> Found
    requires { Room nodes.old masks.old states.old }
    ensures { Joined rule.now recording.now nodes.old masks.old states.old result nodes.new masks.new states.new }
{
    let found = scan_joint(rule, recording, nodes, masks, states);
    clear_past(nodes, masks, states, kept(found.read));
    found
}

// Reads both texts, where lent space is of full size.
pub fn join(
    rule: &[u8],
    recording: &[u8],
    nodes: &mut [u32],
    masks: &mut [u32],
    states: &mut [u64],
) -> Found
    ensures { Joined rule.now recording.now nodes.old masks.old states.old result nodes.new masks.new states.new }
{
    if is_short(nodes, masks, states) {
        return refused_at(Refusal::LentShort, Text::Rule, &rule[..0], 0);
    }
    join_whole(rule, recording, nodes, masks, states)
}

// The number, controller, node count, C and N: zeros beside a refusal's number.
fn heading_in(read: Result<scan::Joined, Refusal>) -> [u32; 5]
    requires { Low read }
    ensures { result ≡ heading_in read }
{
    match read {
        Ok(joined) => [
            0,
            joined.rule.controller as u32,
            joined.rule.count as u32,
            joined.recording.controllers as u32,
            joined.recording.count as u32,
        ],
        Err(refusal) => [refusal.number() as u32, 0, 0, 0, 0],
    }
}

// The part of `text` of `len` bytes from `from` on.
#[tactic(auto, using(crate::proofs::JoinLaws::part_laws))]
fn part<'a>(text: &'a [u8], from: usize, len: usize) -> &'a [u8]
    requires { from + len ≤ length text.now }
    ensures { IsPart text.entry result from len }
{
    &text[from..from + len]
}

impl Found {
    // The part that is handed back: of one of the two texts that were read.
    #[tactic(auto, using(crate::proofs::JoinLaws::found_laws))]
    pub fn part<'a>(self, rule: &'a [u8], recording: &'a [u8]) -> &'a [u8]
        requires { self.from + self.len ≤ length (pick (of_rule self.text) rule.now recording.now) }
        ensures { IsFound rule.entry recording.entry self result }
    {
        match self.text {
            Text::Rule => part(rule, self.from, self.len),
            Text::Recording => part(recording, self.from, self.len),
        }
    }
}

// Reads a rule and a recording, and hands back the refused line.
pub fn read_joint<'a>(
    rule: &'a [u8],
    recording: &'a [u8],
    nodes: &mut [u32],
    masks: &mut [u32],
    states: &mut [u64],
    heading: &mut [u32; 5],
) -> &'a [u8]
    ensures { ReadJoint rule.entry recording.entry nodes.old masks.old states.old result nodes.new masks.new states.new heading.new }
{
    let found = join(rule, recording, nodes, masks, states);
    *heading = heading_in(found.read);
    found.part(rule, recording)
}
