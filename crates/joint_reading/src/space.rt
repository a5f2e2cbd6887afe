// Lent space for the three tables of the joint reading: whether it is of full size, and zeros past what is kept of it.
ghost use Rattle.std.specs.Prelude.{◌≡◌};
ghost use Rattle.joint_reading.specs.Room.{is_short, Clearable, Cleared};

use super::scan::Joined;
use rules::limits::Limits;

// Zeroes what lent space holds past its used entries.
pub fn clear_past(nodes: &mut [u32], masks: &mut [u32], states: &mut [u64], kept: Joined)
    requires { Clearable kept.rule.count kept.recording.controllers kept.recording.count nodes.old masks.old states.old }
    ensures { Cleared kept.rule.count kept.recording.controllers kept.recording.count nodes.old masks.old states.old nodes.new masks.new states.new }
{
    lent::clear(nodes, kept.rule.count, Limits::RULE_NODES);
    lent::clear(masks, kept.recording.controllers, Limits::CONTROLLERS);
    lent::clear(states, kept.recording.count, Limits::STATES);
}

// Whether any of lent space is shorter than its full size.
#[tactic(auto, unfolding(crate::specs::Room::is_short))]
pub fn is_short(nodes: &[u32], masks: &[u32], states: &[u64]) -> bool
    ensures { result ≡ is_short nodes.now masks.now states.now }
{
    (nodes.len() < Limits::RULE_NODES)
        | (masks.len() < Limits::CONTROLLERS)
        | (states.len() < Limits::STATES)
}
