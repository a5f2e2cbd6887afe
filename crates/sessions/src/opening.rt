// A session opens, over whatever stood in lent space.
ghost use Rattle.std.specs.Prelude.{◌≡◌};
ghost use Rattle.definitions.specs.Sessions.{open_masks_refusal, open_refusal};
ghost use Rattle.rules.specs.Handed.{rule_in};
ghost use Rattle.rules.specs.Refusals.{refusal_in};
ghost use Rattle.sessions.specs.Calls.{OpenIs};

use super::arrival::check_controllers;
use super::heading::Heading;
use lent::{clear, lay};
use recordings::masks::check_masks;
use rules::limits::Limits;
use rules::refusal::{Refusal, unless};
use rules::rule::Rule;
use rules::table_check::check_rule;

// The masks that are there, then a mask missing.
#[tactic(auto, using(rules::proofs::RefusalLaws::refusals, crate::proofs::OpeningLaws::missing_is), unfolding(definitions::specs::Sessions::open_masks_refusal))]
fn check_open_masks(controllers: usize, owned: &[u32]) -> Result<(), Refusal>
    ensures { refusal_in result ≡ open_masks_refusal controllers owned.now }
{
    check_masks(controllers, owned)?;
    unless(Refusal::RecordingLines, controllers <= owned.len())
}

// The rule, C, the masks, then the rule's controller.
#[tactic(auto, using(rules::proofs::RefusalLaws::refusals), unfolding(definitions::specs::Sessions::open_refusal, definitions::specs::Recordings::controller_refusal))]
fn check_opening(controllers: usize, owned: &[u32], rule: Rule<'_>) -> Result<(), Refusal>
    ensures { refusal_in result ≡ open_refusal controllers owned.now (rule_in rule.entry) }
{
    check_rule(rule)?;
    check_controllers(controllers)?;
    check_open_masks(controllers, owned)?;
    unless(Refusal::NoController, rule.controller < controllers)
}

// All is checked before anything is written.
#[tactic(auto, using(crate::proofs::OpeningLaws::open_laws))]
pub fn open_session(
    controllers: usize,
    owned: &[u32],
    rule: Rule<'_>,
    heading: &mut [usize; Heading::NUMBERS],
    masks: &mut [u32],
    nodes: &mut [u32],
    states: &mut [u64],
) -> Result<(), Refusal>
    ensures { OpenIs controllers owned.now (rule_in rule.entry) heading.old masks.old nodes.old states.old (refusal_in result) heading.new masks.new nodes.new states.new }
{
    let masks_short = masks.len() < Limits::CONTROLLERS;
    let nodes_short = nodes.len() < Limits::RULE_NODES;
    let states_short = states.len() < Limits::STATES;
    if masks_short | nodes_short | states_short {
        return Err(Refusal::LentShort);
    }
    check_opening(controllers, owned, rule)?;
    lay(owned, controllers, Limits::CONTROLLERS, masks);
    lay(rule.nodes, rule.count, Limits::RULE_NODES, nodes);
    clear(states, 0, Limits::STATES);
    *heading = [controllers, rule.controller, rule.count, 0];
    Ok(())
}
