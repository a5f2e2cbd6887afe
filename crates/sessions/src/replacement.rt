// A session takes another rule and carries its states over.
ghost use Rattle.std.specs.Prelude.{◌≡◌};
ghost use Rattle.definitions.specs.Sessions.{replacement_refusal};
ghost use Rattle.rules.specs.Handed.{rule_in};
ghost use Rattle.rules.specs.Refusals.{refusal_in};
ghost use Rattle.sessions.specs.Calls.{ReplaceIs};

use super::heading::Heading;
use lent::lay;
use rules::limits::Limits;
use rules::refusal::{Refusal, unless};
use rules::rule::Rule;
use rules::table_check::check_rule;

// The rule, then its controller.
#[tactic(auto, using(rules::proofs::RefusalLaws::refusals), unfolding(definitions::specs::Sessions::replacement_refusal, definitions::specs::Recordings::controller_refusal))]
fn check_replacement(controllers: usize, given: Rule<'_>) -> Result<(), Refusal>
    ensures { refusal_in result ≡ replacement_refusal controllers (rule_in given.entry) }
{
    check_rule(given)?;
    unless(Refusal::NoController, given.controller < controllers)
}

// All is checked before anything is written. No state is looked at: the new rule is judged when verdicts are asked for.
#[tactic(auto, using(crate::proofs::ReplacementLaws::replace_laws))]
pub fn replace_rule(
    given: Rule<'_>,
    heading: &mut [usize; Heading::NUMBERS],
    nodes: &mut [u32],
) -> Result<(), Refusal>
    ensures { ReplaceIs (rule_in given.entry) heading.old nodes.old (refusal_in result) heading.new nodes.new }
{
    if nodes.len() < Limits::RULE_NODES {
        return Err(Refusal::LentShort);
    }
    check_replacement(heading[Heading::CONTROLLERS], given)?;
    lay(given.nodes, given.count, Limits::RULE_NODES, nodes);
    heading[Heading::CONTROLLER] = given.controller;
    heading[Heading::COUNT] = given.count;
    Ok(())
}
