// What refuses the signs of a line.
ghost use Rattle.std.specs.Prelude.{◌≡◌, ◌≤◌, length};
ghost use Rattle.definitions.specs.Limits.{max_line_bytes};
ghost use Rattle.theorems.proofs.FlatRefusal.{flat_refusal};
ghost use Rattle.rules.specs.Refusals.{refusal_in};
ghost use Rattle.one_line_signs.specs.Signs.{signs_in};

use super::sign::Sign;
use super::tally::count;
use rules::limits::Limits;
use rules::refusal::{Refusal, unless};

// 15, then 16, then 2; 15 of a line that is too long or spells no signs is given before there are signs to count (`one_line`).
#[tactic(auto, using(crate::proofs::TallyLaws::check_laws))]
pub fn check(controller: usize, signs: &[Sign]) -> Result<(), Refusal>
    requires { length signs.now ≤ max_line_bytes }
    ensures { refusal_in result ≡ flat_refusal controller (signs_in signs.now) }
{
    let t = count(signs);
    let sentence = t.placed & !t.due & (t.opened == 0);
    unless(Refusal::LineForm, sentence)?;
    unless(Refusal::BracketsDeep, t.most <= Limits::OPEN_BRACKETS)?;
    let within = (t.nodes <= Limits::RULE_NODES) & t.low_atoms & (controller < Limits::CONTROLLERS);
    unless(Refusal::RuleLimits, within)
}
