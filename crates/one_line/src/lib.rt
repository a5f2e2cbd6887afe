// Reading a rule in one line: what refuses it is found first, and what is read then can't fail.
#![tactic(auto)]

ghost use Rattle.std.specs.Prelude.{◌≡◌, length, IfOk};
ghost use Rattle.definitions.specs.Limits.{max_line_bytes};
ghost use Rattle.definitions.specs.OneLine.{line_refusal};
ghost use Rattle.rules.specs.Refusals.{refusal_in};
ghost use Rattle.one_line_signs.specs.Scanning.{Spelt};
ghost use Rattle.one_line.specs.Reading.{ReadLine};

use one_line_readers::arrows;
use one_line_readers::emitted::Emitted;
use one_line_signs::refusal;
use one_line_signs::scan::scan;
use one_line_signs::sign::Sign;
use rules::limits::Limits;
use rules::refusal::{Refusal, unless};
use rules::rule::RuleHeading;

// How many signs a line has that nothing refuses; they lie in `signs` from the first entry on.
#[tactic(auto, using(crate::proofs::LineLaws::check_laws))]
fn check(controller: usize, line: &[u8], signs: &mut [Sign]) -> Result<usize, Refusal>
    requires { length signs.old ≡ max_line_bytes }
    ensures refusal { refusal_in result ≡ line_refusal controller line.now }
    ensures spelt { IfOk result (λ n. Spelt line.now n signs.new) }
{
    unless(Refusal::LineForm, line.len() <= Limits::LINE_BYTES)?;
    let n = scan(line, signs).ok_or(Refusal::LineForm)?;
    refusal::check(controller, &signs[..n])?;
    Ok(n)
}

// Reads a rule in one line into `nodes`.
pub fn read_line(controller: usize, line: &[u8], nodes: &mut [u32]) -> Result<RuleHeading, Refusal>
    ensures { ReadLine controller line.now nodes.old result nodes.new }
{
    if nodes.len() < Limits::RULE_NODES {
        return Err(Refusal::LentShort);
    }
    let mut signs = [Sign::Closing; Limits::LINE_BYTES];
    match check(controller, line, &mut signs) {
        Ok(n) => {
            let mut out = Emitted::start();
            arrows(&signs[..n], Limits::OPEN_BRACKETS, &mut out);
            let count = out.count;
            lent::lay(&out.words, count, Limits::RULE_NODES, nodes);
            Ok(RuleHeading { controller, count })
        }
        Err(refusal) => {
            lent::clear(nodes, 0, Limits::RULE_NODES);
            Err(refusal)
        }
    }
}
