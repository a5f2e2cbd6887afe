// The first line of a rule text: `rule`, controller, node count.
ghost use Rattle.std.specs.Prelude.{◌≡◌};
ghost use Rattle.definitions.specs.Lines.{line_length};
ghost use Rattle.definitions.specs.RuleText.{rule_heading_line};
ghost use Rattle.lines.specs.Told.{told, next_told};
ghost use Rattle.rule_reader.specs.NextLines.{heading_of};

use fields::form;
use lines::check_end;
use rules::refusal::Refusal;
use rules::rule::RuleHeading;
use rules::table_check::check_rule_heading;

// The next line, of `len` bytes, as the first.
#[tactic(auto, using(crate::proofs::HeadingLaws::heading_laws))]
pub fn next_heading(t: &[u8], len: usize) -> Result<RuleHeading, Refusal>
    requires { len ≡ line_length t.now }
    ensures { told result ≡ next_told heading_of (rule_heading_line t.now) }
{
    check_end(t, len, Refusal::RuleLines, Refusal::RuleForm)?;
    let (controller, count) = form::worded_decimals(&t[..len], b"rule").ok_or(Refusal::RuleForm)?;
    let heading = RuleHeading {
        controller: controller as usize,
        count: count as usize,
    };
    check_rule_heading(heading.controller, heading.count)?;
    Ok(heading)
}
