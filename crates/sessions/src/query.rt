// Both verdicts of a session: no call, nothing is lent for output.
ghost use Rattle.std.specs.Prelude.{◌≡◌, eqb, get_or};
ghost use Rattle.definitions.specs.Sessions.{lent_space, verdicts_answer};
ghost use Rattle.sessions.specs.Answers.{session_answer, says_none};

use super::heading::Heading;
use judges::local::judge_local;
use judges::verdicts::Verdicts;
use recordings::heading::Recording;
use rules::refusal::Refusal;
use rules::rule::Rule;

// "An empty session has no verdict, and its answer says so".
#[tactic(auto, using(crate::proofs::QueryLaws::query_laws))]
pub fn session_verdicts(
    heading: &[usize; Heading::NUMBERS],
    masks: &[u32],
    nodes: &[u32],
    states: &[u64],
) -> Result<Option<Verdicts>, Refusal>
    ensures answered { session_answer result ≡ verdicts_answer (lent_space heading.now masks.now nodes.now states.now) }
    ensures said { says_none result ≡ eqb (get_or heading.now 3 0) 0 }
{
    let held = heading[Heading::HELD];
    if held == 0 {
        return Ok(None);
    }
    let rule = Rule {
        controller: heading[Heading::CONTROLLER],
        count: heading[Heading::COUNT],
        nodes,
    };
    let recording = Recording {
        controllers: heading[Heading::CONTROLLERS],
        count: held,
        masks,
        states,
    };
    let verdicts = judge_local(rule, recording)?;
    Ok(Some(verdicts))
}
