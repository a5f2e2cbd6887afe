// The line of the verdict that is asked for.
ghost use Rattle.std.specs.Prelude.{◌≡◌};
ghost use Rattle.definitions.specs.Why.{verdict_text};
ghost use Rattle.evidence_text.specs.Verdict.{chosen};

use judges::verdicts::Verdicts;

// The bytes of the longest one.
pub const VERDICT_BYTES: usize = 11;

// The reading's word and its verdict, closed by byte 10.
#[tactic(auto, unfolding(definitions::specs::Why::verdict_text))]
pub fn verdict_line(weak: bool, verdicts: Verdicts) -> &'static [u8]
    ensures { result.now ≡ verdict_text weak (chosen weak verdicts) }
{
    if weak {
        if verdicts.weak {
            b"weak\tyes\n"
        } else {
            b"weak\tno\n"
        }
    } else if verdicts.strong {
        b"strong\tyes\n"
    } else {
        b"strong\tno\n"
    }
}
