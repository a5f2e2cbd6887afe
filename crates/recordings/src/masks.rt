// The masks of a recording: own atoms of each controller.
ghost use Rattle.std.specs.Prelude.{◌≡◌, [], ◌<◌, take, get_or};
ghost use Rattle.definitions.specs.Limits.{word_marks};
ghost use Rattle.definitions.specs.Bounded.{bit_of};
ghost use Rattle.definitions.specs.Recordings.{masks_refusal};
ghost use Rattle.rules.specs.Refusals.{refusal_in};
ghost use Rattle.recordings.specs.Unions.{union_refusal};

use super::entries::counted;
use rules::refusal::{Refusal, unless};

// One mask against `seen`, the union of the earlier ones.
pub fn check_mask(seen: u32, mask: u32) -> Result<(), Refusal>
    ensures { refusal_in result ≡ union_refusal seen mask }
{
    unless(Refusal::MasksMeet, seen & mask == 0)
}

// The masks that are there, in order.
pub fn check_masks(controllers: usize, masks: &[u32]) -> Result<(), Refusal>
    ensures { refusal_in result ≡ masks_refusal [] (take controllers masks.now) }
{
    let mut seen: u32 = 0;
    for mask in counted(controllers, masks) {
        check_mask(seen, *mask)?;
        seen = seen | *mask;
    }
    Ok(())
}

// "bit a is atom a". An operand that is no atom may be asked for too: a word of 64 bits has its bit.
pub fn is_own(mask: u32, a: usize) -> bool
    requires { a < word_marks }
    ensures { result ≡ bit_of mask a }
{
    (mask as u64 >> a) % 2 == 1
}

// A mask that isn't there has no atoms.
pub fn mask_at(masks: &[u32], c: usize) -> u32
    ensures { result ≡ get_or masks.now c 0 }
{
    masks.get(c).copied().unwrap_or(0)
}
