// The signs of a line.
ghost use Rattle.std.specs.Prelude.{◌≡◌, ◌≤◌, length, MatchOption};
ghost use Rattle.definitions.specs.Lines.{malformed};
ghost use Rattle.definitions.specs.OneLineReading.{signs_of};
ghost use Rattle.one_line_signs.specs.Scanning.{Spelt};

use super::sign::Sign;
use super::token::{after_space, first_sign};

// How many signs the line spells, where it spells any; they lie in `signs` from the first entry on.
pub fn scan(line: &[u8], signs: &mut [Sign]) -> Option<usize>
    requires { length line.now ≤ length signs.old }
    ensures { MatchOption result (signs_of line.now ≡ malformed) (λ n. Spelt line.now n signs.new) }
{
    let mut text = line;
    for (i, place) in signs.iter_mut().enumerate() {
        let (sign, rest) = first_sign(text)?;
        *place = sign;
        if rest.is_empty() {
            return Some(i + 1);
        }
        text = after_space(rest);
    }
    None
}
