// One sign of a line.
ghost use Rattle.std.specs.Prelude.{◌≡◌, ◌∷◌, length};
ghost use Rattle.std.specs.List.{take_while};
ghost use Rattle.std.specs.Char.{is_ascii_digit};
ghost use Rattle.definitions.specs.OneLineReading.{atom_first, sign_first, after_space};
ghost use Rattle.one_line_signs.specs.Tokens.{Takes};

use super::sign::{Infix, Prefix, Sign};
use fields::number::decimal;
use rules::limits::Limits;

// How many digits a text begins with.
fn digits(text: &[u8]) -> usize
    ensures { result ≡ length (take_while is_ascii_digit text.now) }
{
    text.iter().take_while(|b| b.is_ascii_digit()).count()
}

// The atom whose number a text begins with, where `a` stands before it, and what follows it.
#[tactic(auto, using(crate::proofs::TokenLaws::atom_laws))]
fn atom(text: &[u8]) -> Option<(Sign, &[u8])>
    ensures { Takes atom_first (97 ∷ text.now) result }
{
    let (digits, rest) = text.split_at(digits(text));
    let n = decimal(digits)?;
    Some((Sign::Atom(n.min(Limits::ATOMS as u32) as u8), rest))
}

// What follows the space that a text begins with, where it begins with one.
#[tactic(auto, unfolding(definitions::specs::OneLineReading::after_space, definitions::specs::Bounded::pick))]
pub fn after_space(text: &[u8]) -> &[u8]
    ensures { result.now ≡ after_space text.now }
{
    match text {
        [b' ', rest @ ..] => rest,
        _ => text,
    }
}

// The sign that a text begins with, and what follows it.
#[tactic(auto, using(crate::proofs::TokenLaws::first_laws))]
pub fn first_sign(text: &[u8]) -> Option<(Sign, &[u8])>
    ensures { Takes sign_first text.now result }
{
    let (first, rest) = text.split_first()?;
    match first {
        b't' => Some((Sign::True, rest.strip_prefix(b"rue")?)),
        b'a' => atom(rest),
        b'!' => Some((Sign::Prefix(Prefix::Not), rest)),
        b'X' => Some((Sign::Prefix(Prefix::Next), rest)),
        b'Y' => Some((Sign::Prefix(Prefix::Prev), rest)),
        b'F' => Some((Sign::Prefix(Prefix::Future), rest)),
        b'G' => Some((Sign::Prefix(Prefix::Always), rest)),
        b'-' => Some((Sign::Infix(Infix::Implies), rest.strip_prefix(b">")?)),
        b'|' => Some((Sign::Infix(Infix::Or), rest)),
        b'&' => Some((Sign::Infix(Infix::And), rest)),
        b'U' => Some((Sign::Infix(Infix::Until), rest)),
        b'S' => Some((Sign::Infix(Infix::Since), rest)),
        b'(' => Some((Sign::Opening, rest)),
        b')' => Some((Sign::Closing, rest)),
        _ => None,
    }
}
