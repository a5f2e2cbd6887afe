// The bits of a word that gauges set by their values.
ghost use Rattle.std.specs.Prelude.{◌≡◌, ◌<◌};
ghost use Rattle.definitions.specs.Limits.{atom_count};
ghost use Rattle.definitions.specs.Bounded.{bit_of};
ghost use Rattle.definitions.specs.Gauges.{with_atom, finished_bit};

use super::gauge::Gauge;
use measures::sign;

// Whether the bit of an atom is set.
#[tactic(auto, unfolding(definitions::specs::Bounded::bit_of))]
pub fn has_atom(word: u32, atom: u32) -> bool
    requires { atom < atom_count }
    ensures { result ≡ bit_of word atom }
{
    (word >> atom) % 2 == 1
}

// The word with the bit of an atom set.
#[tactic(auto, unfolding(definitions::specs::Gauges::with_atom))]
fn with_atom(word: u32, atom: u32) -> u32
    requires { atom < atom_count }
    ensures { result ≡ with_atom word atom }
{
    word | (1u32 << atom)
}

// The word with the bit of one gauge.
#[tactic(auto, unfolding(definitions::specs::Gauges::finished_bit, definitions::specs::Bounded::pick))]
pub fn finished_bit(word: u32, gauge: Gauge, value: i32) -> u32
    ensures { result ≡ finished_bit word gauge.atom gauge.threshold value }
{
    if sign::reached(value, gauge.threshold) {
        return with_atom(word, gauge.atom);
    }
    word
}
