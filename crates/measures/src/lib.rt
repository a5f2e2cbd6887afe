// Signed numbers of a text, with two decimals, as hundredths. `sign`: the steps that take signed integers, so that all above speaks of the logic's integers.
// What a number is for is not asked here.
#![tactic(auto)]

pub mod sign;

ghost use Rattle.std.specs.Prelude.{◌≡◌};
ghost use Rattle.fields.specs.Fields.{capped, exact};
ghost use Rattle.definitions.specs.Measures.{decimals, hundredths, measure};
ghost use Rattle.measures.specs.Answers.{limited_to, limited, refusal_for};

use fields::number;
use lines::scan;
use rules::refusal::Refusal;

// Why a field is no signed number: it is of another form, or the number is outside its limits.
#[derive(Clone, Copy, PartialEq, Eq)]
pub enum Flaw {
    Outside,
    Malformed,
}

impl From<Flaw> for Refusal {
    ghost from_gives = { λ flaw refusal. refusal ≡ refusal_for flaw };

    fn from(flaw: Flaw) -> Refusal {
        match flaw {
            Flaw::Outside => Refusal::RecordingLimits,
            Flaw::Malformed => Refusal::RecordingForm,
        }
    }
}

pub const POINT: u8 = b'.';

// The limits, in hundredths.
pub const LEAST: i32 = -32768;

pub const GREATEST: i32 = 32767;

// Two digits.
#[tactic(auto, using(crate::proofs::MeasureLaws::decimals_laws))]
fn decimals(s: &[u8]) -> Option<u32>
    ensures { result ≡ exact (decimals s.now) }
{
    let [a, b] = s else {
        return None;
    };
    let tens = number::digit(*a)?;
    let ones = number::digit(*b)?;
    Some(tens * 10 + ones)
}

// A number without a sign, up to the largest number of a field.
#[tactic(auto, using(crate::proofs::MeasureLaws::hundredths_laws))]
fn hundredths(s: &[u8]) -> Option<u32>
    ensures { result ≡ capped (hundredths s.now) }
{
    let (whole, part) = scan::split(s, POINT)?;
    let ones = number::decimal(whole)?;
    let rest = decimals(part)?;
    Some((ones * 100 + rest).min(number::LARGEST))
}

// A number against its limits.
#[tactic(auto, unfolding(crate::specs::Answers::limited_to, definitions::specs::Measures::in_limits, definitions::specs::Bounded::pick))]
fn limited(z: i32) -> Result<i32, Flaw>
    ensures { result ≡ limited_to z }
{
    if sign::reached(z, LEAST) & sign::reached(GREATEST, z) {
        return Ok(z);
    }
    Err(Flaw::Outside)
}

// A signed number: negated after a minus.
#[tactic(auto, using(crate::proofs::MeasureLaws::read_laws))]
pub fn read(s: &[u8]) -> Result<i32, Flaw>
    ensures { result ≡ limited (measure s.now) }
{
    if let Some(digits) = s.strip_prefix(b"-") {
        let n = hundredths(digits).ok_or(Flaw::Malformed)?;
        if n == 0 {
            return Err(Flaw::Malformed);
        }
        return limited(sign::negated(n));
    }
    let amount = hundredths(s).ok_or(Flaw::Malformed)?;
    limited(sign::plain(amount))
}
