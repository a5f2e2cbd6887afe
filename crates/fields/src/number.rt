// Decimal and hexadecimal fields.
ghost use Rattle.std.specs.Prelude.{◌≡◌, ◌≤◌};
ghost use Rattle.definitions.specs.Lines.{decimal, hexadecimal};
ghost use Rattle.fields.specs.Fields.{widest, capped, exact, digit_value, hex_value};

// A decimal field is read exactly below this number, and as this number from it on.
pub const LARGEST: u32 = 65535;

// The value of a decimal digit.
#[tactic(auto, unfolding(crate::specs::Fields::digit_value, definitions::specs::Bounded::pick))]
pub fn digit(b: u8) -> Option<u32>
    ensures { result ≡ digit_value b }
{
    match b {
        b'0'..=b'9' => Some((b - b'0') as u32),
        _ => None,
    }
}

// A decimal field, without leading zeros.
#[tactic(auto, using(crate::proofs::FieldLaws::decimal_laws))]
pub fn decimal(s: &[u8]) -> Option<u32>
    ensures { result ≡ capped (decimal s.now) }
{
    if s.is_empty() {
        return None;
    }
    if s[0] == b'0' && s.len() != 1 {
        return None;
    }
    let mut v = 0;
    for b in s {
        v = (v * 10 + digit(*b)?).min(LARGEST);
    }
    Some(v)
}

// The value of a lower-case hexadecimal digit.
#[tactic(auto, unfolding(crate::specs::Fields::hex_value, crate::specs::Fields::digit_value, definitions::specs::Lines::hex_digit, definitions::specs::Bounded::pick))]
fn hex_digit(b: u8) -> Option<u32>
    ensures { result ≡ hex_value b }
{
    match b {
        b'a'..=b'f' => Some((b - b'a' + 10) as u32),
        _ => digit(b),
    }
}

// A field of exactly `width` lower-case hexadecimal digits.
#[tactic(auto, using(crate::proofs::HexLaws::hex_laws))]
pub fn hexadecimal(s: &[u8], width: usize) -> Option<u32>
    requires { width ≤ widest }
    ensures { result ≡ exact (hexadecimal width s.now) }
{
    if s.len() != width {
        return None;
    }
    let mut v = 0;
    for b in s {
        v = v * 16 + hex_digit(*b)?;
    }
    Some(v)
}
