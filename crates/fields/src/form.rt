// Forms of lines: fields parted by tabs, after a word or not.
ghost use Rattle.std.specs.Prelude.{◌≡◌, ◌≤◌};
ghost use Rattle.definitions.specs.Lines.{decimal, hexadecimal, heading, two_fields, worded, heading_form};
ghost use Rattle.fields.specs.Fields.{widest, capped, exact};
ghost use Rattle.fields.specs.Forms.{exact_pair, capped_pair, Widths, part_in, after_word};

use super::number;
use lines::scan;

// Two decimal fields.
pub fn decimals(s: &[u8]) -> Option<(u32, u32)>
    ensures { result ≡ capped_pair (two_fields decimal decimal heading s.now) }
{
    let (first, second) = scan::split(s, scan::TAB)?;
    let a = number::decimal(first)?;
    let b = number::decimal(second)?;
    Some((a, b))
}

// Two hexadecimal fields of these widths.
fn hexadecimals(s: &[u8], first: usize, second: usize) -> Option<(u32, u32)>
    requires { Widths first second }
    ensures { result ≡ exact_pair (two_fields (hexadecimal first) (hexadecimal second) heading s.now) }
{
    let (one, two) = scan::split(s, scan::TAB)?;
    let m = number::hexadecimal(one, first)?;
    let n = number::hexadecimal(two, second)?;
    Some((m, n))
}

// What follows `word` and a tab, where a line opens with them.
#[tactic(auto, using(crate::proofs::FormLaws::word_laws))]
pub fn after_word<'a>(s: &'a [u8], word: &[u8]) -> Option<&'a [u8]>
    ensures { part_in result ≡ after_word word.now s.now }
{
    let (first, rest) = scan::split(s, scan::TAB)?;
    if scan::same(first, word) {
        return Some(rest);
    }
    None
}

// A line of a word and two decimal fields.
#[tactic(auto, using(crate::proofs::FormLaws::worded_laws), unfolding(crate::specs::Fields::taken, definitions::specs::Lines::heading_form))]
pub fn worded_decimals(s: &[u8], word: &[u8]) -> Option<(u32, u32)>
    ensures { result ≡ capped_pair (heading_form word.now s.now) }
{
    decimals(after_word(s, word)?)
}

// A line of a word and a decimal field.
#[tactic(auto, using(crate::proofs::FormLaws::worded_laws), unfolding(crate::specs::Fields::taken))]
pub fn worded_decimal(s: &[u8], word: &[u8]) -> Option<u32>
    ensures { result ≡ capped (worded word.now decimal s.now) }
{
    number::decimal(after_word(s, word)?)
}

// A line of a word and a hexadecimal field.
#[tactic(auto, using(crate::proofs::FormLaws::worded_laws), unfolding(crate::specs::Fields::taken))]
pub fn worded_hexadecimal(s: &[u8], word: &[u8], width: usize) -> Option<u32>
    requires { width ≤ widest }
    ensures { result ≡ exact (worded word.now (hexadecimal width) s.now) }
{
    number::hexadecimal(after_word(s, word)?, width)
}

// A line of a word and two hexadecimal fields.
#[tactic(auto, using(crate::proofs::FormLaws::worded_laws), unfolding(crate::specs::Fields::taken))]
pub fn worded_hexadecimals(s: &[u8], word: &[u8], first: usize, second: usize) -> Option<(u32, u32)>
    requires { Widths first second }
    ensures { result ≡ exact_pair (worded word.now (two_fields (hexadecimal first) (hexadecimal second) heading) s.now) }
{
    hexadecimals(after_word(s, word)?, first, second)
}
