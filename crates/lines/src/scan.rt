// Bytes of a text: where one stands, what follows it, and comparison.
ghost use Rattle.std.specs.Prelude.{◌≡◌, ◌+◌, ◌<◌, length};
ghost use Rattle.definitions.specs.Lines.{same, letters};
ghost use Rattle.lines.specs.Parts.{Located, IsRest, parts_in, parts_lie, split};

// Ends a line, alone or after a carriage return; what is written ends its lines in it alone.
pub const NEWLINE: u8 = 10;
// Parts two fields.
pub const TAB: u8 = 9;
// Is of no form, even after an unknown word; right before a newline it is of the line's ending.
pub const CARRIAGE_RETURN: u8 = 13;

// How many bytes of `s` stand before its first `b`: all of them where there is none.
pub fn until_byte(s: &[u8], b: u8) -> usize
    ensures { Located b s.now result }
{
    s.iter().position(|x| *x == b).unwrap_or(s.len())
}

// What follows byte `i`.
pub fn after<'a>(s: &'a [u8], i: usize) -> &'a [u8]
    requires { i < length s.now }
    ensures { IsRest s.entry result (i + 1) }
{
    &s[i + 1..]
}

// The part of `s` before its first `b`, and the part after it.
pub fn split<'a>(s: &'a [u8], b: u8) -> Option<(&'a [u8], &'a [u8])>
    ensures parts { parts_in result ≡ split b s.now }
    ensures places { parts_lie s.entry result }
{
    let i = s.iter().position(|x| *x == b)?;
    let front = &s[..i];
    let rest = after(s, i);
    Some((front, rest))
}

// Whether `a` and `b` are the same bytes.
#[tactic(auto, using(crate::proofs::ScanLaws::pointwise_same))]
pub fn same(a: &[u8], b: &[u8]) -> bool
    ensures { result ≡ same a.now b.now }
{
    a == b
}

// Whether each byte of `s` is a letter a to z.
pub fn letters(s: &[u8]) -> bool
    ensures { result ≡ letters s.now }
{
    s.iter().all(|x| matches!(*x, b'a'..=b'z'))
}
