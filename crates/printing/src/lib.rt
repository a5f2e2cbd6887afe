// Bytes, words and numbers written into a text: each function changes what it writes and nothing else, and answers the place after it.
#![tactic(auto)]

ghost use Rattle.std.specs.Prelude.{◌+◌, ◌<◌, ◌≤◌, [], ◌∷◌, length};
ghost use Rattle.definitions.specs.Lines.{tab, digits};
ghost use Rattle.printing.specs.Printing.{Printed, counted_line};

use lines::scan;

// Writes the digits of `n` from `at` on, highest first. The place after them.
pub fn print(n: u64, at: usize, text: &mut [u8]) -> usize
    requires { at + length (digits n) ≤ length text.old }
    ensures { Printed (digits n) text.old at result text.new }
{
    if n < 10 {
        text[at] = b'0' + n as u8;
        return at + 1;
    }
    let next = print(n / 10, at, text);
    text[next] = b'0' + (n % 10) as u8;
    next + 1
}

// Writes `word` from `at` on. The place after it.
#[tactic(auto, using(crate::proofs::PrintLaws::put_laws))]
pub fn put(word: &[u8], at: usize, text: &mut [u8]) -> usize
    requires { at + length word.now ≤ length text.old }
    ensures { Printed word.now text.old at result text.new }
{
    for i in 0..word.len() {
        text[at + i] = word[i];
    }
    at + word.len()
}

// Writes the byte `b` at `at`. The place after it.
#[tactic(auto, using(crate::proofs::PrintLaws::printed_byte))]
pub fn put_byte(b: u8, at: usize, text: &mut [u8]) -> usize
    requires { at < length text.old }
    ensures { Printed (b ∷ []) text.old at result text.new }
{
    text[at] = b;
    at + 1
}

// A tab and the digits of `n`.
pub fn put_field(n: u64, at: usize, text: &mut [u8]) -> usize
    requires { at + length (tab ∷ digits n) ≤ length text.old }
    ensures { Printed (tab ∷ digits n) text.old at result text.new }
{
    let next = put_byte(scan::TAB, at, text);
    print(n, next, text)
}

// A word, a number and how the line ends.
pub fn put_line(word: &[u8], number: u64, end: &[u8], at: usize, text: &mut [u8]) -> usize
    requires { at + length (counted_line word.now number end.now) ≤ length text.old }
    ensures { Printed (counted_line word.now number end.now) text.old at result text.new }
{
    let after_word = put(word, at, text);
    let after_number = put_field(number, after_word, text);
    put(end, after_number, text)
}
