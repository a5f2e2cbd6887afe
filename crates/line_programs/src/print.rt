// What is printed: a rule's text, or a refusal.
ghost use Rattle.std.specs.Prelude.{List, ℕ};
ghost use Rattle.definitions.specs.LinePrograms.{refusal_text};
ghost use Rattle.rules.specs.Refusals.{number_of};
ghost use Rattle.line_programs.specs.Printing.{Prints, Written};

use lines::scan;
use rules::limits::Limits;
use rules::refusal::Refusal;

// The word `refused` and the number, and zeros after it. How many bytes that is.
pub fn print_refusal(refusal: Refusal, output: &mut [u8; Limits::RULE_BYTES]) -> usize
    ensures { Prints (refusal_text (number_of refusal)) result output.new }
{
    let after_word = printing::put(b"refused", 0, output);
    let after_number = printing::put_field(refusal.number() as u64, after_word, output);
    let end = printing::put_byte(scan::NEWLINE, after_number, output);
    lent::clear(output, end, Limits::RULE_BYTES);
    end
}

// How many bytes of a text were written, or its refusal printed.
pub fn or_refusal(written: Result<usize, Refusal>, output: &mut [u8; Limits::RULE_BYTES]) -> usize
    ensures { (text : List ℕ) → Written text written output.old → Prints text result output.new }
{
    match written {
        Ok(end) => end,
        Err(refusal) => print_refusal(refusal, output),
    }
}
