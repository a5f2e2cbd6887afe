// The line of a mask: `owns`, mask.
ghost use Rattle.std.specs.Prelude.{◌≡◌};
ghost use Rattle.definitions.specs.Lines.{line_length};
ghost use Rattle.lines.specs.Told.{told, next_told};
ghost use Rattle.recording_reader.specs.NextLines.{seen_line};

use at_lines::WORD_DIGITS;
use fields::form;
use lines::check_end;
use recordings::masks::check_mask;
use rules::refusal::Refusal;

// The next line, of `len` bytes, as a mask against `seen`, the union of the earlier ones.
#[tactic(auto, using(crate::proofs::MaskLaws::mask_laws))]
pub fn next_mask(seen: u32, t: &[u8], len: usize) -> Result<u32, Refusal>
    requires { len ≡ line_length t.now }
    ensures { told result ≡ next_told (λ m. m) (seen_line seen t.now) }
{
    check_end(t, len, Refusal::RecordingLines, Refusal::RecordingForm)?;
    let number = form::worded_hexadecimal(&t[..len], b"owns", WORD_DIGITS);
    let mask = number.ok_or(Refusal::RecordingForm)?;
    check_mask(seen, mask)?;
    Ok(mask)
}
