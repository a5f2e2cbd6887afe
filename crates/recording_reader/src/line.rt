// The first line of a recording text: `recording`, C, N.
ghost use Rattle.std.specs.Prelude.{◌≡◌};
ghost use Rattle.definitions.specs.Lines.{line_length};
ghost use Rattle.definitions.specs.RecordingText.{recording_heading_line};
ghost use Rattle.lines.specs.Told.{told, next_told};
ghost use Rattle.recording_reader.specs.NextLines.{heading_of};

use fields::form;
use lines::check_end;
use recordings::check::check_heading;
use recordings::heading::RecordingHeading;
use rules::refusal::Refusal;

// The next line, of `len` bytes, as the first.
#[tactic(auto, using(crate::proofs::HeadingLaws::heading_laws))]
pub fn next_heading(t: &[u8], len: usize) -> Result<RecordingHeading, Refusal>
    requires { len ≡ line_length t.now }
    ensures { told result ≡ next_told heading_of (recording_heading_line t.now) }
{
    check_end(t, len, Refusal::RecordingLines, Refusal::RecordingForm)?;
    let numbers = form::worded_decimals(&t[..len], b"recording");
    let (controllers, count) = numbers.ok_or(Refusal::RecordingForm)?;
    let heading = RecordingHeading {
        controllers: controllers as usize,
        count: count as usize,
    };
    check_heading(heading.controllers, heading.count)?;
    Ok(heading)
}
