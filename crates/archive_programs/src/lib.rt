// The programs `archive` and `unarchive` as functions, from the input's bytes to the output's bytes: one engine with a flag.
#![tactic(auto)]

ghost use Rattle.std.specs.Prelude.{◌≡◌};
ghost use Rattle.definitions.specs.ArchivePrograms.{archive_output, unarchive_output};
ghost use Rattle.printing.specs.Printing.{OutputIs};
ghost use Rattle.archive_programs.specs.Converting.{convert_output, text_line};

use archives::reading::scan_text;
use archives::writing::put_text;
use joint_reading::scan::Text;
use recordings::heading::Recording;
use refused_line::Line;
use refused_line::number::line_number;
use report::{OUTPUT_BYTES, put_refused, put_stopped};
use rules::limits::Limits;
use rules::refusal::Refusal;

// From one text to the other, `back` to the recording text, or to what is printed of a refusal.
#[tactic(auto, using(crate::proofs::OutputLaws::convert_laws))]
fn convert(back: bool, input: &[u8], output: &mut [u8; OUTPUT_BYTES]) -> usize
    ensures { OutputIs (convert_output back input.now) output.old result output.new }
{
    if Limits::INPUT_BYTES < input.len() {
        return put_refused(Refusal::InputLong, &input[..0], output);
    }
    let mut masks = [0u32; Limits::CONTROLLERS];
    let mut states = [0u64; Limits::STATES];
    match scan_text(back, input, &mut masks, &mut states) {
        Ok(heading) => {
            let recording = Recording {
                controllers: heading.controllers,
                count: heading.count,
                masks: &masks[..heading.controllers],
                states: &states[..heading.count],
            };
            put_text(back, recording, output)
        }
        Err(stop) => put_stopped(stop, input, output),
    }
}

// `archive`: from a recording text to its archive text, and how many bytes that is.
pub fn print_archive(input: &[u8], output: &mut [u8; OUTPUT_BYTES]) -> usize
    ensures { OutputIs (archive_output input.now) output.old result output.new }
{
    convert(false, input, output)
}

// `unarchive`: from an archive text to its recording text, and how many bytes that is.
pub fn print_recording(input: &[u8], output: &mut [u8; OUTPUT_BYTES]) -> usize
    ensures { OutputIs (unarchive_output input.now) output.old result output.new }
{
    convert(true, input, output)
}

// Where the refused line of the input stands, if it is refused and not too long.
#[tactic(auto, using(crate::proofs::OutputLaws::found_laws))]
pub fn find_line(back: bool, input: &[u8]) -> Option<Line>
    ensures { result ≡ text_line back input.now }
{
    if Limits::INPUT_BYTES < input.len() {
        return None;
    }
    let mut masks = [0u32; Limits::CONTROLLERS];
    let mut states = [0u64; Limits::STATES];
    let stop = scan_text(back, input, &mut masks, &mut states).err()?;
    Some(Line {
        text: Text::Recording,
        number: line_number(input, stop.at),
    })
}
