// A recording text made an archive text, and the inverse: text to text, one engine with a flag. `reading`: either text into masks and states, up to the first
// refusal; `writing`: either text from them.
#![tactic(auto)]

pub mod reading;
pub mod writing;

ghost use Rattle.archives.specs.Converting.{Converted, ToArchive, FromArchive};

use lent::clear;
use reading::scan_text;
use recordings::heading::Recording;
use rules::limits::Limits;
use rules::refusal::Refusal;
use writing::put_text;

// From one text to the other, `back` to the recording text, and its length: refused, nothing of it is kept.
fn convert(back: bool, text: &[u8], space: &mut [u8]) -> Result<usize, Refusal>
    ensures { Converted back text.now space.old result space.new }
{
    if space.len() < Limits::ARCHIVE_BYTES {
        return Err(Refusal::LentShort);
    }
    let mut masks = [0u32; Limits::CONTROLLERS];
    let mut states = [0u64; Limits::STATES];
    match scan_text(back, text, &mut masks, &mut states) {
        Ok(heading) => {
            let recording = Recording {
                controllers: heading.controllers,
                count: heading.count,
                masks: &masks[..heading.controllers],
                states: &states[..heading.count],
            };
            let end = put_text(back, recording, space);
            clear(space, end, Limits::ARCHIVE_BYTES);
            Ok(end)
        }
        Err(stop) => {
            clear(space, 0, Limits::ARCHIVE_BYTES);
            Err(stop.refusal)
        }
    }
}

// The archive text of a recording text.
pub fn to_archive(text: &[u8], archive: &mut [u8]) -> Result<usize, Refusal>
    ensures { ToArchive text.now archive.old result archive.new }
{
    convert(false, text, archive)
}

// The recording text of an archive text.
pub fn from_archive(archive: &[u8], text: &mut [u8]) -> Result<usize, Refusal>
    ensures { FromArchive archive.now text.old result text.new }
{
    convert(true, archive, text)
}
