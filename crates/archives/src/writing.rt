// An archive text, or a recording text, written from masks and states.
ghost use Rattle.printing.specs.Printing.{Printed};
ghost use Rattle.recordings.specs.Heading.{recording_in};
ghost use Rattle.archives.specs.Writing.{text_of, WriteRoom};

use recording_writer::{put_opening, put_states};
use recordings::heading::Recording;
use signals::writing::put_signals;

// Writes a text from its first byte on: a recording text where it goes `back`, else an archive text. The place after it.
#[tactic(auto, using(crate::proofs::WritingLaws::put_text_laws))]
pub fn put_text(back: bool, recording: Recording<'_>, text: &mut [u8]) -> usize
    requires { WriteRoom back (recording_in recording) text.old }
    ensures { Printed (text_of back (recording_in recording.entry)) text.old 0 result text.new }
{
    let controllers = recording.controllers;
    let at = put_opening(controllers, recording.count, recording.masks, text);
    if back {
        return put_states(controllers, recording.states, at, text);
    }
    put_signals(controllers, recording.states, at, text)
}
