// Follows a session on standard input, and prints a line to standard output as soon as the opening or an event has come. What could not be read or written
// it says on standard error. Bytes are moved here; what a line means is `watch_program`'s.
#![tactic(auto)]

use lines::scan;
use rules::limits::Limits;
use session_status::space::Space;
use standard_streams::failures::{Failure, say_failure};
use std::io::Read;
use watch_opening::phase::{OUTPUT_BYTES, Phase};
use watch_program::step;

// One byte more than the limit tells an opening or a new rule that is too long.
const KEPT_BYTES: usize = Limits::INPUT_BYTES + 1;

// A read takes at most so many bytes.
const CHUNK_BYTES: usize = 4096;

// The program ends after so many bytes of input, since every loop must.
const MOST_BYTES: usize = 1 << 63;

// The program between two bytes: how many are kept, and where the line begins among them.
#[derive(Drop)]
struct Watch {
    phase: Phase,
    space: Space,
    kept: [u8; KEPT_BYTES],
    from: usize,
    count: usize,
}

impl Watch {
    fn new() -> Watch {
        Watch {
            phase: Phase::Opening,
            space: Space::new(),
            kept: [0; KEPT_BYTES],
            from: 0,
            count: 0,
        }
    }

    // Keeps a byte more; where there is no space for it, in place of the last one.
    fn keep(&mut self, byte: u8) {
        let at = self.count.min(Limits::INPUT_BYTES);
        self.kept[at] = byte;
        self.count = at + 1;
    }

    // Takes the line that is kept, and writes what is printed of it at once. Of the opening or of a new rule the text so far stays.
    fn end_line(&mut self, rt: HostRuntime) {
        let count = self.count.min(KEPT_BYTES);
        let mut output = [0u8; OUTPUT_BYTES];
        let stepped = step(
            self.phase,
            &self.kept[..count],
            self.from,
            &mut self.space,
            &mut output,
        );
        self.phase = stepped.phase;
        if rt.stdout().write_all(&output[..stepped.printed]).is_err() {
            say_failure(rt.stderr(), "watch", Failure::Unwritten);
            self.phase = Phase::Ended;
        }
        let stays = matches!(self.phase, Phase::Opening | Phase::Ruling);
        self.count = if stays { count } else { 0 };
        self.from = self.count;
    }

    // Takes bytes of the input, line by line. An opening that is too long is told at once, however its line goes on.
    fn take(&mut self, rt: HostRuntime, bytes: &[u8]) {
        for byte in bytes {
            self.keep(*byte);
            let long = (self.count == KEPT_BYTES) & (self.phase == Phase::Opening);
            if (*byte == scan::NEWLINE) | long {
                self.end_line(rt);
            }
        }
    }
}

fn main(rt: HostRuntime) {
    let mut watch = Watch::new();
    let mut chunk = [0u8; CHUNK_BYTES];
    let mut left = MOST_BYTES;
    while 0 < left {
        let Ok(count) = rt.stdin().read(&mut chunk) else {
            say_failure(rt.stderr(), "watch", Failure::Unread);
            return;
        };
        if count == 0 {
            break;
        }
        watch.take(rt, &chunk[..count]);
        if watch.phase == Phase::Ended {
            return;
        }
        left = left.saturating_sub(count);
    }
    // The last line, and then the end.
    watch.end_line(rt);
    watch.end_line(rt);
}
