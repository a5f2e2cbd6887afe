// Tells the verdict that the first line on standard input asks for, of the rule and the recording after it, and the readings
// behind it, on standard output. On standard error it says where a refused line stands, or what could not be read or written.
#![tactic(auto)]

use program_input::asked::asked_by;
use refused_line::{Line, refused_line};
use report::is_refused;
use rules::limits::Limits;
use standard_streams::program::run;
use why_program::{OUTPUT_BYTES, why};

// Where a reading was asked for, the refused line of the texts after that line. An input that is too long has none.
fn asked_line(input: &[u8]) -> Option<Line> {
    if Limits::INPUT_BYTES < input.len() {
        return None;
    }
    refused_line(asked_by(input).ok()?.texts)
}

fn main(rt: HostRuntime) {
    let mut output = [0u8; OUTPUT_BYTES];
    run(
        rt,
        "why",
        |input| {
            let printed = why(input, &mut output);
            &output[..printed]
        },
        // What was accepted has no refused line, and is not read again.
        |input, printed| {
            if is_refused(printed) {
                asked_line(input)
            } else {
                None
            }
        },
    );
}
