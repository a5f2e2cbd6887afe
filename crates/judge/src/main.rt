// Judges the rule and the recording on standard input, and prints to standard output. On standard error it says where a
// refused line stands, or what could not be read or written.
#![tactic(auto)]

use judge_program::judge;
use refused_line::refused_line;
use report::{OUTPUT_BYTES, is_refused};
use standard_streams::program::run;

fn main(rt: HostRuntime) {
    let mut output = [0u8; OUTPUT_BYTES];
    run(
        rt,
        "judge",
        |input| {
            let printed = judge(input, &mut output);
            &output[..printed]
        },
        // What was accepted has no refused line, and is not read again.
        |input, printed| {
            if is_refused(printed) {
                refused_line(input)
            } else {
                None
            }
        },
    );
}
