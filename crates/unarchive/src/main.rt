// Makes the recording text of the archive text on standard input, and prints it to standard output. On standard error it
// says where a refused line stands, or what could not be read or written.
#![tactic(auto)]

use archive_programs::{find_line, print_recording};
use report::OUTPUT_BYTES;
use standard_streams::program::run;

fn main(rt: HostRuntime) {
    let mut output = [0u8; OUTPUT_BYTES];
    run(
        rt,
        "unarchive",
        |input| {
            let printed = print_recording(input, &mut output);
            &output[..printed]
        },
        |input, _| find_line(true, input),
    );
}
