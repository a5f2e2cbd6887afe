// Makes the archive text of the recording on standard input, and prints it to standard output. On standard error it
// says where a refused line stands, or what could not be read or written.
#![tactic(auto)]

use archive_programs::{find_line, print_archive};
use report::OUTPUT_BYTES;
use standard_streams::program::run;

fn main(rt: HostRuntime) {
    let mut output = [0u8; OUTPUT_BYTES];
    run(
        rt,
        "archive",
        |input| {
            let printed = print_archive(input, &mut output);
            &output[..printed]
        },
        |input, _| find_line(false, input),
    );
}
