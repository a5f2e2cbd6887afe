// Makes the rule text whose plain table grows most, of as many nodes as standard input says, and prints it to standard output.
// On standard error it says what could not be read or written.
#![tactic(auto)]

use line_programs::longest::print_longest;
use rules::limits::Limits;
use standard_streams::program::run;

fn main(rt: HostRuntime) {
    let mut output = [0u8; Limits::RULE_BYTES];
    run(
        rt,
        "longest",
        |input| {
            let printed = print_longest(input, &mut output);
            &output[..printed]
        },
        |_, _| None,
    );
}
