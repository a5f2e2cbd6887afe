// Makes a rule text of the controller and the rule in one line on standard input, and prints it to standard output.
// On standard error it says what could not be read or written.
#![tactic(auto)]

use line_programs::typed::print_rule;
use rules::limits::Limits;
use standard_streams::program::run;

fn main(rt: HostRuntime) {
    let mut output = [0u8; Limits::RULE_BYTES];
    run(
        rt,
        "rule",
        |input| {
            let printed = print_rule(input, &mut output);
            &output[..printed]
        },
        |_, _| None,
    );
}
