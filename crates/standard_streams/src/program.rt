// A program that is one function of its input: it reads all of it, writes what the function makes of it, and tells where a refused line stands.
use super::failures::{Failure, say_failure};
use super::input::read_input;
use super::told_line::say_line;
use refused_line::Line;
use rules::limits::Limits;

// `print` makes the output of the input; `find` looks for the refused line, in the input with what was printed of it.
pub fn run<'a, P, F>(rt: HostRuntime, name: &str, print: P, find: F)
where
    P: FnOnce(&[u8]) -> &'a [u8],
    F: FnOnce(&[u8], &[u8]) -> Option<Line>,
    requires printable { P.IsAlwaysCallable print }
    requires findable { F.IsAlwaysCallable find }
{
    // One byte more than the limit tells an input that is too long.
    let mut space = [0u8; Limits::INPUT_BYTES + 1];
    let Ok(input) = read_input(rt.stdin(), &mut space) else {
        say_failure(rt.stderr(), name, Failure::Unread);
        return;
    };
    let printed = print(input);
    if rt.stdout().write_all(printed).is_err() {
        say_failure(rt.stderr(), name, Failure::Unwritten);
        return;
    }
    if let Some(line) = find(input, printed) {
        say_line(rt.stderr(), line);
    }
}
