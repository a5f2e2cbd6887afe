// What could not be read or written, on standard error: the program's name, and the stream. Where that cannot be written either, nothing more is said.
use std::fmt;
use std::io::Stderr;

#[derive(Clone, Copy)]
pub enum Failure {
    Unread,
    Unwritten,
}

impl fmt::Display for Failure {
    fn fmt<W: fmt::Write>(&self, f: &mut fmt::Formatter<W>) -> fmt::Result {
        match self {
            Failure::Unread => write!(f, "standard input cannot be read"),
            Failure::Unwritten => write!(f, "standard output cannot be written"),
        }
    }
}

pub fn say_failure(errors: Stderr, program: &str, failure: Failure) {
    let _ = eprintln!(errors; "{program}: {failure}");
}
