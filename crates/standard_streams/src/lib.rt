// Standard input, output and error, as the programs use them. `input`: read to its end; `failures`: what could not be read or written; `told_line`: where a
// refused line stands; `program`: a program that is one function of its whole input.
#![tactic(auto)]

pub mod failures;
pub mod input;
pub mod program;
pub mod told_line;
