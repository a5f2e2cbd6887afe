// The programs that read one line and print a rule's text. `typed`: `rule`, from a controller and a typed rule; `longest`: from a number of nodes; `input`,
// `print`: what they share.
#![tactic(auto)]

pub mod input;
pub mod longest;
pub mod print;
pub mod typed;
