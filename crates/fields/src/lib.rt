// Fields of a line. `number`: decimal and hexadecimal numbers; `form`: the forms of lines. No number is tested against a limit here.
#![tactic(auto)]

pub mod form;
pub mod number;
