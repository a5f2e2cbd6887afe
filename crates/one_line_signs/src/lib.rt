// A rule in one line, flat. `sign`, `token`, `scan`: from bytes to signs; `tally`, `refusal`: which of 15, 16 and 2 refuses them, in one pass. No tree is made
// here.
#![tactic(auto)]

pub mod refusal;
pub mod scan;
pub mod sign;
pub mod tally;
pub mod token;
