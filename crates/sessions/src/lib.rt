// A session, "the rack as it runs", in lent space: a heading of four numbers, masks, nodes and states. `opening`, `arrival`, `withdrawal`, `replacement`: the
// calls that change it, each checked whole before anything is written; `query`: both verdicts; `heading`: which number is which.
#![tactic(auto)]

pub mod arrival;
pub mod heading;
pub mod opening;
pub mod query;
pub mod replacement;
pub mod withdrawal;
