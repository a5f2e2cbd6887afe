// What a recording is in code. `state`: a state's run marks and atoms; `masks`: the controllers' own atoms; `heading`: C and N, and a recording in lent space;
// `held`: the atoms that a state may not change; `check`: what refuses masks and states, one state against the prior one; `entries`: those that a heading
// counts. It reads no text and judges nothing.
#![tactic(auto)]

pub mod check;
pub mod entries;
pub mod heading;
pub mod held;
pub mod masks;
pub mod state;
