// What a rule is in code. `limits`: the limits and the refusal numbers; `choice`: choice by a test; `kind`, `node`: kinds and nodes; `headings`: what stands
// before the nodes; `node_check`, `table_check`: what refuses a node, a rule's table and the judge's. It reads no text and judges nothing.
#![tactic(auto)]

pub mod choice;
pub mod kind;
pub mod limits;
pub mod node;
pub mod node_check;
pub mod refusal;
pub mod rule;
pub mod table_check;
