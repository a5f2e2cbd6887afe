// Both judges. `whole`: of a table over the whole recording; `local`: of a rule on its own local trace; `verdicts`: what they answer. They rewrite nothing.
#![tactic(auto)]

pub mod local;
pub mod verdicts;
pub mod whole;
