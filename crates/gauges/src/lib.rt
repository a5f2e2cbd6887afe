// Gauges of a recording text. `gauge`: a gauge, and those of a recording; `word`: the bits that gauges set; `values`: the values of an `at` line; `line`: a gauge line; `scan`: all gauge
// lines. What stands on an `at` line before its values isn't read here.
#![tactic(auto)]

pub mod gauge;
pub mod line;
pub mod scan;
pub mod values;
pub mod word;
