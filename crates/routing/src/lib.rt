// The vocabulary of routing tables: fields and their widths, messages, intervals, rules and refusals.
#![tactic(auto)]

pub mod ends;
pub mod refusal;
pub mod rule;
pub mod widths;
