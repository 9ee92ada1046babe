// The kinds of decision: when two decisions are the same, and how one is written and read.
#![tactic(auto)]

pub mod bytes;
pub mod class;
pub mod handling;
pub mod kind;
pub mod queue;
