// The file of a routing table, read where the caller keeps it.
#![tactic(auto)]

mod checks;
pub mod lawful;
pub mod layout;
mod number;
pub mod reader;
pub mod rules;
