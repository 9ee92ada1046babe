// Writing the file of a routing table: in stages, or a whole table at once.
#![tactic(auto)]

mod place;
pub mod stage;
pub mod whole;
pub mod writer;
