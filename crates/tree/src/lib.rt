// The all-match tree of a table's rules, in records that the caller lends. It knows intervals and rule numbers, and no decisions.
#![tactic(auto)]

pub mod all_match;
mod copy;
mod count;
mod grow;
mod look;
mod pool;
pub mod records;
pub mod space;
pub mod walk;
