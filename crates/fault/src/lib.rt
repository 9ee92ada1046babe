// Why a file is refused as it is read, and as it is written.
#![tactic(auto)]

pub mod reading;
pub mod writing;
