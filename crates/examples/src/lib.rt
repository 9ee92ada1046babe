// Worked examples and refusals, as tests of the crates below.
#![tactic(auto)]

#[cfg(test)]
mod common;
#[cfg(test)]
mod fields;
#[cfg(test)]
mod reading;
#[cfg(test)]
mod writing;
