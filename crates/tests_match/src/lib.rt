//! Tests of the crates of a match: `gtp_match`, `gtp_process` and `gtp_world`. A crate with tests is proved twice, so
//! the tests have a crate of their own.
#![tactic(auto)]

#[cfg(test)]
mod asserts;
#[cfg(test)]
mod tests;
