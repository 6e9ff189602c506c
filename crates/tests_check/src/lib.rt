//! Tests of the judge, the course, the texts, the options and the counts of `gtp_check`. A crate with tests is
//! proved twice, so the tests have a crate of their own.
#![tactic(auto)]

#[cfg(test)]
mod asserts;
#[cfg(test)]
mod tests;
