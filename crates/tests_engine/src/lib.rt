//! Tests of the crates of an engine: `go_base`, `gtp_wire`, `go_board` and `gtp_session`. A crate with tests is proved
//! twice, so the tests have a crate of their own.
#![tactic(auto)]

#[cfg(test)]
mod asserts;
#[cfg(test)]
mod tests;
