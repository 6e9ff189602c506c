//! Tests of the programs `gtp_engine` and `twogtp`: of `gtp_engine_app` and `twogtp_app`. A crate with tests is proved
//! twice, so the tests have a crate of their own.
#![tactic(auto)]

#[cfg(test)]
mod asserts;
#[cfg(test)]
mod tests;
