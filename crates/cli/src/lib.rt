//! What all programs of this repository have in common: they read options and arguments, keep closed standard streams
//! from being reused, and report failures.
#![tactic(auto)]

pub mod failure;
pub mod line;
pub mod options;
pub mod requests;
pub mod standard;
pub mod words;

/// The version of the programs, which all of them print for `--version`, and which names a release. The engine's reply
/// to the command `version` is another number, always `1.0`.
pub const VERSION: &str = "1.0";
