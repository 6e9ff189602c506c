//! The program `gtp_engine`: an engine that speaks the Go Text Protocol, version 2, with the policy and the ko rule of
//! its options.
//!
//! [`run::run`] reads the options and serves one session of the engine, which calls itself stepgo. The program calls it
//! with its arguments and the standard streams. `gtp_session` has the engine's answer to each command.
#![tactic(auto)]

pub mod failure;
mod options;
pub mod run;
