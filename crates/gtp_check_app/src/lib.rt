//! What the program `gtp_check` does: it checks one engine that speaks the Go Text Protocol, version 2. This crate has
//! the options, the turns of a check and its progress line; `gtp_check_course` chooses the commands, `gtp_check_judge`
//! judges the replies, and `gtp_check_texts` has what is written.
//!
//! [`run::run`] is the whole check. The program calls it with the arguments, the standard streams and the system's
//! processes.
#![tactic(auto)]

mod check;
mod closing;
mod complaining;
pub mod failure;
pub mod laws;
mod limits;
mod misplaced;
pub mod options;
pub mod plan;
pub mod progress;
pub mod run;
mod status;
pub mod streams;
pub mod tally;
mod trials;
mod unjudged;
