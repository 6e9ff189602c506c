//! The program `twogtp`, which plays matches between two engines that speak the Go Text Protocol, version 2. This crate
//! reads its options, starts and talks to the engines, and writes its lines; `gtp_match` is the controller.
//!
//! [`run::run`] plays all games. The program calls it with its arguments, the standard streams and the system's
//! processes.
#![tactic(auto)]

mod closing;
pub mod failure;
mod game;
mod game_text;
pub mod laws;
mod mistakes;
mod next_commands;
mod options;
mod plan;
mod processes;
pub mod run;
mod speaking;
mod task;
mod why;
mod why_text;
mod why_writing;
