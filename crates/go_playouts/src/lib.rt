//! Seeded playouts: their random words come from the generator `Pcg64`.
//!
//! `go_board` defines what a playout is. The same game, colour, seed and limit give the same playout.
#![tactic(auto)]

pub mod laws;
mod seeded;

pub use seeded::{SeededWords, playout, rollout};
