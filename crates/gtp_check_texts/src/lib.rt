//! The texts of `gtp_check`: the block of a complaint, with the board before the faulty command and what is right; the
//! list of lessons; the first line and the last lines of a check.
#![tactic(auto)]

mod board;
pub mod complaint;
mod junk;
pub mod last_game;
pub mod laws;
mod lines;
pub mod listing;
pub mod reasons;
pub mod summary;
mod texts;

pub use board::add_board;
pub use junk::first_line;
