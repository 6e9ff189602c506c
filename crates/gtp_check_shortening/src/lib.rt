//! Shorter conversations with an engine, which are tried instead of a long one.
//!
//! First its last commands are tried on the board as it stood before them (`standing`), and then its last games
//! (`flat`). Then delta debugging makes it shorter: a [`Reduction`] says which commands to try next, and hears what
//! came of it. It starts no engine: its caller asks the commands of each trial of a new engine, and compares how that
//! ends. Each trial leaves out a part of the shortest conversation so far: first a half, then a quarter, and so on down
//! to single commands.
#![tactic(auto)]

pub mod flat;
pub mod last_game;
mod limits;
mod parts;
pub mod played;
mod reduction;
mod standing;
pub mod superko;

pub use limits::Limits;
pub use reduction::Reduction;
