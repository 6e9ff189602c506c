//! The conversation of `gtp_check` with one engine: what the engine is asked, what it answers, what is wrong with it,
//! and what is noted of it. A conversation can be tried again with a new engine. `gtp_check_app` has the check over all
//! engines that are started.
#![tactic(auto)]

mod among;
pub mod engine;
mod fault;
mod held;
pub mod laws;
mod lines;
pub mod notes;
mod said;
pub mod trial;

pub use among::is_among;
pub use fault::Fault;
pub use lines::line_len;
pub use said::{Purpose, Said, said_at};
