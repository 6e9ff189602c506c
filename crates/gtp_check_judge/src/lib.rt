//! The examiner of one engine: it knows what a correct engine has to answer to each command, and compares what the
//! engine answers.
//!
//! An [`Examiner`] starts no process and reads no pipe. Its caller starts an engine and calls `started`. It then calls
//! `ask` with commands that `has_room` allows, and sends the engine the lines that this returns. It passes the engine's
//! output to `heard`, chunk by chunk, until all of a chunk is used, and calls `lost` when the output ends. What the
//! examiner finds is the first reply that isn't correct.
#![tactic(auto)]

mod asking;
mod dues;
mod exam;
mod examiner;
mod judging;
mod komis;
pub mod laws;
mod listings;
mod opinions;
mod scores;
mod setups;
mod skills;
mod unanswered;

pub use asking::{CheckCommand, FaultyCommand, Known, RequiredCommand};
pub use dues::{Cause, Due};
pub use exam::{Asking, Finding, Heard};
pub use examiner::Examiner;
pub use judging::{Kind, Refusal};
pub use opinions::{Opinion, View};
pub use scores::{SaidScore, Score};
pub use setups::Board;
pub use skills::{Skill, Skills};
pub use unanswered::{Asked, MOST_UNANSWERED};
