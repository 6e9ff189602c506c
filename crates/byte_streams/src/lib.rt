//! Byte streams: single calls of readers and writers, counts of these calls, and writing whole texts.
#![tactic(auto)]

mod calls;
#[cfg(test)]
mod equal;
mod streams;
#[cfg(test)]
mod tests;
mod writing;

pub use calls::{CallFault, ReadOnce, WriteOnce, outcome_of};
pub use streams::{Broken, Counted, Incoming, Outgoing, send};
pub use writing::{write_or_break, write_text};
