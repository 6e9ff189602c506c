//! A match that a referee may end: a match controller, and a ruling by which a side loses.
//!
//! A [`RefereedMatch`] is a [`Match`](crate::Match) until a ruling is given. Then it is over, and nothing that its
//! sides do changes it.

pub mod laws;
mod refereed;
mod result_lines;
mod rulings;

pub use refereed::RefereedMatch;
pub use result_lines::result_line;
pub use rulings::{ReasonText, Ruled, Ruling, RulingFault};
