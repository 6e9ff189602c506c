//! The calls of the library for other languages, over the crates' own types: arguments are numbers, each of which is
//! checked, and a call that is rejected returns a [`Cause`].
//!
//! The static library `vintsaky` exports each call by its C name, and passes it what it borrows from a handle. The
//! comment of an export says what its call does, and the comments here say what the numbers represent:
//! `library/declare` writes the C header from both.
#![tactic(auto)]

pub mod batches;
mod causes;
mod codes;
mod endings;
pub mod engines;
pub mod games;
pub mod laws;
pub mod library;
pub mod lines;
mod losses;
pub mod matches;
pub mod replies;
pub mod searching;
pub mod texts;
pub mod turns;
pub mod values;
pub mod writing;

pub use causes::{Cause, code_of};
