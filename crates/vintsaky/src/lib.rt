//! The library for other languages: each call of `vintsaky_calls` by its C name, over a handle of what it works on.
//!
//! An object is placed in memory that the caller gives. No call allocates memory, blocks, or reads or writes anything
//! except its object and the caller's buffers.
//!
//! In C a slice is two arguments: a pointer, and the number of items there.
#![tactic(auto)]

pub mod engine;
pub mod game;
pub mod games;
pub mod laws;
pub mod library;
pub mod lines;
pub mod matches;
pub mod replies;
pub mod values;
pub mod writing;
