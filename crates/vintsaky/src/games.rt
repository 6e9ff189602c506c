//! Many games, for callers in other languages that step all of them at once.

mod each;
pub mod exports;
