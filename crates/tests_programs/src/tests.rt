//! Tests of the engine program and of the match program.

mod engine;
mod streams;
mod twogtp;
