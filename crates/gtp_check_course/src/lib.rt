//! The course of a check: it chooses the commands that one engine is asked. A [`Plan`] says what a check does.
//!
//! A [`Course`] goes through its lessons. Its caller does what `next` returns: it asks commands of an
//! [`Examiner`](gtp_check_judge::Examiner), and starts and ends the engine. It calls `leave` when something was found
//! or the engine was lost.
#![tactic(auto)]

pub mod actions;
mod beside;
pub mod boards;
mod course;
pub mod draws;
mod errors;
mod games;
mod kos;
pub mod laws;
pub mod lessons;
mod openings;
mod places;
mod plan;
pub mod scenes;
mod spellings;
pub mod stretches;
mod sweeps;
mod tables;
mod unasked;

pub use actions::Action;
pub use course::Course;
pub use lessons::{LESSON_NAMES, LESSONS, Lesson, Lessons};
pub use openings::Opening;
pub use places::Place;
pub use plan::Plan;
pub use unasked::Unasked;
