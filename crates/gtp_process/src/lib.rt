//! Engines as processes of the operating system: how to start one, send to it, read from it and end it.
//!
//! A [`Starter`] starts a program and returns a [`Process`]. [`SystemStarter`] starts those of the operating system.
//! [`write_whole`] and [`read_some`] use a process's pipes, and retry calls that are interrupted. [`quit_and_end`] and
//! [`end`] end a process. [`push_quoted`], [`push_shown`], [`push_ending`] and [`push_unstarted`] show what a process
//! wrote, how it ended, and why none was started.
//!
//! A [`TimedStarter`] starts processes of the operating system whose answers have [`Limits`]. A process that is late is
//! cut off from then on, and how it ended says so. [`Patience`] knows how long an answer was waited for.
#![tactic(auto)]

mod causes;
mod ending;
pub mod laws;
mod limited;
mod patience;
mod pipes;
mod poll;
mod precedence;
mod quitting;
mod shown;
mod starter;
mod system;
mod timed;

pub use causes::{PipeCause, ProgramName, Unstarted};
pub use ending::{end, end_known};
pub use limited::LimitedStarter;
pub use patience::{Limits, Patience, Place};
pub use pipes::{CutOff, READ_ROOM, read_some, write_whole};
pub use precedence::Precedence;
pub use quitting::quit_and_end;
pub use shown::{pipe_text, push_ending, push_late, push_quoted, push_shown, push_unstarted};
pub use starter::{Ending, Process, StartFault, StartReason, Starter};
pub use system::{SystemProcess, SystemStarter, start_fault_of};
pub use timed::{TimedProcess, TimedStarter};
