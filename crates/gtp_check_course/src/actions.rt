//! What a course does next.

use go_base::{Move, Size};
use gtp_check_judge::CheckCommand;

/// What the caller does next.
#[derive(Clone, Copy, Debug, PartialEq, Eq)]
pub enum Action {
    /// Start an engine: none is up.
    Start,
    /// Send `quit` to the engine and end it. The next call is for a new one.
    Restart,
    /// End the engine without `quit`. The next call is for a new one.
    Kill,
    /// Ask the engine this command.
    Ask(CheckCommand),
    /// Wait: the engine has to answer first.
    Wait,
    /// Nothing: this step asks nothing. The next call is for the step after it.
    Skip,
    /// Stop: the course is over.
    Done,
}

/// What a step of a lesson does.
#[derive(Clone, Copy, Debug, PartialEq, Eq)]
pub enum Question {
    /// Asks a command, if it may be asked.
    Ask(CheckCommand),
    /// Tries a move on any point, and undoes it if it is legal.
    Probe(Move),
    /// Looks whether the engine accepted the size that it was asked for, and leaves the part if it didn't.
    Size(Size),
    /// Looks whether the engine accepted this size, which becomes the size of scenes if it did.
    Found(Size),
    /// Restarts the engine after a `quit`, in the first part of each lesson but the first.
    Fresh,
    /// Restarts the engine after a `quit`.
    Restart,
    /// Restarts the engine without a `quit`.
    Kill,
    /// Nothing.
    Nothing,
}
