//! The events of a world with sans-IO engines.
use crate::events::Event;
use go_base::Side;
use gtp_session::policy::Choice;

/// An event in a world with sans-IO engines. One that doesn't apply does nothing.
#[derive(Clone, Copy, Debug, PartialEq, Eq)]
pub enum StepsEvent<'t> {
    /// One of the six events of every world. Bytes that reach an engine are fed to it up to the end of a line.
    Happens(Event),
    /// The caller of this side's engine makes this call.
    Calls(Side, Call<'t>),
}

/// A call of a sans-IO engine. One that the engine rejects does nothing.
#[derive(Clone, Copy, Debug, PartialEq, Eq)]
pub enum Call<'t> {
    /// Supplies the choice that is asked for.
    Choose(Choice),
    /// Answers a line whose command isn't in the table: whether with success, and with which text.
    Answer(bool, &'t [u8]),
    /// Declines such a line.
    Decline,
    /// Sets this text as the answer to `name` from now on.
    SetName(&'t [u8]),
    /// Sets this text as the answer to `version` from now on.
    SetVersion(&'t [u8]),
    /// Adds a custom command with this name.
    AddCommand(&'t [u8]),
}
