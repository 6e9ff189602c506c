//! Calls of the library itself: its version, and the texts of its errors.
ghost use Rattle.std.specs.Prelude.{◌≡◌};
ghost use Rattle.vintsaky_calls.specs.Library.{library_version, sentence, Says, CauseTextCall};

use crate::causes::{Cause, cause_of};
use crate::texts::put;

/// Implements `vintsaky_interface_1`.
pub fn version() -> u32
    ensures { result ≡ library_version }
{
    0x010000
}

/// Implements `vintsaky_cause_text`.
pub fn cause_text(cause: u32, text: &mut [u8]) -> usize
    ensures { CauseTextCall cause text.old text.new result }
{
    put(said_of(cause), text)
}

/// The text of a number.
fn said_of(number: u32) -> &'static [u8]
    ensures { Says number result.now }
{
    if number == 0 {
        return b"No error.";
    }
    match cause_of(number) {
        Some(cause) => sentence(cause),
        None => b"Unknown error number.",
    }
}

/// The sentence of an error. `library/declare` writes the rows, from the comments in `causes.rt`.
fn sentence(cause: Cause) -> &'static [u8]
    ensures { result.now ≡ sentence cause }
{
    match cause {
        Cause::BadColour => b"Not a colour or side: use 1 (Black) or 2 (White).",
        Cause::BadVertex =>
            b"Not a vertex: use 256 times the row plus the column, each 1 to 25, or 0 (a pass) where allowed.",
        Cause::BadRule => b"Not a ko rule: use 1 (simple ko) or 2 (positional superko).",
        Cause::BadSize => b"The size must be 1 to 25.",
        Cause::BadKomi => b"The komi must be -1,999,999,999 to 1,999,999,999 half points.",
        Cause::BadText => b"The text can't be parsed, or isn't allowed in a reply.",
        Cause::NoRoom => b"A buffer or array is shorter than the call needs.",
        Cause::Full => b"The record is full: it has 2,000 moves, the maximum.",
        Cause::OffBoard => b"The point isn't on a board of this size.",
        Cause::Occupied => b"A stone is on the point.",
        Cause::Suicide => b"The new stone's chain would have no liberty.",
        Cause::Ko => b"The move would repeat a board that the ko rule forbids.",
        Cause::NothingToUndo => b"The record has no move to undo.",
        Cause::NotEmpty => b"The board and the record must be empty.",
        Cause::BadHandicap =>
            b"Odd sizes from 9 allow 2 to 9 stones, 7 and even sizes from 8 allow 2 to 4; never a negative number.",
        Cause::NoMove => b"The record has no move with this number, counted from 0.",
        Cause::NoStone => b"No stone is on the point.",
        Cause::NotAsked =>
            b"The engine is waiting for nothing, or for something that this call doesn't supply.",
        Cause::NoWord => b"The line has no word with this number, counted from 0 after the id.",
        Cause::NoId => b"The line or the reply has no id.",
        Cause::BadLength => b"A name must have 1 to 32 bytes.",
        Cause::BadByte => b"A name may have only bytes 33 to 126, except #.",
        Cause::OnlyDigits => b"A name can't have only digits, as an id has.",
        Cause::InTable => b"The protocol already has a command of this name.",
        Cause::AddedBefore => b"A custom command of this name was already added.",
        Cause::TooMany => b"The engine already has 32 custom commands, the maximum.",
        Cause::BadMaxMoves => b"The move limit must be 1 to 2,000.",
        Cause::BadMaxRestarts => b"The restart limit must be 0 to 1,000.",
        Cause::NotNext => b"Not the call that the match expects next.",
        Cause::NotOver => b"The match is not over yet.",
        Cause::NoLine => b"No command line was read, or the last one was too long.",
        Cause::BadCommand => b"Not a command: use 1 to 8.",
        Cause::BadId => b"The id must be 0 to 2,147,483,647, or -1 for none.",
        Cause::Down =>
            b"The side isn't up (it was not started, or it went down), or the match is over.",
        Cause::IsOver => b"The match is already over.",
        Cause::BadReason =>
            b"A reason must be empty (loss on time), or 1 to 20 letters (a-z, A-Z) and spaces; not a forfeit's cause.",
    }
}
