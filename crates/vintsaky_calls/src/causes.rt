//! The errors of the calls.
ghost use Rattle.std.specs.Prelude.{◌≡◌, IfSome, IfNone};
ghost use Rattle.vintsaky_calls.specs.Codes.{cause_code, play_cause, result_code, NoCause};

use go_board::PlayFault;

/// Why a call is rejected: its error. Its number is the same in all later releases, and 0 means that the call was done.
///
/// The comment of a variant is its sentence, which `library/declare` copies to all other places that have it.
#[derive(Clone, Copy, PartialEq, Eq, Debug, Drop)]
pub enum Cause {
    /// Not a colour or side: use 1 (Black) or 2 (White).
    BadColour,
    /// Not a vertex: use 256 times the row plus the column, each 1 to 25, or 0 (a pass) where allowed.
    BadVertex,
    /// Not a ko rule: use 1 (simple ko) or 2 (positional superko).
    BadRule,
    /// The size must be 1 to 25.
    BadSize,
    /// The komi must be -1,999,999,999 to 1,999,999,999 half points.
    BadKomi,
    /// The text can't be parsed, or isn't allowed in a reply.
    BadText,
    /// A buffer or array is shorter than the call needs.
    NoRoom,
    /// The record is full: it has 2,000 moves, the maximum.
    Full,
    /// The point isn't on a board of this size.
    OffBoard,
    /// A stone is on the point.
    Occupied,
    /// The new stone's chain would have no liberty.
    Suicide,
    /// The move would repeat a board that the ko rule forbids.
    Ko,
    /// The record has no move to undo.
    NothingToUndo,
    /// The board and the record must be empty.
    NotEmpty,
    /// Odd sizes from 9 allow 2 to 9 stones, 7 and even sizes from 8 allow 2 to 4; never a negative number.
    BadHandicap,
    /// The record has no move with this number, counted from 0.
    NoMove,
    /// No stone is on the point.
    NoStone,
    /// The engine is waiting for nothing, or for something that this call doesn't supply.
    NotAsked,
    /// The line has no word with this number, counted from 0 after the id.
    NoWord,
    /// The line or the reply has no id.
    NoId,
    /// A name must have 1 to 32 bytes.
    BadLength,
    /// A name may have only bytes 33 to 126, except `#`.
    BadByte,
    /// A name can't have only digits, as an id has.
    OnlyDigits,
    /// The protocol already has a command of this name.
    InTable,
    /// A custom command of this name was already added.
    AddedBefore,
    /// The engine already has 32 custom commands, the maximum.
    TooMany,
    /// The move limit must be 1 to 2,000.
    BadMaxMoves,
    /// The restart limit must be 0 to 1,000.
    BadMaxRestarts,
    /// Not the call that the match expects next.
    NotNext,
    /// The match is not over yet.
    NotOver,
    /// No command line was read, or the last one was too long.
    NoLine,
    /// Not a command: use 1 to 8.
    BadCommand,
    /// The id must be 0 to 2,147,483,647, or -1 for none.
    BadId,
    /// The side isn't up (it was not started, or it went down), or the match is over.
    Down,
    /// The match is already over.
    IsOver,
    /// A reason must be empty (loss on time), or 1 to 20 letters (a-z, A-Z) and spaces; not a forfeit's cause.
    BadReason,
}

/// The number of a call's result: 0 if it was done, else that of its error.
pub fn code_of(made: Result<(), Cause>) -> u32
    ensures { result ≡ result_code made }
{
    match made {
        Ok(()) => 0,
        Err(cause) => u32::from(number_of(cause)),
    }
}

/// The same number as a byte.
pub(crate) fn byte_of(made: Result<(), Cause>) -> u8
    ensures { result ≡ result_code made }
{
    match made {
        Ok(()) => 0,
        Err(cause) => number_of(cause),
    }
}

/// The number of an error.
fn number_of(cause: Cause) -> u8
    ensures { result ≡ cause_code cause }
{
    match cause {
        Cause::BadColour => 1,
        Cause::BadVertex => 2,
        Cause::BadRule => 3,
        Cause::BadSize => 4,
        Cause::BadKomi => 5,
        Cause::BadText => 6,
        Cause::NoRoom => 7,
        Cause::Full => 8,
        Cause::OffBoard => 9,
        Cause::Occupied => 10,
        Cause::Suicide => 11,
        Cause::Ko => 12,
        Cause::NothingToUndo => 13,
        Cause::NotEmpty => 14,
        Cause::BadHandicap => 15,
        Cause::NoMove => 16,
        Cause::NoStone => 17,
        Cause::NotAsked => 18,
        Cause::NoWord => 19,
        Cause::NoId => 20,
        Cause::BadLength => 21,
        Cause::BadByte => 22,
        Cause::OnlyDigits => 23,
        Cause::InTable => 24,
        Cause::AddedBefore => 25,
        Cause::TooMany => 26,
        Cause::BadMaxMoves => 27,
        Cause::BadMaxRestarts => 28,
        Cause::NotNext => 29,
        Cause::NotOver => 30,
        Cause::NoLine => 31,
        Cause::BadCommand => 32,
        Cause::BadId => 33,
        Cause::Down => 34,
        Cause::IsOver => 35,
        Cause::BadReason => 36,
    }
}

/// The error of a number.
pub(crate) fn cause_of(number: u32) -> Option<Cause>
    ensures some { IfSome result (λ why. number ≡ cause_code why) }
    ensures none { IfNone result (NoCause number) }
{
    match number {
        1 => Some(Cause::BadColour),
        2 => Some(Cause::BadVertex),
        3 => Some(Cause::BadRule),
        4 => Some(Cause::BadSize),
        5 => Some(Cause::BadKomi),
        6 => Some(Cause::BadText),
        7 => Some(Cause::NoRoom),
        8 => Some(Cause::Full),
        9 => Some(Cause::OffBoard),
        10 => Some(Cause::Occupied),
        11 => Some(Cause::Suicide),
        12 => Some(Cause::Ko),
        13 => Some(Cause::NothingToUndo),
        14 => Some(Cause::NotEmpty),
        15 => Some(Cause::BadHandicap),
        16 => Some(Cause::NoMove),
        17 => Some(Cause::NoStone),
        18 => Some(Cause::NotAsked),
        19 => Some(Cause::NoWord),
        20 => Some(Cause::NoId),
        21 => Some(Cause::BadLength),
        22 => Some(Cause::BadByte),
        23 => Some(Cause::OnlyDigits),
        24 => Some(Cause::InTable),
        25 => Some(Cause::AddedBefore),
        26 => Some(Cause::TooMany),
        27 => Some(Cause::BadMaxMoves),
        28 => Some(Cause::BadMaxRestarts),
        29 => Some(Cause::NotNext),
        30 => Some(Cause::NotOver),
        31 => Some(Cause::NoLine),
        32 => Some(Cause::BadCommand),
        33 => Some(Cause::BadId),
        34 => Some(Cause::Down),
        35 => Some(Cause::IsOver),
        36 => Some(Cause::BadReason),
        _ => None,
    }
}

/// The error of an illegal play.
pub(crate) fn cause_of_play(fault: PlayFault) -> Cause
    ensures { result ≡ play_cause fault }
{
    match fault {
        PlayFault::Full => Cause::Full,
        PlayFault::OffBoard => Cause::OffBoard,
        PlayFault::Occupied => Cause::Occupied,
        PlayFault::Suicide => Cause::Suicide,
        PlayFault::Ko => Cause::Ko,
    }
}
