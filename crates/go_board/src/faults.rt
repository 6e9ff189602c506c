//! Why a call of a game is rejected.
use thiserror::Error;

/// Why handicap stones are rejected, in the order of checking.
#[derive(Clone, Copy, PartialEq, Eq, Debug, Drop, Error)]
pub enum HandicapFault {
    /// There is a stone on the board or a move in the record.
    #[error("the board is not empty, or moves were made on it")]
    NotEmpty,
    /// The size doesn't allow this number of stones.
    #[error("the board's size does not allow this number of handicap stones")]
    BadNumber,
}

/// Why a play is rejected, in the order of checking.
#[derive(Clone, Copy, PartialEq, Eq, Debug, Drop, Error)]
pub enum PlayFault {
    /// The record has 2,000 moves.
    #[error("the record of moves is full")]
    Full,
    /// The point isn't on the board of this size.
    #[error("the point is off the board")]
    OffBoard,
    /// There is a stone on the point.
    #[error("the point is occupied")]
    Occupied,
    /// The new stone's chain would have no liberty.
    #[error("the stone would have no liberty")]
    Suicide,
    /// The ko rule forbids the resulting board.
    #[error("the board would be the same as an earlier one")]
    Ko,
}

/// The record has no move that can be undone.
#[derive(Clone, Copy, PartialEq, Eq, Debug, Drop, Error)]
#[error("there is no move to take back")]
pub struct NothingToUndo;
