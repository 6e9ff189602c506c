//! What is known of an engine's board and komi since it was started.
ghost use Rattle.std.specs.Prelude.{◌≡◌, true};
ghost use Rattle.gtp_check_judge.specs.declared.setups.Board.TheVariants.{Cleared};
ghost use Rattle.gtp_check_judge.specs.Setups.{is_clear_board, komi_after, is_final_score, needs_board, is_board_of};
ghost use Rattle.gtp_check_judge.specs.Setups.{board_after};

use crate::asking::CheckCommand;
use crate::komis::is_exact_komi;
use gtp_wire::Command;

/// What is known of the engine's board.
#[derive(Clone, Copy, Debug, PartialEq, Eq)]
pub enum Board {
    /// Nothing: the engine has accepted no size since it was started.
    Unknown,
    /// Only its size, which the engine accepted.
    Sized,
    /// All: it was cleared since.
    Cleared,
}

/// Returns whether a command is a `clear_board`.
pub(crate) fn is_clear_board(command: &CheckCommand) -> bool
    ensures { result ≡ is_clear_board command.now }
{
    match command {
        CheckCommand::Match(Command::ClearBoard) => true,
        _ => false,
    }
}

/// Returns whether the last komi that was asked is one that every engine has to accept, after this command. `is_set`
/// says whether it was so before.
pub(crate) fn komi_after(is_set: bool, command: &CheckCommand) -> bool
    ensures { result ≡ komi_after is_set command.now }
{
    match command {
        CheckCommand::Match(Command::Komi(komi)) => is_exact_komi(*komi),
        _ => is_set,
    }
}

/// Returns whether a command is a `final_score`.
pub(crate) fn is_final_score(command: &CheckCommand) -> bool
    ensures { result ≡ is_final_score command.now }
{
    match command {
        CheckCommand::FinalScore => true,
        _ => false,
    }
}

/// Returns whether what is due to a command depends on the board.
pub(crate) fn needs_board(command: &CheckCommand) -> bool
    ensures { result ≡ needs_board command.now }
{
    match command {
        CheckCommand::Match(command) => is_board_of(command),
        CheckCommand::FinalScore | CheckCommand::PlayInFull(_) | CheckCommand::GenmoveInFull(_) =>
            true,
        CheckCommand::Name
        | CheckCommand::Version
        | CheckCommand::KnownCommand(_)
        | CheckCommand::ListCommands
        | CheckCommand::Faulty(_)
        | CheckCommand::Required(_) => false,
    }
}

/// The same for a command of a match.
fn is_board_of(command: &Command) -> bool
    ensures { result ≡ is_board_of command.now }
{
    match command {
        Command::FixedHandicap(_) | Command::Play(_) | Command::Genmove(_) | Command::Undo => true,
        Command::Boardsize(_) | Command::Komi(_) | Command::ClearBoard | Command::Quit => false,
    }
}

/// Returns whether the board is known.
pub(crate) fn is_cleared(board: Board) -> bool
    ensures may { result ≡ true → board ≡ Cleared }
    ensures only { board ≡ Cleared → result ≡ true }
{
    match board {
        Board::Cleared => true,
        Board::Unknown | Board::Sized => false,
    }
}

/// Returns what is known of the board after a command that clears it or doesn't.
pub(crate) fn board_after(board: Board, clears: bool) -> Board
    ensures { result ≡ board_after board clears }
{
    match board {
        Board::Unknown => Board::Unknown,
        Board::Cleared => Board::Cleared,
        Board::Sized => { if clears { Board::Cleared } else { Board::Sized } }
    }
}
