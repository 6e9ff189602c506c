//! Sentences that say what is wrong with an engine, what is right, and what on the board decides it.
ghost use Rattle.std.specs.Prelude.{◌≡◌, ◌∷◌, [], ◌++◌, OnOk};
ghost use Rattle.gtp_check_texts.specs.reasons.History.{colour_letter};
ghost use Rattle.gtp_check_texts.specs.reasons.Reasons.{chosen_by, move_of, reason, refused_match};
ghost use Rattle.gtp_check_texts.specs.reasons.Reasons.{refused_text, undo_text};
ghost use Rattle.gtp_check_texts.specs.reasons.Reasons.{are_of_one_colour, in_a_row_line};

mod answers;
mod colours;
mod hints;
mod history;
mod illegal;
mod kinds;
mod plays;
mod rules;
mod run_on;
mod sentences;

use crate::texts::{add_all, text_if};
pub use answers::{ANSWER_ROOM, add_id_due, right_answer};
use colours::is_same;
pub use colours::{spelling_line, with_letter};
use go_base::{Colour, Move, Vertex};
use go_board::Game;
use gtp_check_judge::{Cause, CheckCommand, Kind};
use gtp_wire::Command;
pub use hints::hint_line;
use history::last_move;
use illegal::add_illegal;
pub use kinds::fault_text;
use plays::add_legal;
pub use rules::rule_text;
pub use run_on::runs_on;
use sentences::{command_sentence, kind_sentence, other_sentence};
use std::alloc::AllocError;

/// Appends why a reply is wrong, in one line without a newline.
///
/// The line says which stones a legal play captures, which move may be undone, why a move isn't legal, or which rule
/// holds. The game is that of a correct engine before the command, and `chosen` is the vertex of a `genmove`, if it is
/// known.
///
/// # Errors
///
/// If memory can't be allocated.
pub fn add_reason(
    text: &mut Vec<u8>,
    game: &Game,
    command: &CheckCommand,
    kind: Kind,
    chosen: Option<Vertex>,
) -> Result<(), AllocError>
    ensures { OnOk result (text.new.items
        ≡ text.old.items ++ reason game.now command.now kind chosen) }
{
    match kind {
        Kind::Refused => add_refused(text, game, command),
        Kind::Took(Cause::BadMove(fault)) => {
            add_illegal(text, game, move_of(command, chosen), fault)
        }
        Kind::Unlawful(fault) => add_illegal(text, game, move_of(command, chosen), fault),
        _ => text.extend_from_slice(kind_sentence(kind)),
    }
}

/// Appends why a correct engine accepts a command.
fn add_refused(text: &mut Vec<u8>, game: &Game, command: &CheckCommand) -> Result<(), AllocError>
    ensures { OnOk result (text.new.items ≡ text.old.items ++ refused_text game.now command.now) }
{
    match command {
        CheckCommand::Match(command) => add_refused_match(text, game, command),
        _ => text.extend_from_slice(other_sentence(command)),
    }
}

/// Appends why a correct engine accepts a command of a match.
fn add_refused_match(text: &mut Vec<u8>, game: &Game, command: &Command) -> Result<(), AllocError>
    ensures { OnOk result (text.new.items ≡ text.old.items ++ refused_match game.now command.now) }
{
    match command {
        Command::Play(made) => add_legal(text, game, *made),
        Command::Undo => add_undo(text, last_move(game)),
        _ => text.extend_from_slice(command_sentence(command)),
    }
}

/// Appends that there is a move to undo: the last one.
fn add_undo(text: &mut Vec<u8>, last: Option<Move>) -> Result<(), AllocError>
    ensures { OnOk result (text.new.items ≡ text.old.items ++ undo_text last) }
{
    match last {
        None => text.extend_from_slice(b"there is a move to take back"),
        Some(made) => add_all(
            text,
            &[
                b"there is a move to take back: ",
                colour_letter(made.colour),
                b" ",
                &made.vertex.write(),
            ],
        ),
    }
}

/// Returns the capital letter of a colour.
fn colour_letter(colour: Colour) -> &'static [u8]
    ensures { result.now ≡ colour_letter colour }
{
    match colour {
        Colour::Black => b"B",
        Colour::White => b"W",
    }
}

/// Returns the move that a command makes; a `genmove` makes the one that was chosen.
fn move_of(command: &CheckCommand, chosen: Option<Vertex>) -> Option<Move>
    ensures { result ≡ move_of command.now chosen }
{
    match command {
        CheckCommand::Match(Command::Play(made)) | CheckCommand::PlayInFull(made) => Some(*made),
        CheckCommand::Match(Command::Genmove(colour)) | CheckCommand::GenmoveInFull(colour) => {
            chosen_by(*colour, chosen)
        }
        _ => None,
    }
}

/// Returns the move that this colour chose, if its vertex is known.
fn chosen_by(colour: Colour, chosen: Option<Vertex>) -> Option<Move>
    ensures { result ≡ chosen_by colour chosen }
{
    let vertex = chosen?;
    Some(Move { colour, vertex })
}

/// Returns the line that moves of one colour in a row are legal, if a move was refused and the last one had its colour.
pub fn in_a_row_line(game: &Game, command: &CheckCommand, kind: Kind) -> &'static [u8]
    ensures { result.now ≡ in_a_row_line game.now command.now kind }
{
    match kind {
        Kind::Refused => text_if(
            are_of_one_colour(last_move(game), move_of(command, None)),
            b"# the last move was of the same colour: moves of one colour in a row are legal\n",
        ),
        _ => b"",
    }
}

/// Returns whether both moves are known and of one colour.
fn are_of_one_colour(last: Option<Move>, made: Option<Move>) -> bool
    ensures { result ≡ are_of_one_colour last made }
{
    match (last, made) {
        (Some(last), Some(made)) => is_same(last.colour, made.colour),
        _ => false,
    }
}
