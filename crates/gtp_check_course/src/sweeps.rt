//! Stretches that look at each point, wait for long, or empty the board.
ghost use Rattle.std.specs.Prelude.{◌≡◌, ◌<◌, ◌/◌, length};
ghost use Rattle.gtp_check_course.specs.Questions.{crossing_of, emptied_asked, all_back_asked};
ghost use Rattle.gtp_check_course.specs.Questions.{points_asked, retake_asked, waits_asked};

use crate::actions::Question;
use crate::boards::Board;
use crate::scenes::{Way, crossing};
use crate::stretches::{ask, colour_of, play, probe};
use go_base::{Colour, Vertex};
use go_board::Game;
use gtp_wire::Command;

/// Returns the crossing of this number, row by row, on a board of this size.
pub(crate) fn crossing_of(number: u32, size: u32) -> Vertex
    requires row { number / size < size }
    requires board { 0 < size }
    ensures { result ≡ crossing_of number size }
{
    crossing(number % size + 1, number / size + 1)
}

/// A move on a point of the board, a probe of that point by the other colour, or an `undo`.
pub(crate) fn points(step: u32, size: u32) -> Question
    requires board { 0 < size }
    ensures { result ≡ points_asked step size }
{
    let number = step / 3;
    if number / size >= size {
        return Question::Nothing;
    }
    match step % 3 {
        0 => play(colour_of(number), crossing_of(number, size)),
        1 => probe(colour_of(number).other(), crossing_of(number, size)),
        _ => ask(Command::Undo),
    }
}

/// A probe of the point of an act by the colour of the act, if there is one.
fn retake(act: Option<(Colour, u32, u32)>, board: &Board) -> Question
    ensures { result ≡ retake_asked board.now act }
{
    match act {
        Some(act) => {
            let made = board.way.act(act, board.size);
            probe(made.colour, made.vertex)
        }
        None => Question::Nothing,
    }
}

/// A pass, or a probe of the point of this act.
pub(crate) fn waits(step: u32, act: Option<(Colour, u32, u32)>, board: &Board) -> Question
    ensures { result ≡ waits_asked board.now step act }
{
    if step % 2 == 0 {
        play(colour_of(step / 2), Vertex::Pass)
    } else {
        retake(act, board)
    }
}

/// An `undo`, as long as the game has moves.
pub(crate) fn emptied(game: &Game) -> Question
    ensures { result ≡ emptied_asked (length game.now.moves) }
{
    if game.moves().is_empty() {
        Question::Nothing
    } else {
        ask(Command::Undo)
    }
}

/// An `undo` in the first of the ways, as long as the game has moves.
pub(crate) fn all_back(way: Way, game: &Game) -> Question
    ensures { result ≡ all_back_asked way (length game.now.moves) }
{
    if way.is_first() {
        emptied(game)
    } else {
        Question::Nothing
    }
}
