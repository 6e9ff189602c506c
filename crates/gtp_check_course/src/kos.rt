//! Stretches beside a ko.
ghost use Rattle.std.specs.Prelude.{◌≡◌, ◌<◌};
ghost use Rattle.gtp_check_course.specs.Questions.{actor_pass_asked, answer_asked, is_left_empty, sealed_asked};

use crate::actions::Question;
use crate::boards::Board;
use crate::stretches::{ask, play, play_act};
use go_base::{Colour, Vertex};
use gtp_wire::Command;

/// A pass of the colour that acted.
pub(crate) fn actor_pass(act: Option<(Colour, u32, u32)>, board: &Board) -> Question
    ensures { result ≡ actor_pass_asked board.now act }
{
    match act {
        Some(act) => play(board.way.act(act, board.size).colour, Vertex::Pass),
        None => Question::Nothing,
    }
}

/// A move of the engine's own, for the colour that didn't act.
pub(crate) fn answer(act: Option<(Colour, u32, u32)>, board: &Board) -> Question
    ensures { result ≡ answer_asked board.now act }
{
    match act {
        Some(act) => {
            let colour = board.way.act(act, board.size).colour.other();
            ask(Command::Genmove(colour))
        }
        None => Question::Nothing,
    }
}

/// A move of the colour that acts on the point of this number, row by row, unless that is left empty.
pub(crate) fn sealed(step: u32, act: Option<(Colour, u32, u32)>, board: &Board) -> Question
    ensures { result ≡ sealed_asked step board.now act }
{
    let Some(act) = act else {
        return Question::Nothing;
    };
    let size = board.size.get();
    let column = step % size + 1;
    let row = step / size;
    if row >= size || is_left_empty(column, row + 1, act, board) {
        return Question::Nothing;
    }
    play_act(Some((act.0, column, row + 1)), board)
}

/// Returns whether a point is left empty beside a ko: that of the act, a gap, or the far corner.
fn is_left_empty(column: u32, row: u32, act: (Colour, u32, u32), board: &Board) -> bool
    ensures { result ≡ is_left_empty board.now act column row }
{
    let size = board.size.get();
    let (first, second) = (board.gaps.first, board.gaps.second);
    (column == act.1 && row == act.2)
        || (column == first.0 && row == first.1)
        || (column == second.0 && row == second.1)
        || (column == size && row == size)
}
