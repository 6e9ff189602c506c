//! Colours that are written in full.
ghost use Rattle.std.specs.Prelude.{◌≡◌};
ghost use Rattle.gtp_check_course.specs.Questions.{act_in_full, choice_in_full};

use crate::actions::Question;
use crate::boards::Board;
use go_base::Colour;
use gtp_check_judge::CheckCommand;

/// A move of the scene, if there is one, with its colour written in full.
pub(crate) fn play_in_full(act: Option<(Colour, u32, u32)>, board: &Board) -> Question
    ensures { result ≡ act_in_full board.now act }
{
    match act {
        Some(act) => Question::Ask(CheckCommand::PlayInFull(board.way.act(act, board.size))),
        None => Question::Nothing,
    }
}

/// A move of the engine's own, for the colour that plays this one's moves, written in full.
pub(crate) fn choose_in_full(colour: Colour, board: &Board) -> Question
    ensures { result ≡ choice_in_full board.now colour }
{
    Question::Ask(CheckCommand::GenmoveInFull(board.way.colour(colour)))
}
