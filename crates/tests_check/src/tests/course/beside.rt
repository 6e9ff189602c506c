//! Moves on the point of a move and next to it, worked out by hand.
use super::{asked, board};
use crate::asserts::{assert_equal_for, assert_true};
use go_base::Colour::{self, Black, White};
use go_base::{Move, Vertex};
use go_board::Game;
use gtp_check_course::Lesson;
use gtp_check_course::actions::Question;
use gtp_check_course::boards::Board;
use gtp_check_course::scenes::crossing;
use gtp_check_course::stretches::Stretch;
use gtp_check_judge::CheckCommand;
use gtp_wire::Command;
use std::process::Abort;

/// A `play`, or nothing.
fn played(play: Option<(Colour, u32, u32)>) -> Question {
    let Some((colour, column, row)) = play else {
        return Question::Nothing;
    };
    let vertex = crossing(column, row);
    Question::Ask(CheckCommand::Match(Command::Play(Move { colour, vertex })))
}

/// A stretch and its step after White has played A1, Black has passed and Black has played C4 on a board of 5x5, and
/// what it asks.
type Row = (Stretch, u32, Option<(Colour, u32, u32)>);

static ROWS: [Row; 14] = [
    (Stretch::OnMove(0), 0, Some((Black, 1, 1))),
    (Stretch::OnMove(0), 1, Some((White, 1, 1))),
    (Stretch::OnMove(1), 0, None),
    (Stretch::OnMove(2), 1, Some((White, 3, 4))),
    (Stretch::OnMove(3), 0, None),
    (Stretch::AroundMove(0), 0, None),
    (Stretch::AroundMove(0), 1, Some((Black, 2, 1))),
    (Stretch::AroundMove(0), 2, None),
    (Stretch::AroundMove(0), 3, Some((Black, 1, 2))),
    (Stretch::AroundMove(1), 1, None),
    (Stretch::AroundMove(2), 0, Some((White, 2, 4))),
    (Stretch::AroundMove(2), 2, Some((White, 3, 3))),
    (Stretch::AroundMove(2), 3, Some((White, 3, 5))),
    (Stretch::AroundMove(3), 0, None),
];

/// A stretch asks what its row says.
fn assert_row(rt: &impl Abort, board: &Board, game: &Game, row: Row) {
    let (stretch, step, play) = row;
    let question = asked(stretch, step, board, game);
    assert_equal_for(rt, (stretch, step), question, played(play));
}

#[test]
fn both_colours_play_on_a_move_and_the_other_one_beside_it(rt: HostRuntime) {
    let board = board(&rt, Lesson::Placed, 0, 5);
    let mut game = Game::new(board.size, board.komi);
    assert_true(&rt, game.play(White, crossing(1, 1)).is_ok());
    assert_true(&rt, game.play(Black, Vertex::Pass).is_ok());
    assert_true(&rt, game.play(Black, crossing(3, 4)).is_ok());
    for row in &ROWS {
        assert_row(&rt, &board, &game, *row);
    }
}
