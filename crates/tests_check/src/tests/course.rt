//! The course, asked of engines in memory, and what its steps are.
mod beside;
mod courses;
mod draws;
mod full_boards;
mod scenes;
mod sweeps;

use crate::asserts::{assert_true, some};
use go_base::{Colour, Size};
use go_board::Game;
use gtp_check_course::actions::Question;
use gtp_check_course::boards::{Board, board_of};
use gtp_check_course::draws::Draws;
use gtp_check_course::lessons::Lesson;
use gtp_check_course::scenes::{WAYS, Way};
use gtp_check_course::stretches::Stretch;
use gtp_check_judge::CheckCommand;
use gtp_wire::Command;
use std::process::Abort;

/// A part of this lesson whose scenes are on a board of this size. No lesson has more than 300 parts.
fn board(rt: &impl Abort, lesson: Lesson, part: u32, lines: u32) -> Board {
    board_of(lesson, part.min(299), Some(some(rt, Size::new(lines))))
}

/// In how many parts each scene is asked.
const PARTS_OF_SCENE: u32 = 20;

/// The part in which a lesson of so many scenes asks the one of this number, in one of its 20 ways: the last four are
/// after a handicap. No lesson has a hundred scenes.
fn part_of(scenes: usize, number: usize, way: u32) -> u32 {
    let number = number.min(99) as u32;
    let scenes = scenes.min(99) as u32;
    match way.checked_sub(WAYS) {
        Some(given) => scenes
            .saturating_mul(WAYS)
            .saturating_add(number.saturating_mul(4))
            .saturating_add(given),
        None => number.saturating_mul(WAYS).saturating_add(way),
    }
}

/// A part on a board of this size, which is turned in the way of this number.
fn turned(rt: &impl Abort, lines: u32, number: u32) -> Board {
    Board {
        size: some(rt, Size::new(lines)),
        way: Way::of(number),
        ..board(rt, Lesson::Genmoves, 0, lines)
    }
}

/// What a step asks.
fn asked(stretch: Stretch, step: u32, board: &Board, game: &Game) -> Question {
    stretch.question(step, board, game, Draws { seed: 1, number: 0 })
}

/// The game after these moves of a scene on this board, as it is turned, and after the handicap that the part has. All
/// of them are legal.
fn after(rt: &impl Abort, board: &Board, acts: &[(Colour, u32, u32)]) -> Game {
    let mut game = Game::new(board.size, board.komi);
    if let Question::Ask(CheckCommand::Match(Command::FixedHandicap(stones))) = asked(
        Stretch::Given,
        0,
        board,
        &game,
    ) {
        assert_true(rt, game.place_handicap(stones).is_ok());
    }
    for act in acts {
        let made = board.way.act(*act, board.size);
        assert_true(rt, game.play(made.colour, made.vertex).is_ok());
    }
    game
}
