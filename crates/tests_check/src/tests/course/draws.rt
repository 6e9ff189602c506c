//! The random choices of steps. The rows were worked out by hand from the output of a generator in a few lines of
//! Python, independent of the program.
use crate::asserts::{assert_equal_for, some};
use go_base::Colour::{self, Black, White};
use go_base::{Move, Size};
use go_board::Game;
use gtp_check_course::Lesson;
use gtp_check_course::actions::Question;
use gtp_check_course::boards::{Board, board_of};
use gtp_check_course::draws::Draws;
use gtp_check_course::scenes::{Way, crossing};
use gtp_check_course::stretches::Stretch;
use gtp_check_judge::CheckCommand;
use gtp_wire::Command;
use std::process::Abort;

/// A size; whether the board is full except for three points, which only Black may play; the seed and the number of the
/// step; and the random colour, column and row. A pass has no point: 0 and 0.
type Row = (u32, bool, (u32, u32), (Colour, u32, u32));

static ROWS: [Row; 12] = [
    (5, false, (1, 0), (White, 5, 3)),
    (5, false, (1, 1), (Black, 3, 4)),
    (5, false, (2, 0), (White, 1, 3)),
    (5, false, (4_294_967_295, 873_599_999), (Black, 1, 5)),
    (19, false, (1, 0), (White, 11, 2)),
    (19, false, (0, 7), (White, 1, 1)),
    (19, false, (4_294_967_295, 873_599_999), (Black, 5, 11)),
    // The first legal point is the second random point, the fourteenth and the twenty-fifth.
    (3, true, (1, 1), (Black, 3, 3)),
    (5, true, (1, 1), (Black, 2, 1)),
    (19, true, (2, 2), (Black, 1, 19)),
    // None of the thirty points is legal.
    (19, true, (1, 1), (Black, 2, 1)),
    (19, true, (1, 2), (White, 0, 0)),
];

/// A game on this board, on which all points except three are filled, or none is.
fn game_on(board: &Board, is_filled: bool) -> Game {
    let mut game = Game::new(board.size, board.komi);
    let steps = if is_filled {
        Stretch::Filled.steps()
    } else {
        0
    };
    for step in 0..steps {
        let draws = Draws { seed: 0, number: 0 };
        if let Question::Ask(CheckCommand::Match(Command::Play(made))) = Stretch::Filled.question(
            step, board, &game, draws,
        ) {
            let _ = game.play(made.colour, made.vertex);
        }
    }
    game
}

/// A colour's move at a crossing.
fn move_at(colour: Colour, column: u32, row: u32) -> Move {
    let vertex = crossing(column, row);
    Move { colour, vertex }
}

/// The question that asks for a colour's move at a crossing.
fn play_at(colour: Colour, column: u32, row: u32) -> Question {
    Question::Ask(CheckCommand::Match(Command::Play(move_at(colour, column, row))))
}

/// The random choice of a step on the row's board, and what it has to be.
fn assert_drawn(rt: &impl Abort, row: &Row) {
    let (lines, is_filled, (seed, number), (colour, column, line)) = *row;
    let size = some(rt, Size::new(lines));
    let board = Board {
        size,
        way: Way::of(0),
        ..board_of(Lesson::Genmoves, 0, Some(size))
    };
    let game = game_on(&board, is_filled);
    let draws = Draws { seed, number };
    let drawn = Stretch::Drawn(1).question(0, &board, &game, draws);
    assert_equal_for(rt, *row, drawn, play_at(colour, column, line));
    let first = Stretch::Probed(3).question(0, &board, &game, draws);
    assert_equal_for(rt, *row, first, play_at(colour, column, line));
    if !is_filled {
        let second = Stretch::Probed(3).question(1, &board, &game, draws);
        assert_equal_for(
            rt,
            *row,
            second,
            Question::Probe(move_at(colour, column, line)),
        );
    }
}

#[test]
fn the_seed_and_the_number_of_a_step_say_what_is_drawn(rt: HostRuntime) {
    for row in &ROWS {
        assert_drawn(&rt, row);
    }
}
