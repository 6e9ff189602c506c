//! Boards that are filled, however they are turned, on sizes 3, 5, 6 and 19.
use super::{PARTS_OF_SCENE, after, asked, board, part_of, turned};
use crate::asserts::{assert_equal, assert_equal_for, assert_true};
use go_base::Colour;
use go_board::Game;
use gtp_check_course::actions::Question;
use gtp_check_course::boards::Board;
use gtp_check_course::lessons::Lesson;
use gtp_check_course::scenes::{KO, WAYS, crossing};
use gtp_check_course::stretches::Stretch;
use gtp_check_judge::CheckCommand;
use gtp_wire::Command;
use std::process::Abort;

/// The moves of a stretch, each of which is legal.
fn play_all(rt: &impl Abort, stretch: Stretch, board: &Board, game: &mut Game) {
    for step in 0..stretch.steps() {
        match asked(stretch, step, board, game) {
            Question::Ask(CheckCommand::Match(Command::Play(made))) => {
                assert_true(rt, game.play(made.colour, made.vertex).is_ok());
            }
            question => assert_equal(rt, question, Question::Nothing),
        }
    }
}

/// How many points of the board are legal for a colour.
fn legal_points(game: &Game, colour: Colour) -> u32 {
    let size = game.size().get();
    let mut legal: u32 = 0;
    for place in 0..size * size {
        if game.legal(colour, crossing(place % size + 1, place / size + 1)) {
            legal = legal.saturating_add(1);
        }
    }
    legal
}

#[test]
fn white_has_no_legal_point_until_all_stones_of_black_are_taken(rt: HostRuntime) {
    for lines in [3, 5, 6, 19] {
        for number in 0..WAYS {
            let board = turned(&rt, lines, number);
            let black = board.way.colour(Colour::Black);
            let white = board.way.colour(Colour::White);
            let mut game = Game::new(board.size, board.komi);
            play_all(&rt, Stretch::Filled, &board, &mut game);
            assert_equal_for(&rt, (lines, number), legal_points(&game, white), 0);
            assert_equal_for(&rt, (lines, number), legal_points(&game, black), 3);
            play_all(&rt, Stretch::Swept, &board, &mut game);
            assert_equal_for(&rt, (lines, number), game.captured(black), 1);
            let points = lines * lines;
            assert_equal_for(
                &rt,
                (lines, number),
                game.captured(white),
                points.saturating_sub(1),
            );
        }
    }
}

#[test]
fn the_points_that_are_left_are_played_on_an_empty_board(rt: HostRuntime) {
    for number in 0..WAYS {
        let board = turned(&rt, 5, number);
        let mut game = Game::new(board.size, board.komi);
        play_all(&rt, Stretch::Gaps, &board, &mut game);
        assert_equal_for(&rt, number, game.moves().len(), 3);
        let mut full = Game::new(board.size, board.komi);
        play_all(&rt, Stretch::Filled, &board, &mut full);
        for made in game.moves() {
            assert_true(&rt, full.legal(made.colour, made.vertex));
        }
    }
}

/// The game beside the ko of this part, once the board was filled and the ko taken, and the colour that took.
fn sealed(rt: &impl Abort, board: &Board) -> (Game, Colour) {
    let mut game = after(rt, board, board.scene);
    assert_true(rt, game.undo().is_ok());
    for step in 0..Stretch::Sealed.steps() {
        if let Question::Ask(CheckCommand::Match(Command::Play(made))) = asked(
            Stretch::Sealed,
            step,
            board,
            &game,
        ) {
            let _ = game.play(made.colour, made.vertex);
        }
    }
    play_all(rt, Stretch::Act, board, &mut game);
    let took = match game.moves().last() {
        Some(made) => made.colour,
        None => Colour::Black,
    };
    (game, took)
}

#[test]
fn beside_a_ko_on_a_full_board_the_other_colour_may_only_pass(rt: HostRuntime) {
    for lines in [5, 6, 19] {
        for number in 0..KO.len() {
            for way in 0..PARTS_OF_SCENE {
                let board = board(&rt, Lesson::Ko, part_of(KO.len(), number, way), lines);
                let (game, took) = sealed(&rt, &board);
                let found = legal_points(&game, took.other());
                assert_equal_for(&rt, (lines, number, way), found, 0);
                let answer = asked(Stretch::Answer, 0, &board, &game);
                let genmove = CheckCommand::Match(Command::Genmove(took.other()));
                assert_equal_for(&rt, (lines, number, way), answer, Question::Ask(genmove));
            }
        }
    }
}
