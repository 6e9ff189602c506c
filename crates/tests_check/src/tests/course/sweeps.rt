//! Each point of each size, the ko of a long wait, boards that are emptied, and komis.
use super::{after, asked, board};
use crate::asserts::{assert_equal, assert_equal_for, assert_true, assert_true_for};
use go_base::{Move, Vertex};
use go_board::Game;
use gtp_check_course::actions::Question;
use gtp_check_course::boards::Board;
use gtp_check_course::lessons::{LESSONS, Lesson};
use gtp_check_course::scenes::{WAYS, Way, crossing};
use gtp_check_course::stretches::Stretch;
use gtp_check_judge::CheckCommand;
use gtp_wire::Command;
use std::process::Abort;

/// Undoes the last move.
const UNDO: Question = Question::Ask(CheckCommand::Match(Command::Undo));

/// The move that a question probes, or else the one that it asks for.
fn move_of(rt: &impl Abort, question: Question, is_probe: bool) -> Move {
    match (question, is_probe) {
        (Question::Ask(CheckCommand::Match(Command::Play(made))), false)
        | (Question::Probe(made), true) => made,
        _ => panic!(rt; "no move"),
    }
}

/// The point of this number of the board is moved on, probed by the other colour, and free again.
fn assert_looked_at(rt: &impl Abort, board: &Board, game: &Game, place: u32) {
    let lines = board.size.get();
    let point = &crossing(place % lines + 1, (place / lines).saturating_add(1));
    let step = place.saturating_mul(3);
    let made = move_of(rt, asked(Stretch::Points, step, board, game), false);
    let other = move_of(
        rt,
        asked(Stretch::Points, step.saturating_add(1), board, game),
        true,
    );
    assert_equal_for(rt, (lines, place), made.vertex, *point);
    assert_equal_for(rt, (lines, place), other.vertex, *point);
    assert_true_for(rt, (lines, place), made.colour != other.colour);
    let undo = asked(Stretch::Points, step.saturating_add(2), board, game);
    assert_equal_for(rt, (lines, place), undo, UNDO);
}

#[test]
fn each_point_of_each_size_is_looked_at(rt: HostRuntime) {
    for lines in 1..26u32 {
        let here = board(&rt, Lesson::Sizes, lines.saturating_sub(1), 5);
        assert_equal(&rt, here.size.get(), lines);
        let game = Game::new(here.size, here.komi);
        for place in 0..lines * lines {
            assert_looked_at(&rt, &here, &game, place);
        }
    }
}

/// While a ko is open its point is probed, and it may be retaken after a pass.
#[test]
fn a_wait_is_for_a_ko(rt: HostRuntime) {
    for number in 0..WAYS {
        let mut board = board(&rt, Lesson::Record, 2, 5);
        board.way = Way::of(number);
        let mut game = after(&rt, &board, board.scene);
        let retake = move_of(&rt, asked(Stretch::Waits(600), 1, &board, &game), true);
        assert_true_for(&rt, number, !game.legal(retake.colour, retake.vertex));
        let pass = move_of(&rt, asked(Stretch::Waits(600), 0, &board, &game), false);
        assert_equal_for(&rt, number, pass.vertex, Vertex::Pass);
        assert_true_for(&rt, number, game.play(pass.colour, pass.vertex).is_ok());
        assert_true_for(&rt, number, game.legal(retake.colour, retake.vertex));
    }
}

#[test]
fn a_board_is_emptied_by_as_many_undos_as_it_has_moves(rt: HostRuntime) {
    for lesson in [Lesson::Ko, Lesson::Captures, Lesson::Joining] {
        for part in 0..lesson.parts() {
            let board = board(&rt, lesson, part, 5);
            let mut game = after(&rt, &board, board.scene);
            let mut undos: usize = 0;
            for step in 0..12 {
                if asked(Stretch::Emptied(12), step, &board, &game) == UNDO {
                    assert_true(&rt, game.undo().is_ok());
                    undos = undos.saturating_add(1);
                }
            }
            assert_equal_for(&rt, (lesson, part), undos, board.scene.len());
            assert_true_for(&rt, (lesson, part), game.moves().is_empty());
        }
    }
}

/// A float of 32 bits has 24 binary digits: it represents each number of half points up to 2^24, and no odd one beyond.
#[test]
fn each_komi_is_exact_in_32_bits_and_each_inexact_one_is_not(rt: HostRuntime) {
    for part in 0..16 {
        let board = board(&rt, Lesson::Komi, part, 5);
        let half_points = board.komi.half_points().unsigned_abs();
        let most = if part < 10 { 2_000 } else { 16_777_216 };
        assert_true_for(&rt, part, half_points <= most);
        let inexact = board.inexact_komi.half_points().unsigned_abs();
        assert_true_for(&rt, part, inexact > 16_777_216 && inexact % 2 == 1);
    }
}

#[test]
fn sixteen_komis_are_asked_and_each_lesson_has_a_name_of_its_own(rt: HostRuntime) {
    for part in 0..16 {
        for other in 0..part {
            let komi = board(&rt, Lesson::Komi, part, 5).komi;
            let another = board(&rt, Lesson::Komi, other, 5).komi;
            assert_true_for(&rt, (part, other), komi != another);
        }
    }
    for (number, lesson) in LESSONS.iter().enumerate() {
        for (other, another) in LESSONS.iter().enumerate() {
            let is_same = lesson.name() == another.name();
            assert_equal_for(&rt, (*lesson, *another), is_same, number == other);
        }
    }
}

/// After the sixteen komis come three sizes that have handicaps, and as many stones as each may have.
#[test]
fn komi_is_looked_at_after_a_handicap_on_three_sizes(rt: HostRuntime) {
    assert_equal(&rt, Lesson::Komi.parts(), 19);
    for (part, lines, stones) in [(15, 5, 2), (16, 9, 3), (17, 13, 4), (18, 19, 2)] {
        let board = board(&rt, Lesson::Komi, part, 5);
        assert_equal_for(&rt, part, (board.size.get(), board.stones), (lines, stones));
        assert_equal_for(&rt, part, board.komi == board.other_komi, false);
    }
}

/// The names of the lessons, in the order of a course.
static NAMES: [&str; 15] = [
    "start",
    "placed",
    "errors",
    "sizes",
    "ko",
    "captures",
    "suicide",
    "joining",
    "handicaps",
    "komi",
    "drawn",
    "record",
    "genmoves",
    "games",
    "restarts",
];

#[test]
fn lessons_have_names_and_an_order(rt: HostRuntime) {
    assert_equal(&rt, LESSONS.len(), 15);
    for (number, (lesson, name)) in LESSONS.iter().zip(NAMES).enumerate() {
        assert_equal_for(&rt, number, lesson.name(), name);
        assert_equal_for(&rt, name, lesson.number(), number);
    }
}
