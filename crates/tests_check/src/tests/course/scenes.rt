//! Scenes are what they are said to be, however they are turned, on sizes 5, 6 and 19.
use super::{PARTS_OF_SCENE, after, board, part_of};
use crate::asserts::{assert_equal, assert_equal_for, some};
use go_base::Colour::{self, Black, White};
use go_board::PlayFault;
use gtp_check_course::boards::Board;
use gtp_check_course::lessons::Lesson;
use gtp_check_course::scenes::{CAPTURES, JOINING, KO, SUICIDE, Scene, WAYS};
use std::process::Abort;

/// How many stones each act takes, where it is legal, in all parts of a lesson and on several sizes. A handicap is on
/// nine lines and more, and none of its stones is taken.
fn assert_taken(rt: &impl Abort, lesson: Lesson, scenes: &[Scene], taken: &[Option<u32>]) {
    assert_equal(rt, scenes.len(), taken.len());
    for (number, (scene, taken)) in scenes.iter().zip(taken).enumerate() {
        for way in 0..PARTS_OF_SCENE {
            for lines in [5, 6, 19] {
                let board = board(rt, lesson, part_of(scenes.len(), number, way), lines);
                let case = (lesson, number, way, lines);
                assert_equal_for(rt, case, board.scene, *scene);
                assert_equal_for(rt, case, board.has_handicap, way >= WAYS);
                let (act, before) = some(rt, board.scene.split_last());
                let mut game = after(rt, &board, before);
                let stones = if board.has_handicap { 2 } else { 0 };
                assert_equal_for(rt, case, game.handicap(), stones);
                let act = board.way.act(*act, board.size);
                let before = game.captured(act.colour);
                let played = game.play(act.colour, act.vertex).is_ok();
                let found = game.captured(act.colour).saturating_sub(before);
                let found = played.then_some(found);
                assert_equal_for(rt, case, found, *taken);
            }
        }
    }
}

#[test]
fn acts_take_the_stones_that_they_are_to_take_and_suicides_are_refused(rt: HostRuntime) {
    let one = Some(1);
    assert_taken(&rt, Lesson::Ko, &KO, &[one, one, one, one]);
    let two = Some(2);
    let three = Some(3);
    let captures = [one, one, one, two, three, two, three, three, two, one];
    assert_taken(&rt, Lesson::Captures, &CAPTURES, &captures);
    let joined = [Some(0), Some(0), Some(3), Some(4)];
    assert_taken(&rt, Lesson::Joining, &JOINING, &joined);
    let none = [None, None, None, None, None];
    assert_taken(&rt, Lesson::Suicide, &SUICIDE, &none);
}

/// Why a play may not retake what the last act of a board's scene took, if it may not.
fn retaken(rt: &impl Abort, board: &Board, retake: (Colour, u32, u32)) -> Option<PlayFault> {
    let mut game = after(rt, board, board.scene);
    let retake = board.way.act(retake, board.size);
    game.play(retake.colour, retake.vertex).err()
}

#[test]
fn kos_may_not_be_retaken_and_what_looks_like_one_may(rt: HostRuntime) {
    let kos = [(Black, 2, 1), (Black, 1, 1), (Black, 4, 1), (Black, 4, 3)];
    for (number, retake) in kos.iter().enumerate() {
        for way in 0..PARTS_OF_SCENE {
            for lines in [5, 6, 19] {
                let board = board(&rt, Lesson::Ko, part_of(KO.len(), number, way), lines);
                let fault = retaken(&rt, &board, *retake);
                assert_equal_for(&rt, (number, way, lines), fault, Some(PlayFault::Ko));
            }
        }
    }
    for (number, retake) in [(8, (White, 2, 1)), (9, (White, 1, 1))] {
        for way in 0..PARTS_OF_SCENE {
            let part = part_of(CAPTURES.len(), number, way);
            let board = board(&rt, Lesson::Captures, part, 5);
            assert_equal_for(&rt, (number, way), retaken(&rt, &board, retake), None);
        }
    }
}
