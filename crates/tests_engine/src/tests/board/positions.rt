//! What plays leave on the board, what they capture, the score, and the board as text.
use super::{assert_board, new_game, play_all};
use crate::asserts::{assert_equal_for, some};
use go_base::{Colour, Komi};

/// What is shown, the lines of the board, the moves, the board after them, and how much Black and White have captured.
static POSITIONS: [(&str, u32, &str, &str, u32, u32); 16] = [
    (
        "a point between two stones is left",
        2,
        "bB1 bA2",
        "X. .X",
        0,
        0,
    ),
    (
        "a stone that captures is no suicide",
        2,
        "bA1 wB1 bA2 wB2",
        ".O .O",
        0,
        2,
    ),
    (
        "undo brings back what was taken",
        2,
        "bA1 wB1 bA2 wB2 undo",
        "X. XO",
        0,
        0,
    ),
    (
        "one stone takes two chains",
        3,
        "bA3 bB2 bC1 wA2 wB1 bA1",
        "X.. .X. X.X",
        2,
        0,
    ),
    (
        "one stone is taken",
        4,
        "bA3 bB3 bC2 bC1 wA2 wB2 bA1 wB1",
        ".... XX.. OOX. .OX.",
        0,
        1,
    ),
    (
        "three stones taken for one are no ko",
        4,
        "bA3 bB3 bC2 bC1 wA2 wB2 bA1 wB1 bA1",
        ".... XX.. ..X. X.X.",
        3,
        1,
    ),
    ("a stone joins two", 3, "bA1 bA3 bA2", "X.. X.. X..", 0, 0),
    // A1 had no liberty left. A3, no longer of its chain, has one on B3.
    (
        "the chain falls apart",
        3,
        "bA1 bA3 bA2 undo wB1 wA2",
        "X.. O.. .O.",
        0,
        1,
    ),
    (
        "the rest is taken",
        3,
        "bA1 bA3 bA2 undo wB1 wA2 wB3",
        ".O. O.. .O.",
        0,
        2,
    ),
    (
        "one stone takes three",
        2,
        "bA1 undo wB1 wB2 wA2 bA1",
        ".. X.",
        3,
        0,
    ),
    (
        "undo brings back three",
        2,
        "bA1 undo wB1 wB2 wA2 bA1 undo",
        "OO .O",
        0,
        0,
    ),
    (
        "three are taken once more",
        2,
        "wB1 wB2 wA2 bA1 undo bA1",
        ".. X.",
        3,
        0,
    ),
    (
        "a stone is taken in a ko",
        4,
        "bA2 wC1 bB1 wB2 bD4 wA1",
        "...X .... XO.. O.O.",
        0,
        1,
    ),
    (
        "ko ends after a pass",
        4,
        "bA2 wC1 bB1 wB2 bD4 wA1 bpass bB1",
        "...X .... XO.. .XO.",
        1,
        1,
    ),
    (
        "ko ends after two passes",
        4,
        "bA2 wC1 bB1 wB2 bD4 wA1 bpass wpass bB1",
        "...X .... XO.. .XO.",
        1,
        1,
    ),
    ("passes leave the board", 1, "bpass wpass", ".", 0, 0),
];

#[test]
fn each_position_is_as_drawn(rt: HostRuntime) {
    for (case, lines, moves, drawing, black, white) in &POSITIONS {
        let mut game = new_game(&rt, *lines);
        play_all(&rt, &mut game, moves);
        assert_board(&rt, &game, drawing);
        assert_equal_for(&rt, case, game.captured(Colour::Black), *black);
        assert_equal_for(&rt, case, game.captured(Colour::White), *white);
    }
}

/// The komi in half points, the moves on three lines each way, the score in half points, and whether the game is
/// finished.
static SCORES: [(i32, &str, i32, bool); 7] = [
    (0, "", 0, false),
    (1, "", -1, false),
    (1, "bB1 bB2 bB3", 17, false),
    (1, "bB1 bB2 bB3 wpass", 17, false),
    (1, "bB1 bB2 bB3 wpass wpass", 17, true),
    // A region beside both colours counts for neither.
    (0, "bA2 wC2", 0, false),
    (0, "bA2 wC2 wB2", -2, false),
];

#[test]
fn area_and_the_end(rt: HostRuntime) {
    for (komi, moves, score, is_finished) in &SCORES {
        let mut game = new_game(&rt, 3);
        game.set_komi(some(&rt, Komi::from_half_points(*komi)));
        play_all(&rt, &mut game, moves);
        assert_equal_for(&rt, moves, game.score(), *score);
        assert_equal_for(&rt, moves, game.finished(), *is_finished);
    }
}

/// The lines of a board, the moves, and the text.
static SHOWN: [(u32, &str, &str); 5] = [
    (1, "", ". 1\nA\ncaptures B 0 W 0"),
    (2, "", ". . 2\n. . 1\nA B\ncaptures B 0 W 0"),
    (2, "bA1 wB1 bA2 wB2", ". O 2\n. O 1\nA B\ncaptures B 0 W 2"),
    (
        4,
        "bA2 wC1 bB1 wB2 bD4 wA1 bpass wpass bB1",
        ". . . X 4\n. . . . 3\nX O . . 2\n. X O . 1\nA B C D\ncaptures B 1 W 1",
    ),
    (25, "bZ10 wA9", LARGEST),
];

/// The largest board, with a stone in each of the rows 9 and 10.
const LARGEST: &str = "\
. . . . . . . . . . . . . . . . . . . . . . . . . 25
. . . . . . . . . . . . . . . . . . . . . . . . . 24
. . . . . . . . . . . . . . . . . . . . . . . . . 23
. . . . . . . . . . . . . . . . . . . . . . . . . 22
. . . . . . . . . . . . . . . . . . . . . . . . . 21
. . . . . . . . . . . . . . . . . . . . . . . . . 20
. . . . . . . . . . . . . . . . . . . . . . . . . 19
. . . . . . . . . . . . . . . . . . . . . . . . . 18
. . . . . . . . . . . . . . . . . . . . . . . . . 17
. . . . . . . . . . . . . . . . . . . . . . . . . 16
. . . . . . . . . . . . . . . . . . . . . . . . . 15
. . . . . . . . . . . . . . . . . . . . . . . . . 14
. . . . . . . . . . . . . . . . . . . . . . . . . 13
. . . . . . . . . . . . . . . . . . . . . . . . . 12
. . . . . . . . . . . . . . . . . . . . . . . . . 11
. . . . . . . . . . . . . . . . . . . . . . . . X 10
O . . . . . . . . . . . . . . . . . . . . . . . . 9
. . . . . . . . . . . . . . . . . . . . . . . . . 8
. . . . . . . . . . . . . . . . . . . . . . . . . 7
. . . . . . . . . . . . . . . . . . . . . . . . . 6
. . . . . . . . . . . . . . . . . . . . . . . . . 5
. . . . . . . . . . . . . . . . . . . . . . . . . 4
. . . . . . . . . . . . . . . . . . . . . . . . . 3
. . . . . . . . . . . . . . . . . . . . . . . . . 2
. . . . . . . . . . . . . . . . . . . . . . . . . 1
A B C D E F G H J K L M N O P Q R S T U V W X Y Z
captures B 0 W 0";

#[test]
fn boards_are_shown_as_text(rt: HostRuntime) {
    for (lines, moves, text) in &SHOWN {
        let mut game = new_game(&rt, *lines);
        play_all(&rt, &mut game, moves);
        assert_equal_for(&rt, moves, game.show().as_slice(), text.as_bytes());
    }
}
