//! Positional ko: plays that it forbids and simple ko allows.
use super::{new_game_under, play_all, read_move};
use crate::asserts::{assert_equal_for, assert_true};
use go_board::{KoRule, PlayFault};

/// White captures one stone at B1 by A1, in a corner where Black can recapture. Then both pass.
const LEFT: &str = "bA2 wC1 bB1 wB2 bD4 wA1 bpass wpass";

/// White plays on all points of seven lines except C3, and so captures both handicap stones, C3 and E5. Black's C3
/// captures all of White's stones.
const FILLED: &str =
    "wA1 wB1 wC1 wD1 wE1 wF1 wG1 wA2 wB2 wC2 wD2 wE2 wF2 wG2 wA3 wB3 wD3 wE3 wF3 wG3 wA4 wB4 wC4 wD4 wE4 \
    wF4 wG4 wA5 wB5 wC5 wD5 wF5 wG5 wA6 wB6 wC6 wD6 wE6 wF6 wG6 wA7 wB7 wC7 wD7 wE7 wF7 wG7 wE5 bC3 wpass";

/// A play that recreates a board: what it shows, the lines, the handicap stones, the moves, the play, and its result
/// under simple ko.
type Back = (
    &'static str,
    u32,
    u32,
    &'static str,
    &'static str,
    Result<(), PlayFault>,
);

/// Plays that recreate another board than the one before the previous move, and one that recreates that one.
static BACK: [Back; 10] = [
    ("two passes", 4, 0, LEFT, "bB1", Ok(())),
    (
        "earlier boards have their handicap",
        9,
        2,
        LEFT,
        "bB1",
        Ok(()),
    ),
    (
        "a handicap stone comes back as any other",
        9,
        2,
        "wB3 bE3 wC2 bD2 wC4 bD4 wD3 bpass wpass",
        "bC3",
        Ok(()),
    ),
    (
        "the board after the first move",
        2,
        0,
        "bA1 wB1 bA2 wB2 bA1 wA2",
        "bA1",
        Ok(()),
    ),
    (
        "the board before the first move",
        7,
        2,
        FILLED,
        "bE5",
        Ok(()),
    ),
    (
        "two stones sent and one returned",
        4,
        0,
        "bA2 wC2 bB2 wD1 wB1 bpass wA1 bC1",
        "wB1",
        Ok(()),
    ),
    (
        "a capture of two stones",
        4,
        0,
        "bA2 wC2 bB2 wD1 bC1 wB1 bpass wA1",
        "bC1",
        Ok(()),
    ),
    (
        "three kos, in turn",
        7,
        0,
        "bB1 bF1 wA7 bA2 wC1 wB2 bG2 wE1 wF2 bA6 wC7 wB6 wA1 bB7 wG1 bB1 wA7",
        "bF1",
        Ok(()),
    ),
    // The first A1 and its capture were undone, so that board may come again. The board before the capture was not
    // undone.
    (
        "boards of moves that were taken back do not count",
        2,
        0,
        "bA1 undo wB1 wB2 wA2 bA1 undo bA1 wB1 wB2",
        "wA2",
        Ok(()),
    ),
    (
        "at once",
        4,
        0,
        "bA2 wC1 bB1 wB2 bD4 wA1",
        "bB1",
        Err(PlayFault::Ko),
    ),
];

#[test]
fn boards_come_back_under_simple_ko_alone(rt: HostRuntime) {
    for (case, lines, stones, moves, last, simple) in &BACK {
        let answers = [
            (KoRule::Simple, *simple),
            (KoRule::Positional, Err(PlayFault::Ko)),
        ];
        for (rule, wanted) in answers {
            let mut game = new_game_under(&rt, *lines, rule);
            if *stones > 0 {
                assert_true(&rt, game.place_handicap(*stones).is_ok());
            }
            play_all(&rt, &mut game, moves);
            let made = read_move(&rt, last);
            let answer = game.play(made.colour, made.vertex);
            assert_equal_for(&rt, (case, rule), answer, wanted);
        }
    }
}
