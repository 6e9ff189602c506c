//! Playouts by a seed, compared with those of a simple Python program, which has `Pcg64` as in the paper on PCG, finds
//! chains by flood fill, and takes the turns as the definitions say.
use super::{new_game_under, play_all, read_move};
use crate::asserts::assert_equal_for;
use go_base::{Colour, Move};
use go_board::{Game, KoRule};
use go_playouts::{playout, rollout};
use std::process::Abort;

/// The lines of the board, the moves before, the colour that begins, the seed and the limit, and then the moves and the
/// score of that program.
static MOVES: [(u32, &str, Colour, u64, u32, &str, i32); 9] = [
    (1, "", Colour::Black, 0, 10, "bpass wpass", 0),
    (2, "", Colour::Black, 3, 1000, "bB1 wA1 bA2 wpass bpass", 8),
    (
        2,
        "",
        Colour::Black,
        4,
        3000,
        "bA1 wB2 bB1 wA2 bB1 wA1 bB1 wB2 bA2 wpass bpass",
        8,
    ),
    (
        3,
        "",
        Colour::White,
        1,
        1000,
        "wB3 bA1 wC3 bC2 wB2 bB1 wA3 bC1 wA2 bC1 wA1 bB1 wC2 bB1 wC1 bB1 wA3 bC2 wA1 bB2 wA2 bC3 wpass bB3 wA3 bA2 \
         wpass bpass",
        18,
    ),
    (
        3,
        "bB2 wpass",
        Colour::Black,
        2,
        1000,
        "bA1 wA2 bB1 wC2 bA3 wC1 bC3 wC2 bB3 wpass bC1 wpass bpass",
        18,
    ),
    // The game is finished already, no move is allowed, one is.
    (3, "bA1 wpass bpass", Colour::White, 0, 9, "", 18),
    (3, "bA1", Colour::White, 5, 0, "", 18),
    (3, "bA1", Colour::White, 5, 1, "wB2", 0),
    (5, "", Colour::Black, 1, 7, "bA5 wA1 bC1 wB5 bD4 wE2 bD1", 2),
];

/// The lines of the board, the ko rule, the colour that begins, the seed and the limit, and then the number of moves
/// and the score.
static SCORES: [(u32, KoRule, Colour, u64, u32, usize, i32); 10] = [
    // The two ko rules differ here.
    (2, KoRule::Simple, Colour::Black, 5, 500, 11, 8),
    (2, KoRule::Positional, Colour::Black, 5, 500, 8, -8),
    (3, KoRule::Simple, Colour::Black, 40, 500, 27, 18),
    (3, KoRule::Positional, Colour::Black, 40, 500, 32, -18),
    (5, KoRule::Simple, Colour::Black, 1, 9999, 53, 50),
    (9, KoRule::Simple, Colour::Black, 7, 9999, 110, -42),
    (9, KoRule::Positional, Colour::White, 8, 9999, 107, -10),
    (
        13,
        KoRule::Simple,
        Colour::White,
        12345678901234567890,
        9999,
        210,
        74,
    ),
    (19, KoRule::Simple, Colour::Black, 3, 9999, 482, -198),
    (25, KoRule::Simple, Colour::White, 5, 9999, 815, -410),
];

/// The moves of the record from this number on are those of the text.
fn assert_moves(rt: &impl Abort, game: &Game, number: usize, text: &str) {
    let mut made = game.moves().iter().skip(number);
    for word in text.split_whitespace() {
        let wanted: Option<Move> = Some(read_move(rt, word));
        assert_equal_for(rt, (text, word), made.next().copied(), wanted);
    }
    assert_equal_for(rt, text, made.next().copied(), None);
}

#[test]
fn playouts_make_the_moves_of_a_plain_program(rt: HostRuntime) {
    for (lines, before, colour, seed, limit, moves, score) in &MOVES {
        let mut game = new_game_under(&rt, *lines, KoRule::Simple);
        play_all(&rt, &mut game, before);
        let number = game.moves().len();
        assert_equal_for(&rt, moves, rollout(&game, *colour, *seed, *limit), *score);
        assert_equal_for(&rt, moves, game.moves().len(), number);
        playout(&mut game, *colour, *seed, *limit);
        assert_moves(&rt, &game, number, moves);
        assert_equal_for(&rt, moves, game.score(), *score);
    }
}

#[test]
fn rollouts_have_the_scores_of_a_plain_program(rt: HostRuntime) {
    for (lines, rule, colour, seed, limit, moves, score) in &SCORES {
        let mut game = new_game_under(&rt, *lines, *rule);
        assert_equal_for(&rt, *seed, rollout(&game, *colour, *seed, *limit), *score);
        playout(&mut game, *colour, *seed, *limit);
        assert_equal_for(&rt, *seed, game.moves().len(), *moves);
        assert_equal_for(&rt, *seed, game.score(), *score);
    }
}
