//! The points of a board by number, lists with a value for each of them, the points of chains, and the ko point.
use super::points::assert_points;
use super::{new_game, new_game_under, play_all, point_of};
use crate::asserts::{assert_equal, assert_equal_for, assert_true};
use arrayvec::ArrayVec;
use go_base::{Colour, Point, Vertex};
use go_board::{KoRule, MOST_POINTS, PlayFault};

/// The lines of the board, a point, and its number.
static NUMBERS: [(u32, &str, Option<usize>); 12] = [
    (1, "A1", Some(0)),
    (1, "B1", None),
    (1, "A2", None),
    (3, "C1", Some(2)),
    (3, "A2", Some(3)),
    (3, "C3", Some(8)),
    (3, "D1", None),
    (19, "T1", Some(18)),
    (19, "A2", Some(19)),
    (19, "Q16", Some(300)),
    (19, "T19", Some(360)),
    (25, "Z25", Some(624)),
];

#[test]
fn points_are_numbered_row_by_row(rt: HostRuntime) {
    for (lines, name, wanted) in &NUMBERS {
        let game = new_game(&rt, *lines);
        let point = point_of(&rt, name);
        assert_equal_for(&rt, (name, *lines), game.index(point), *wanted);
        if let Some(index) = *wanted {
            assert_equal_for(&rt, (name, *lines), game.point(index), Some(point));
        }
        let many = (*lines * *lines) as usize;
        assert_equal(&rt, game.point(many), None);
        assert_equal(&rt, game.point(usize::MAX), None);
    }
}

/// The lines of the board, the moves, and a mark for each point in order: `X` for Black's stone, `O` for White's.
static STONES: [(u32, &str, &str); 4] = [
    (1, "", "."),
    (2, "bB1 wA2", ".XO."),
    (3, "bA2 wC1 bB1 wB2 bC3 wA1", "O.OXO...X"),
    (4, "bD1 wA4", "...X........O..."),
];

#[test]
fn a_board_is_listed_point_by_point(rt: HostRuntime) {
    let mut stones = ArrayVec::<Option<Colour>, MOST_POINTS>::new();
    for (lines, moves, drawing) in &STONES {
        let mut game = new_game(&rt, *lines);
        play_all(&rt, &mut game, moves);
        // What the list held from the case before is dropped.
        game.board_into(&mut stones);
        assert_equal_for(&rt, moves, stones.len(), drawing.len());
        for (stone, wanted) in stones.iter().zip(drawing.bytes()) {
            let mark = match *stone {
                Some(Colour::Black) => b'X',
                Some(Colour::White) => b'O',
                None => b'.',
            };
            assert_equal_for(&rt, moves, mark, wanted);
        }
    }
}

/// The lines of the board, the moves, and a mark for each point in order: `+` where Black may play, and where White
/// may.
static MASKS: [(u32, &str, &str, &str); 4] = [
    (1, "", ".", "."),
    (2, "bB1 bA2", "+..+", "...."),
    (2, "bB1 bA2 bB2", "....", "+..."),
    (3, "bA2 wC1 bB1 wB2 bC3 wA1", ".....+++.", ".+...+++."),
];

#[test]
fn a_mask_marks_the_legal_points(rt: HostRuntime) {
    let mut mask = ArrayVec::<bool, MOST_POINTS>::new();
    for (lines, moves, black, white) in &MASKS {
        let mut game = new_game(&rt, *lines);
        play_all(&rt, &mut game, moves);
        for (colour, drawing) in [(Colour::Black, black), (Colour::White, white)] {
            game.legal_mask_into(colour, &mut mask);
            assert_equal_for(&rt, moves, mask.len(), drawing.len());
            for (marked, wanted) in mask.iter().zip(drawing.bytes()) {
                assert_equal_for(&rt, moves, *marked, wanted == b'+');
            }
        }
    }
}

/// The moves on a board of five lines, a point, the stones of its chain, and the liberties.
static CHAINS: [(&str, &str, &str, &str); 8] = [
    ("", "C3", "", ""),
    ("bC3", "B3", "", ""),
    ("bE5", "F5", "", ""),
    ("bC3", "C3", "C3", "C2 B3 D3 C4"),
    ("bA1 bB1 bB2 wC2 wA2", "B2", "A1 B1 B2", "C1 B3"),
    ("bA1 bB1 bB2 wC2 wA2", "A2", "A2", "A3"),
    // C3 is beside two of the stones, and counts once.
    ("bD3 bC2 bD2 wC4", "D3", "C2 D2 D3", "C1 D1 B2 E2 C3 E3 D4"),
    // Another chain of the same colour isn't part of it.
    ("bD3 bC2 wC3", "D3", "D3", "D2 E3 D4"),
];

#[test]
fn a_chain_has_its_stones_and_liberties_in_order(rt: HostRuntime) {
    let mut points = ArrayVec::<Point, MOST_POINTS>::new();
    for (moves, name, stones, liberties) in &CHAINS {
        let mut game = new_game(&rt, 5);
        play_all(&rt, &mut game, moves);
        let point = point_of(&rt, name);
        // What the list held is dropped.
        game.chain_points_into(point, &mut points);
        assert_points(&rt, moves, &points, stones);
        game.chain_liberties_into(point, &mut points);
        assert_points(&rt, moves, &points, liberties);
    }
}

/// The moves by which Black captures the stone on C3 with one on D3, which White could recapture.
const TAKEN: &str = "bB3 wE3 bC2 wD2 bC4 wD4 wC3 bD3";

/// Moves after these on a board of five lines, and then the ko point of Black and of White.
static KOS: [(&str, &str, &str); 8] = [
    ("", "", "C3"),
    ("wA1", "", ""),
    ("wA1 undo", "", "C3"),
    ("wpass", "", ""),
    ("bpass", "", ""),
    ("undo", "", ""),
    // Two plays elsewhere, and White retakes the ko.
    ("wA1 bA5 wC3", "D3", ""),
    ("wA1 bA5 wC3 bE5 wE1 bD3", "", "C3"),
];

#[test]
fn a_ko_point_is_where_a_play_takes_back(rt: HostRuntime) {
    for (moves, black, white) in &KOS {
        let mut game = new_game(&rt, 5);
        play_all(&rt, &mut game, TAKEN);
        play_all(&rt, &mut game, moves);
        for (colour, name) in [(Colour::Black, black), (Colour::White, white)] {
            let found = game.ko_point(colour);
            assert_points(&rt, moves, found.as_slice(), name);
            if let Some(point) = found {
                let refused = game.refusal(colour, Vertex::At(point));
                assert_equal_for(&rt, moves, refused, Some(PlayFault::Ko));
            }
        }
    }
}

#[test]
fn positional_ko_has_the_same_ko_point(rt: HostRuntime) {
    let mut game = new_game_under(&rt, 5, KoRule::Positional);
    play_all(&rt, &mut game, TAKEN);
    let point = point_of(&rt, "C3");
    assert_equal(&rt, game.ko_point(Colour::White), Some(point));
    play_all(&rt, &mut game, "wpass");
    // The board would still be recreated, but it isn't the one before the last move.
    assert_equal(&rt, game.ko_point(Colour::White), None);
    let refused = game.refusal(Colour::White, Vertex::At(point));
    assert_equal(&rt, refused, Some(PlayFault::Ko));
}

#[test]
fn a_play_that_takes_two_leaves_no_ko_point(rt: HostRuntime) {
    let mut game = new_game(&rt, 3);
    // White's play on A1 captures B1 and C1. Black's recapture would leave another board.
    play_all(&rt, &mut game, "bB1 bC1 wB2 wC2 bA2 wA1");
    assert_true(&rt, game.ko_point(Colour::Black).is_none());
    assert_true(&rt, game.ko_point(Colour::White).is_none());
}
