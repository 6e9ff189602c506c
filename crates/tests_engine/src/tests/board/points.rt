//! The points on which a colour may play, and those of the stones that the last move captured, each in one call.
use super::{new_game, new_game_under, play_all};
use crate::asserts::{assert_equal_for, assert_true, some};
use go_base::{Colour, Point, Vertex};
use go_board::KoRule;
use std::process::Abort;

/// Asserts that these are the points, given by their names with spaces between.
pub fn assert_points(rt: &impl Abort, case: &str, points: &[Point], names: &str) {
    let mut rest = points.iter();
    for name in names.split_whitespace() {
        let point = some(rt, rest.next());
        let wanted = Vertex::read(name.as_bytes());
        assert_equal_for(rt, (case, name), wanted, Some(Vertex::At(*point)));
    }
    assert_equal_for(rt, case, rest.next(), None);
}

/// The ko rule, the lines of the board, the moves, and the points on which Black may play after them, and White.
static POSITIONS: [(KoRule, u32, &str, &str, &str); 11] = [
    // The one stone would have no liberty.
    (KoRule::Simple, 1, "", "", ""),
    (KoRule::Simple, 1, "bpass wpass", "", ""),
    (KoRule::Simple, 2, "", "A1 B1 A2 B2", "A1 B1 A2 B2"),
    // Each empty corner is surrounded by Black.
    (KoRule::Simple, 2, "bB1 bA2", "A1 B2", ""),
    // Black's three stones have one liberty left: Black may not fill it, and White captures them there.
    (KoRule::Simple, 2, "bB1 bA2 bB2", "", "A1"),
    (KoRule::Simple, 2, "bA1 wB1 bA2 wB2", "A1 A2", "A1 A2"),
    (
        KoRule::Simple,
        3,
        "bA3 bB2 bC1 wA2 wB1",
        "A1 C2 B3 C3",
        "C2 B3 C3",
    ),
    // A play on B1 would recreate the board before White's capture there.
    (
        KoRule::Simple,
        3,
        "bA2 wC1 bB1 wB2 bC3 wA1",
        "C2 A3 B3",
        "B1 C2 A3 B3",
    ),
    // After two plays elsewhere it wouldn't. Either takes there, and would have no liberty elsewhere.
    (
        KoRule::Simple,
        3,
        "bA2 wC1 bB1 wB2 bC3 wA1 bB3 wC2",
        "B1",
        "A3",
    ),
    // White's play on B1 captures three stones. Black's play on A1 would then recreate the board after the first two
    // moves, which only positional superko forbids. A2, beside it, is empty.
    (
        KoRule::Simple,
        2,
        "bA1 wB1 bA2 wpass bB2 wB1",
        "A1 A2 B2",
        "A1 A2 B2",
    ),
    (
        KoRule::Positional,
        2,
        "bA1 wB1 bA2 wpass bB2 wB1",
        "A2 B2",
        "A1 A2 B2",
    ),
];

#[test]
fn each_legal_point_is_listed(rt: HostRuntime) {
    for (rule, lines, moves, black, white) in &POSITIONS {
        let mut game = new_game_under(&rt, *lines, *rule);
        play_all(&rt, &mut game, moves);
        let mut points = game.legal_points(Colour::Black);
        assert_points(&rt, moves, &points, black);
        assert_points(&rt, moves, &game.legal_points(Colour::White), white);
        // What the list held is dropped.
        game.legal_points_into(Colour::White, &mut points);
        assert_points(&rt, moves, &points, white);
    }
}

/// The lines of the board, the moves, the first and the last point on which White may play after them, and how many
/// there are.
static LARGE: [(u32, &str, &str, &str, usize); 3] = [
    (19, "", "A1", "T19", 361),
    (19, "bA1 wT19 bK10", "B1", "S19", 358),
    (25, "", "A1", "Z25", 625),
];

#[test]
fn on_large_boards_each_empty_point_is_listed(rt: HostRuntime) {
    for (lines, moves, first, last, many) in &LARGE {
        let mut game = new_game(&rt, *lines);
        play_all(&rt, &mut game, moves);
        let points = game.legal_points(Colour::White);
        assert_equal_for(&rt, moves, points.len(), *many);
        for (point, name) in [(points.first(), first), (points.last(), last)] {
            let vertex = Vertex::At(*some(&rt, point));
            let wanted = Vertex::read(name.as_bytes());
            assert_equal_for(&rt, (moves, name), wanted, Some(vertex));
        }
    }
}

/// The lines of the board, the handicap stones, the moves, and the points of the stones that the last of them captured.
static TAKEN: [(u32, u32, &str, &str); 22] = [
    (1, 0, "", ""),
    (1, 0, "bpass", ""),
    (2, 0, "bA1", ""),
    (2, 0, "bA1 wB1 bA2", ""),
    (2, 0, "bA1 wB1 bA2 wB2", "A1 A2"),
    // A pass captures none.
    (2, 0, "bA1 wB1 bA2 wB2 bpass", ""),
    // The last move is the one before, which captured none.
    (2, 0, "bA1 wB1 bA2 wB2 undo", ""),
    (2, 0, "bA1 wB1 bA2 wB2 undo wB2", "A1 A2"),
    (2, 0, "bA1 wB1 bA2 wB2 bpass undo", "A1 A2"),
    // A play that captures none, after one that did.
    (2, 0, "bA1 wB1 bA2 wB2 bA1", ""),
    (2, 0, "bA1 wB1 bA2 wB2 bA1 undo", "A1 A2"),
    // One stone captures two chains.
    (3, 0, "bA3 bB2 bC1 wA2 wB1 bA1", "B1 A2"),
    // One stone is captured, and then three in return.
    (4, 0, "bA3 bB3 bC2 bC1 wA2 wB2 bA1 wB1", "A1"),
    (4, 0, "bA3 bB3 bC2 bC1 wA2 wB2 bA1 wB1 bA1", "B1 A2 B2"),
    (4, 0, "bA3 bB3 bC2 bC1 wA2 wB2 bA1 wB1 bA1 undo", "A1"),
    // A ko is taken, and retaken after two plays elsewhere.
    (4, 0, "bA2 wC1 bB1 wB2 bD4 wA1", "B1"),
    (4, 0, "bA2 wC1 bB1 wB2 bD4 wA1 bD3 wD2", ""),
    (4, 0, "bA2 wC1 bB1 wB2 bD4 wA1 bD3 wD2 bB1", "A1"),
    // Both corners of the largest board.
    (25, 0, "bZ25 wY25 bA1 wZ24", "Z25"),
    // Handicap stones capture none.
    (19, 9, "", ""),
    (19, 9, "wA1 bA2 wpass bB1", "A1"),
    (19, 9, "wA1 bA2 wpass bB1 clear", ""),
];

#[test]
fn each_stone_that_the_last_move_took(rt: HostRuntime) {
    for (lines, stones, moves, names) in &TAKEN {
        let mut game = new_game(&rt, *lines);
        if *stones > 0 {
            assert_true(&rt, game.place_handicap(*stones).is_ok());
        }
        play_all(&rt, &mut game, moves);
        assert_points(&rt, moves, &game.taken_by_last_move(), names);
        assert_equal_for(&rt, moves, game.last_move_took(), !names.is_empty());
    }
}
