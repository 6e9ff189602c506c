//! Own eyes, and random moves that don't fill them.
use super::{new_game, play_all, point_of};
use crate::asserts::{assert_equal_for, some};
use go_base::{Colour, Vertex};

/// The lines of the board, the moves, a point, and whether it is then an own eye of Black, and of White.
static EYES: [(u32, &str, &str, bool, bool); 31] = [
    // In the middle: at most one diagonal of the other colour.
    (5, "bC2 bC4 bB3 bD3", "C3", true, false),
    (5, "bC2 bC4 bB3 bD3 wB2", "C3", true, false),
    (5, "bC2 bC4 bB3 bD3 wD2", "C3", true, false),
    (5, "bC2 bC4 bB3 bD3 wB4", "C3", true, false),
    (5, "bC2 bC4 bB3 bD3 wD4", "C3", true, false),
    (5, "bC2 bC4 bB3 bD3 wB2 wD4", "C3", false, false),
    (5, "bC2 bC4 bB3 bD3 wD2 wB4", "C3", false, false),
    (5, "bC2 bC4 bB3 bD3 wB4 wD4", "C3", false, false),
    (5, "bC2 bC4 bB3 bD3 bB2 bD4", "C3", true, false),
    (5, "wC2 wC4 wB3 wD3 bB2", "C3", false, true),
    (5, "wC2 wC4 wB3 wD3 bB2 bD2", "C3", false, false),
    // A neighbour is empty, or of the other colour, or the point has a stone.
    (5, "bC2 bC4 bB3", "C3", false, false),
    (5, "bC2 bC4 bB3 wD3", "C3", false, false),
    (5, "bC3 bC2 bC4 bB3 bD3", "C3", false, false),
    // At the edge: no diagonal of the other colour.
    (5, "bB1 bD1 bC2", "C1", true, false),
    (5, "bB1 bD1 bC2 wB2", "C1", false, false),
    (5, "bB1 bD1 bC2 wD2", "C1", false, false),
    (5, "bB5 bD5 bC4 wB4", "C5", false, false),
    (5, "bA2 bA4 bB3 wB4", "A3", false, false),
    (5, "bE2 bE4 bD3 bD2", "E3", true, false),
    (5, "bE2 bE4 bD3 wD2", "E3", false, false),
    // In the corner.
    (5, "bB1 bA2", "A1", true, false),
    (5, "bB1 bA2 wB2", "A1", false, false),
    (5, "bB1 bA2 bB2", "A1", true, false),
    (5, "wD1 wE2 bD2", "E1", false, false),
    (5, "wB5 wA4", "A5", false, true),
    (25, "bY25 bZ24", "Z25", true, false),
    (25, "bY25 bZ24 wY24", "Z25", false, false),
    // The only point has nothing but edge beside it.
    (1, "", "A1", true, true),
    // Off the board.
    (5, "bE5", "F5", false, false),
    (5, "", "Z25", false, false),
];

#[test]
fn own_eyes_have_own_stones_or_edge_beside_them(rt: HostRuntime) {
    for (lines, moves, name, black, white) in &EYES {
        let mut game = new_game(&rt, *lines);
        play_all(&rt, &mut game, moves);
        let point = point_of(&rt, name);
        let case = (moves, name);
        assert_equal_for(&rt, case, game.is_own_eye(Colour::Black, point), *black);
        assert_equal_for(&rt, case, game.is_own_eye(Colour::White, point), *white);
    }
}

/// The lines of the board, the moves, the colour to move, a word, and the move that it chooses.
static CHOICES: [(u32, &str, Colour, u64, &str); 16] = [
    (2, "", Colour::Black, 0, "A1"),
    (2, "", Colour::Black, 1, "B1"),
    (2, "", Colour::White, 2, "A2"),
    (2, "", Colour::White, 3, "B2"),
    (2, "", Colour::Black, 4, "A1"),
    (2, "", Colour::Black, 7, "B2"),
    (2, "", Colour::Black, 18_446_744_073_709_551_615, "B2"),
    // Both points that are left are own eyes of Black, and White may not play there.
    (2, "bB1 bA2", Colour::Black, 0, "pass"),
    (2, "bB1 bA2", Colour::White, 9, "pass"),
    // Where there is no own eye each legal point is a candidate.
    (2, "wB1", Colour::Black, 0, "A1"),
    (2, "wB1", Colour::Black, 2, "B2"),
    // The ko point isn't legal.
    (3, "bA2 wC1 bB1 wB2 bC3 wA1", Colour::Black, 0, "C2"),
    (3, "bA2 wC1 bB1 wB2 bC3 wA1", Colour::Black, 1, "A3"),
    (3, "bA2 wC1 bB1 wB2 bC3 wA1", Colour::Black, 5, "B3"),
    (3, "bA2 wC1 bB1 wB2 bC3 wA1", Colour::White, 4, "B1"),
    (1, "", Colour::Black, 0, "pass"),
];

#[test]
fn a_word_chooses_among_the_candidates_in_order(rt: HostRuntime) {
    for (lines, moves, colour, word, name) in &CHOICES {
        let mut game = new_game(&rt, *lines);
        play_all(&rt, &mut game, moves);
        let wanted = some(&rt, Vertex::read(name.as_bytes()));
        assert_equal_for(
            &rt,
            (moves, *word),
            game.random_move(*colour, *word),
            wanted,
        );
    }
}
