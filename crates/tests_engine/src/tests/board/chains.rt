//! The stones and the liberties of chains.
use super::{new_game, play_all};
use crate::asserts::{assert_equal_for, some};
use go_base::{Colour, Vertex};
use go_board::Chain;
use std::process::Abort;

/// The lines of the board, the moves, a point, and of the chain there its colour, its stones and its liberties.
static CHAINS: [(u32, &str, &str, Option<(Colour, u32, u32)>); 24] = [
    (1, "", "A1", None),
    (1, "", "B1", None),
    (2, "bA1", "A1", Some((Colour::Black, 1, 2))),
    (2, "bA1", "B2", None),
    (2, "bA1", "C1", None),
    (2, "bA1", "A3", None),
    (2, "bA1", "Z25", None),
    (2, "bA1 bA2", "A1", Some((Colour::Black, 2, 2))),
    (2, "bA1 bA2", "A2", Some((Colour::Black, 2, 2))),
    // Two stones that share no side are two chains.
    (2, "bA1 bB2", "B2", Some((Colour::Black, 1, 2))),
    // B2 is beside two of the stones.
    (3, "bA1 bA2 bB1", "B1", Some((Colour::Black, 3, 3))),
    // B2 is beside four of the stones, which form a ring, and is their only liberty.
    (
        3,
        "bA1 bB1 bC1 bA2 bC2 bA3 bB3 bC3",
        "C2",
        Some((Colour::Black, 8, 1)),
    ),
    (3, "bA1 wB1", "A1", Some((Colour::Black, 1, 1))),
    (3, "bA1 wB1", "B1", Some((Colour::White, 1, 2))),
    // The point of a captured corner stone becomes a liberty of the stones that captured it.
    (3, "bA1 wB1 bC3 wA2", "A1", None),
    (3, "bA1 wB1 bC3 wA2", "B1", Some((Colour::White, 1, 3))),
    (3, "bA1 wB1 bC3 wA2", "A2", Some((Colour::White, 1, 3))),
    (3, "bA1 wB1 bC3 wA2 undo", "A1", Some((Colour::Black, 1, 1))),
    // A stone joins two chains, and no longer does once it is undone.
    (3, "bA1 bC1 bB1", "C1", Some((Colour::Black, 3, 3))),
    (3, "bA1 bC1 bB1 undo", "C1", Some((Colour::Black, 1, 2))),
    (19, "bK10", "K10", Some((Colour::Black, 1, 4))),
    (19, "wT19 wS19 bS18", "T19", Some((Colour::White, 2, 2))),
    (25, "bZ25", "Z25", Some((Colour::Black, 1, 2))),
    // The end of a row and the start of the next are no neighbours.
    (25, "bZ1 bA2", "Z1", Some((Colour::Black, 1, 2))),
];

#[test]
fn each_chain_has_its_stones_and_liberties(rt: HostRuntime) {
    for (lines, moves, name, wanted) in &CHAINS {
        let mut game = new_game(&rt, *lines);
        play_all(&rt, &mut game, moves);
        let wanted = wanted.map(|(colour, stones, liberties)| Chain {
            colour,
            stones,
            liberties,
        });
        let Vertex::At(point) = some(&rt, Vertex::read(name.as_bytes())) else {
            rt.abort()
        };
        assert_equal_for(&rt, (moves, name), game.chain(point), wanted);
    }
}
