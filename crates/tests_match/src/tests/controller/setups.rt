use super::steps::setup_with;
use crate::asserts::{assert_equal_for, some};
use go_base::{Colour, Komi, Move, Size, Vertex};
use gtp_match::{Setup, SetupFault};
use gtp_wire::Command;

/// The size, the handicap, the most moves and the most restarts of a setup, and why there is none.
static SETUPS: [(u32, u32, u32, u32, Option<SetupFault>); 9] = [
    (6, 2, 1, 0, Some(SetupFault::Handicap)),
    (19, 1, 1, 0, Some(SetupFault::Handicap)),
    (19, 0, 0, 0, Some(SetupFault::MaxMoves)),
    (19, 0, 2001, 0, Some(SetupFault::MaxMoves)),
    (19, 0, 1, 1001, Some(SetupFault::MaxRestarts)),
    (19, 0, 2000, 1000, None),
    // Several errors at once.
    (6, 2, 0, 1001, Some(SetupFault::Handicap)),
    (19, 10, 2001, 1001, Some(SetupFault::Handicap)),
    (19, 9, 0, 1001, Some(SetupFault::MaxMoves)),
];

#[test]
fn a_setup_names_the_first_cause(rt: HostRuntime) {
    for (lines, stones, moves, restarts, fault) in &SETUPS {
        let size = some(&rt, Size::new(*lines));
        let komi = some(&rt, Komi::from_half_points(0));
        let found = Setup::new(size, komi, *stones, *moves, *restarts).err();
        assert_equal_for(&rt, (*lines, *stones, *moves, *restarts), found, *fault);
    }
}

#[test]
fn the_script_has_the_handicap_if_any_and_then_the_moves(rt: HostRuntime) {
    let size = some(&rt, Size::new(9));
    let komi = some(&rt, Komi::from_half_points(13));
    let moves = [Move {
        colour: Colour::White,
        vertex: Vertex::Pass,
    }];
    let setup = setup_with(&rt, (9, 13, 2), 10, 0);
    for (number, command) in [
        (0, Some(Command::Boardsize(size))),
        (1, Some(Command::Komi(komi))),
        (2, Some(Command::ClearBoard)),
        (3, Some(Command::FixedHandicap(2))),
        (4, Some(Command::Play(moves[0]))),
        (5, None),
    ] {
        assert_equal_for(&rt, (2, number), setup.script(&moves, number), command);
    }
    let moves = [Move {
        colour: Colour::Black,
        vertex: Vertex::Pass,
    }];
    let setup = setup_with(&rt, (9, 13, 0), 10, 0);
    for (number, command) in [
        (2, Some(Command::ClearBoard)),
        (3, Some(Command::Play(moves[0]))),
        (4, None),
        (4_294_967_295, None),
    ] {
        assert_equal_for(&rt, (0, number), setup.script(&moves, number), command);
    }
}
