//! With which error a play is rejected.
use super::{new_game, play_all, read_move};
use crate::asserts::{assert_equal, assert_equal_for};
use go_base::{Colour, Move, Vertex};
use go_board::{Game, HandicapFault, NothingToUndo, PlayFault};
use std::process::Abort;
use std::test::Fail;

/// Asks for the error of a play beforehand, then plays. Either both give the same error and the game stays, or there is
/// none and the play is accepted.
fn assert_refusal(rt: &impl Abort, game: &mut Game, word: &str, fault: Option<PlayFault>) {
    let made = read_move(rt, word);
    let before = game.show();
    let moves = game.moves().len();
    assert_equal_for(rt, word, game.refusal(made.colour, made.vertex), fault);
    let legal = game.legal(made.colour, made.vertex);
    assert_equal_for(rt, word, legal, fault.is_none());
    let answer = game.play(made.colour, made.vertex);
    assert_equal_for(rt, word, answer.err(), fault);
    if fault.is_some() {
        assert_equal_for(rt, word, game.show().as_slice(), before.as_slice());
        assert_equal_for(rt, word, game.moves().len(), moves);
    }
}

/// White captures the stone on B1 by A1.
const TAKEN: &str = "bA2 wC1 bB1 wB2 bC3 wA1";

/// The lines of the board, the moves, the play, and the error with which it is rejected.
static PLAYS: [(u32, &str, &str, Option<PlayFault>); 17] = [
    (2, "bB1 bA2", "wA1", Some(PlayFault::Suicide)),
    (2, "bB1 bA2", "bA1", None),
    (2, "bB1 bA2", "wC1", Some(PlayFault::OffBoard)),
    (2, "bB1 bA2", "wA3", Some(PlayFault::OffBoard)),
    (2, "bB1 bA2", "wB1", Some(PlayFault::Occupied)),
    (2, "bB1 bA2", "bA2", Some(PlayFault::Occupied)),
    (2, "bB1 bA2", "wB2", Some(PlayFault::Suicide)),
    (3, "bA3 bB2 bC1 wA2 wB1", "wA1", Some(PlayFault::Suicide)),
    // The last column of the largest board is an edge.
    (25, "bY1 bZ2", "wZ1", Some(PlayFault::Suicide)),
    (3, TAKEN, "bD1", Some(PlayFault::OffBoard)),
    (3, TAKEN, "bA1", Some(PlayFault::Occupied)),
    (3, TAKEN, "bB1", Some(PlayFault::Ko)),
    (3, TAKEN, "wB1", None),
    (3, TAKEN, "bB3", None),
    (3, TAKEN, "bpass", None),
    (3, "bA2 wC1 bB1 wB2 bC3 wA1 bB3 wC2", "bB1", None),
    (4, "bA2 wC1 bB1 wB2 bD4 wA1", "bB1", Some(PlayFault::Ko)),
];

#[test]
fn each_refusal_of_a_play(rt: HostRuntime) {
    for (lines, moves, word, fault) in &PLAYS {
        let mut game = new_game(&rt, *lines);
        play_all(&rt, &mut game, moves);
        assert_refusal(&rt, &mut game, word, *fault);
    }
}

/// Plays on a full record, and the error returned for each. A full record is no error here; the others are returned as
/// ever.
static FULL: [(&str, Option<PlayFault>); 3] = [
    ("bpass", None),
    ("wA1", None),
    ("bZ25", Some(PlayFault::OffBoard)),
];

#[test]
fn a_full_record_refuses_first(rt: HostRuntime) {
    let mut game = new_game(&rt, 19);
    for _ in 0..2000 {
        assert_equal(&rt, game.play(Colour::Black, Vertex::Pass), Ok(()));
    }
    for (word, refusal) in &FULL {
        let made = read_move(&rt, word);
        let answer = game.play(made.colour, made.vertex);
        assert_equal_for(&rt, word, answer, Err(PlayFault::Full));
        assert_equal_for(&rt, word, game.refusal(made.colour, made.vertex), *refusal);
        let legal = game.legal(made.colour, made.vertex);
        assert_equal_for(&rt, word, legal, refusal.is_none());
    }
    assert_equal(&rt, game.moves().len(), 2000);
    let pass = Move {
        colour: Colour::Black,
        vertex: Vertex::Pass,
    };
    assert_equal(&rt, game.undo(), Ok(pass));
    assert_refusal(&rt, &mut game, "bZ25", Some(PlayFault::OffBoard));
    assert_refusal(&rt, &mut game, "bpass", None);
    assert_equal(&rt, game.moves().len(), 2000);
}

/// Why handicap stones are rejected, and the text of each error.
static HANDICAP_TEXTS: [(HandicapFault, &str); 2] = [
    (
        HandicapFault::NotEmpty,
        "the board is not empty, or moves were made on it",
    ),
    (
        HandicapFault::BadNumber,
        "the board's size does not allow this number of handicap stones",
    ),
];

/// Why plays are rejected, and the text of each error.
static PLAY_TEXTS: [(PlayFault, &str); 5] = [
    (PlayFault::Full, "the record of moves is full"),
    (PlayFault::OffBoard, "the point is off the board"),
    (PlayFault::Occupied, "the point is occupied"),
    (PlayFault::Suicide, "the stone would have no liberty"),
    (
        PlayFault::Ko,
        "the board would be the same as an earlier one",
    ),
];

#[test]
fn each_fault_has_its_text(rt: HostRuntime) -> Result<(), Fail> {
    for (fault, text) in &HANDICAP_TEXTS {
        assert_equal(&rt, fault.to_string(rt.alloc())?.as_str(), text);
    }
    for (fault, text) in &PLAY_TEXTS {
        assert_equal(&rt, fault.to_string(rt.alloc())?.as_str(), text);
    }
    let nothing = NothingToUndo.to_string(rt.alloc())?;
    assert_equal(&rt, nothing.as_str(), "there is no move to take back");
    Ok(())
}
