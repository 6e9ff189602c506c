//! Copies of a game.
use super::{assert_board, at, new_game, new_game_under, play_all, read_move};
use crate::asserts::{assert_equal, assert_equal_for, some};
use go_base::{Colour, Komi, Vertex};
use go_board::{Game, KoRule, PlayFault};
use std::process::Abort;

/// Compares all that a game returns.
fn assert_same(rt: &impl Abort, left: &Game, right: &Game) {
    assert_equal(rt, left.size(), right.size());
    assert_equal(rt, left.komi(), right.komi());
    assert_equal(rt, left.rule(), right.rule());
    assert_equal(rt, left.handicap(), right.handicap());
    assert_equal(rt, left.moves(), right.moves());
    assert_equal(rt, left.show().as_slice(), right.show().as_slice());
    let lines = left.size().get();
    for row in 1..=lines {
        for column in 1..=lines {
            let point = at(rt, column, row);
            for colour in [Colour::Black, Colour::White] {
                let refusal = left.refusal(colour, Vertex::At(point));
                assert_equal_for(
                    rt,
                    (column, row),
                    refusal,
                    right.refusal(colour, Vertex::At(point)),
                );
            }
        }
    }
}

/// White has captured the stone on B1 by A1, so Black may not recapture.
const TAKEN: &str = "bA2 wC1 bB1 wB2 bD4 wA1";

#[test]
fn a_copy_goes_on_without_its_game(rt: HostRuntime) {
    let mut game = new_game_under(&rt, 4, KoRule::Positional);
    game.set_komi(some(&rt, Komi::from_half_points(13)));
    play_all(&rt, &mut game, TAKEN);
    let mut copy = game.copied();
    assert_same(&rt, &game, &copy);
    let again = read_move(&rt, "bB1");
    assert_equal(
        &rt,
        copy.play(again.colour, again.vertex),
        Err(PlayFault::Ko),
    );
    play_all(&rt, &mut copy, "bD3 undo undo");
    assert_board(&rt, &copy, "...X .... XO.. .XO.");
    assert_equal(&rt, copy.captured(Colour::White), 0);
    assert_board(&rt, &game, "...X .... XO.. O.O.");
    assert_equal(&rt, game.captured(Colour::White), 1);
    play_all(&rt, &mut copy, "wA1");
    assert_same(&rt, &game, &copy);
}

#[test]
fn a_game_becomes_another(rt: HostRuntime) {
    let mut game = new_game(&rt, 4);
    play_all(&rt, &mut game, TAKEN);
    // Another size, rule, komi and handicap, and more moves.
    let mut other = new_game_under(&rt, 9, KoRule::Positional);
    other.set_komi(some(&rt, Komi::from_half_points(-3)));
    let placed = other.place_handicap(4).is_ok();
    assert_equal(&rt, placed, true);
    play_all(&rt, &mut other, "wE5 bE6 wA1 bA2 wpass bB1");
    let kept = other.copied();
    game.copy_from(&other);
    assert_same(&rt, &game, &kept);
    assert_same(&rt, &other, &kept);
    assert_equal(&rt, game.captured(Colour::Black), 1);
    // All moves are undone, one after the other, and the handicap stays.
    play_all(&rt, &mut game, "undo undo undo undo undo undo");
    assert_equal(&rt, game.undo().is_err(), true);
    assert_board(
        &rt,
        &game,
        "......... ......... ..X...X.. ......... ......... ......... ..X...X.. ......... .........",
    );
    assert_same(&rt, &other, &kept);
    // And a long game becomes a short one.
    game.copy_from(&new_game(&rt, 1));
    assert_same(&rt, &game, &new_game(&rt, 1));
}
