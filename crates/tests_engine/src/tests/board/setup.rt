//! Handicap stones, size and komi.
use super::{assert_board, new_game, new_game_under, play_all};
use crate::asserts::{assert_equal, assert_equal_for, some};
use go_base::{Colour, Komi, Size, Vertex};
use go_board::{HandicapFault, KoRule, NothingToUndo};

/// The moves before, the number of stones, and the error with which they are rejected.
static HANDICAPS: [(&str, u32, HandicapFault); 6] = [
    ("", 0, HandicapFault::BadNumber),
    ("", 1, HandicapFault::BadNumber),
    ("", 10, HandicapFault::BadNumber),
    ("bpass", 1, HandicapFault::NotEmpty),
    ("bA1", 2, HandicapFault::NotEmpty),
    ("wA1 undo bpass undo", 1, HandicapFault::BadNumber),
];

#[test]
fn handicap_needs_an_untouched_board(rt: HostRuntime) {
    let mut game = new_game(&rt, 9);
    for (moves, stones, fault) in &HANDICAPS {
        game.clear();
        play_all(&rt, &mut game, moves);
        let refused = game.place_handicap(*stones).err();
        assert_equal_for(&rt, (moves, stones), refused, Some(*fault));
    }
    let placed = some(&rt, game.place_handicap(9).ok());
    assert_equal(&rt, placed.len(), 9);
    let again = game.place_handicap(1).err();
    assert_equal(&rt, again, Some(HandicapFault::NotEmpty));
    assert_board(
        &rt,
        &game,
        "......... ......... ..X.X.X.. ......... ..X.X.X.. ......... ..X.X.X.. ......... .........",
    );
}

#[test]
fn handicap_stones_stay_until_a_new_size_which_keeps_the_komi_and_the_rule(rt: HostRuntime) {
    let komi = some(&rt, Komi::from_half_points(13));
    let games = [
        (KoRule::Simple, 19, ["D4", "Q16"], "wK10 undo"),
        (KoRule::Positional, 9, ["C3", "G7"], "wA1 undo"),
    ];
    for (rule, lines, names, moves) in games {
        let mut game = new_game_under(&rt, lines, rule);
        game.set_komi(komi);
        assert_equal_for(&rt, lines, game.undo(), Err(NothingToUndo));
        let points = some(&rt, game.place_handicap(2).ok());
        assert_equal_for(&rt, lines, points.len(), 2);
        assert_equal_for(&rt, lines, game.undo(), Err(NothingToUndo));
        play_all(&rt, &mut game, moves);
        assert_equal_for(&rt, lines, game.undo(), Err(NothingToUndo));
        assert_equal_for(&rt, lines, game.handicap(), 2);
        for (point, name) in points.iter().zip(&names) {
            assert_equal_for(
                &rt,
                lines,
                Vertex::read(name.as_bytes()),
                Some(Vertex::At(*point)),
            );
            assert_equal_for(&rt, lines, game.at(*point), Some(Colour::Black));
        }
        play_all(&rt, &mut game, "wA1");
        game.set_size(some(&rt, Size::new(2)));
        assert_board(&rt, &game, ".. ..");
        assert_equal_for(&rt, lines, game.handicap(), 0);
        assert_equal_for(&rt, lines, game.moves().len(), 0);
        assert_equal_for(&rt, lines, game.komi(), komi);
        assert_equal_for(&rt, lines, game.rule(), rule);
    }
    assert_equal(&rt, new_game(&rt, 4).rule(), KoRule::Simple);
}
