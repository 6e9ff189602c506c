//! Games of random moves, compared with the same games in a simple game.
use super::plain::{MOVES, PlainGame};
use super::{at, new_game, new_game_under};
use crate::asserts::{assert_equal, assert_equal_for, assert_true, some};
use arrayvec::ArrayVec;
use go_base::{Colour, Move, Vertex};
use go_board::{Game, KoRule, PlayFault};
use rand_core::{Rng, SeedableRng};
use rand_pcg::Pcg64;
use std::process::Abort;

/// The number of games of legal moves.
const GAMES: u32 = 200;

/// The most legal moves of a colour: a play on each point of the largest board, and a pass.
const LEGAL: usize = 82;

/// How often a play was rejected, by its error.
#[derive(Clone, Copy, Drop)]
struct Refused {
    off_board: u32,
    occupied: u32,
    suicide: u32,
    ko: u32,
}

/// None was rejected.
const NONE: Refused = Refused {
    off_board: 0,
    occupied: 0,
    suicide: 0,
    ko: 0,
};

/// Compares two games by their moves, captures and scores, and point by point.
fn assert_same(rt: &impl Abort, game: &Game, plain: &PlainGame) {
    assert_equal(rt, game.moves(), plain.moves.as_slice());
    let taken = (game.captured(Colour::Black), game.captured(Colour::White));
    assert_equal(rt, taken, (plain.taken_by_black, plain.taken_by_white));
    assert_equal(rt, game.score(), plain.score());
    let lines = game.size().get();
    for row in 1..=lines {
        for column in 1..=lines {
            let point = at(rt, column, row);
            assert_equal_for(rt, (column, row), game.at(point), plain.at(point));
        }
    }
}

/// Makes a move in both games. Both accept it, or both reject it with the same error, which is counted.
fn play_both(
    rt: &impl Abort,
    game: &mut Game,
    plain: &mut PlainGame,
    made: Move,
    refused: &mut Refused,
) {
    let allowed = game.legal(made.colour, made.vertex);
    let answer = game.play(made.colour, made.vertex);
    assert_equal(rt, allowed, answer.is_ok());
    assert_equal(rt, answer, plain.play(made.colour, made.vertex));
    match answer {
        Ok(()) => {}
        Err(PlayFault::OffBoard) => refused.off_board = refused.off_board.saturating_add(1),
        Err(PlayFault::Occupied) => refused.occupied = refused.occupied.saturating_add(1),
        Err(PlayFault::Suicide) => refused.suicide = refused.suicide.saturating_add(1),
        Err(PlayFault::Ko) => refused.ko = refused.ko.saturating_add(1),
        Err(PlayFault::Full) => rt.abort(),
    }
}

/// The legal moves of a colour, including the pass, among all points of the board and one line further. Both games must
/// allow the same moves, and reject the others with the same errors.
fn legal_moves(
    rt: &impl Abort,
    game: &mut Game,
    plain: &mut PlainGame,
    colour: Colour,
    refused: &mut Refused,
) -> ArrayVec<Move, LEGAL> {
    let mut legal = ArrayVec::new();
    let _ = legal.try_push(Move {
        colour,
        vertex: Vertex::Pass,
    });
    let sides = game.size().get().saturating_add(1);
    for row in 1..=sides {
        for column in 1..=sides {
            let made = Move {
                colour,
                vertex: Vertex::At(at(rt, column, row)),
            };
            let allowed = game.legal(made.colour, made.vertex);
            let wanted = plain.next(made.colour, made.vertex).is_ok();
            assert_equal_for(rt, (column, row), allowed, wanted);
            if allowed {
                let _ = legal.try_push(made);
            } else {
                play_both(rt, game, plain, made, refused);
            }
        }
    }
    legal
}

/// Undoes all moves, one after the other. On small boards the same moves must be legal after each.
fn take_all_back(rt: &impl Abort, game: &mut Game, plain: &mut PlainGame, refused: &mut Refused) {
    let small = game.size().get() <= 4;
    for _ in 0..=MOVES {
        assert_equal(rt, game.undo(), plain.undo());
        assert_same(rt, game, plain);
        if small {
            let _ = legal_moves(rt, game, plain, Colour::Black, refused);
            let _ = legal_moves(rt, game, plain, Colour::White, refused);
        }
    }
    assert_true(rt, game.moves().is_empty());
}

#[test]
fn games_of_legal_moves_go_as_plain_ones(rt: HostRuntime) {
    let mut words = Pcg64::seed_from_u64(10);
    let mut taken = 0_u32;
    let mut refused = NONE;
    for number in 0..GAMES {
        let lines = number % 9 + 1;
        // Nine games, one of each size, are under one rule, and the next nine under the other.
        let rule = if number % 18 < 9 {
            KoRule::Simple
        } else {
            KoRule::Positional
        };
        let mut game = new_game_under(&rt, lines, rule);
        let mut plain = PlainGame::new(lines, rule);
        let mut colour = Colour::Black;
        for _ in 0..MOVES {
            let _ = legal_moves(&rt, &mut game, &mut plain, colour.other(), &mut refused);
            let legal = legal_moves(&rt, &mut game, &mut plain, colour, &mut refused);
            let number = words.next_u64().checked_rem(legal.len() as u64);
            let made = some(&rt, legal.get(number.unwrap_or(0) as usize).copied());
            assert_equal(&rt, game.play(made.colour, made.vertex), Ok(()));
            assert_equal(&rt, plain.play(made.colour, made.vertex), Ok(()));
            assert_same(&rt, &game, &plain);
            colour = colour.other();
        }
        taken = taken.saturating_add(game.captured(Colour::Black));
        take_all_back(&rt, &mut game, &mut plain, &mut refused);
    }
    assert_true(&rt, taken > 0);
    assert_true(&rt, refused.occupied > 0);
    assert_true(&rt, refused.suicide > 0);
    assert_true(&rt, refused.ko > 0);
}

/// The next number below `limit`, or 0, of a linear congruential generator with 64 bits of state.
fn below(state: &mut u64, limit: u32) -> u32 {
    *state = state
        .wrapping_mul(6_364_136_223_846_793_005)
        .wrapping_add(1_442_695_040_888_963_407);
    ((*state >> 40) as u32).checked_rem(limit).unwrap_or(0)
}

/// A colour and a vertex to try: at times the point of a stone that the previous move captured, where a ko would be, at
/// times a pass or a point off the board.
fn draw(rt: &impl Abort, state: &mut u64, game: &Game) -> Move {
    if let (Some(point), Some(last)) = (game.taken_by_last_move().first(), game.moves().last()) {
        if below(state, 2) == 0 {
            return Move {
                colour: last.colour.other(),
                vertex: Vertex::At(*point),
            };
        }
    }
    let colour = if below(state, 2) == 0 {
        Colour::Black
    } else {
        Colour::White
    };
    let mut vertex = Vertex::Pass;
    if below(state, 12) != 0 {
        let sides = game.size().get().saturating_add(1);
        let column = below(state, sides).saturating_add(1);
        let row = below(state, sides).saturating_add(1);
        vertex = Vertex::At(at(rt, column, row));
    }
    Move { colour, vertex }
}

/// Tries a random move in both games.
fn play_drawn(
    rt: &impl Abort,
    state: &mut u64,
    game: &mut Game,
    plain: &mut PlainGame,
    refused: &mut Refused,
) {
    let made = draw(rt, state, game);
    play_both(rt, game, plain, made, refused);
    assert_same(rt, game, plain);
}

/// Undoes the last move of both games, if there is one.
fn undo_both(rt: &impl Abort, game: &mut Game, plain: &mut PlainGame) {
    assert_equal(rt, game.undo(), plain.undo());
    assert_same(rt, game, plain);
}

#[test]
fn random_games_go_as_plain_ones(rt: HostRuntime) {
    let mut state = 7_u64;
    let mut refused = NONE;
    for number in 0..20_u32 {
        let lines = number % 7 + 1;
        let mut game = new_game(&rt, lines);
        let mut plain = PlainGame::new(lines, KoRule::Simple);
        // On seven lines they begin with two handicap stones.
        if lines == 7 {
            assert_true(&rt, game.place_handicap(2).is_ok());
            plain.begin_with(Colour::Black, at(&rt, 3, 3));
            plain.begin_with(Colour::Black, at(&rt, 5, 5));
        }
        for _ in 0..80 {
            play_drawn(&rt, &mut state, &mut game, &mut plain, &mut refused);
            if below(&mut state, 10) == 0 {
                undo_both(&rt, &mut game, &mut plain);
            }
        }
        let mut listed = NONE;
        let _ = legal_moves(&rt, &mut game, &mut plain, Colour::Black, &mut listed);
        let _ = legal_moves(&rt, &mut game, &mut plain, Colour::White, &mut listed);
        assert_true(&rt, listed.off_board > 0);
    }
    assert_true(&rt, refused.suicide > 0);
    assert_true(&rt, refused.ko > 0);
}
