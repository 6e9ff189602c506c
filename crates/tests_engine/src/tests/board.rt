//! The game: examples worked out by hand, and games of random moves compared with a simple game.
mod chains;
mod copies;
mod drawn;
mod eyes;
mod hashes;
mod lists;
mod plain;
mod playouts;
pub mod points;
mod positional;
mod positions;
mod refusals;
mod setup;

use crate::asserts::{assert_equal, assert_equal_for, assert_true, some};
use go_base::{Colour, Komi, Move, Point, Size, Vertex};
use go_board::{Game, KoRule};
use std::process::Abort;

/// A game on a board of `lines` lines each way, with no komi.
pub fn new_game(rt: &impl Abort, lines: u32) -> Game {
    let size = some(rt, Size::new(lines));
    let komi = some(rt, Komi::from_half_points(0));
    Game::new(size, komi)
}

/// A game under this ko rule, on a board of `lines` lines each way, with no komi.
pub fn new_game_under(rt: &impl Abort, lines: u32, rule: KoRule) -> Game {
    let size = some(rt, Size::new(lines));
    let komi = some(rt, Komi::from_half_points(0));
    Game::with_rule(size, komi, rule)
}

/// The point of a column and a row, which are 1 to 25.
fn at(rt: &impl Abort, column: u32, row: u32) -> Point {
    some(rt, Point::new(column, row))
}

/// The point of a name.
fn point_of(rt: &impl Abort, name: &str) -> Point {
    match some(rt, Vertex::read(name.as_bytes())) {
        Vertex::At(point) => point,
        Vertex::Pass => some(rt, None),
    }
}

/// The move of a word: the colour's letter, then the vertex, as in `bD4` and `wpass`.
fn read_move(rt: &impl Abort, word: &str) -> Move {
    let (letter, vertex) = some(rt, word.as_bytes().split_first());
    Move {
        colour: some(rt, Colour::read(&[*letter])),
        vertex: some(rt, Vertex::read(vertex)),
    }
}

/// Plays the moves of a text, separated by spaces. The word `undo` undoes one move, and `clear` all of them. Each call
/// has to succeed.
pub fn play_all(rt: &impl Abort, game: &mut Game, moves: &str) {
    for word in moves.split_whitespace() {
        if word == "undo" {
            assert_true(rt, game.undo().is_ok());
        } else if word == "clear" {
            game.clear();
        } else {
            let made = read_move(rt, word);
            assert_equal_for(rt, word, game.play(made.colour, made.vertex), Ok(()));
        }
    }
}

/// Compares each point with a drawing: the rows from the highest down, separated by spaces, with `X` for Black's stones
/// and `O` for White's.
fn assert_board(rt: &impl Abort, game: &Game, drawing: &str) {
    let lines = game.size().get();
    let mut rows = drawing.split_whitespace();
    for row in (1..=lines).rev() {
        let text = some(rt, rows.next());
        assert_equal(rt, text.len(), lines as usize);
        for (column, wanted) in (1..=lines).zip(text.bytes()) {
            let stone = match game.at(at(rt, column, row)) {
                Some(Colour::Black) => b'X',
                Some(Colour::White) => b'O',
                None => b'.',
            };
            assert_equal_for(rt, (drawing, column, row), stone, wanted);
        }
    }
    assert_equal(rt, rows.next(), None);
}
