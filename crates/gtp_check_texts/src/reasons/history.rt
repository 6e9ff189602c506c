//! What earlier moves have to do with a play.
ghost use Rattle.std.specs.Prelude.{◌≡◌, ◌++◌, OnOk};
ghost use Rattle.go_base.specs.Decide.{holds};
ghost use Rattle.go_board.specs.Game.{without_last};
ghost use Rattle.go_board.specs.decisions.Game.{legal?};
ghost use Rattle.gtp_check_texts.specs.reasons.History.{emptied_at, emptied_by, emptied_text, is_lifted, is_now_legal};
ghost use Rattle.gtp_check_texts.specs.reasons.History.{last_move, last_vertex};

use super::colour_letter;
use crate::texts::add_all;
use go_base::{Colour, Move, Point, Vertex};
use go_board::Game;
use std::alloc::AllocError;

/// Returns the move that took the stone which was last on a point that is empty, if one did.
pub(crate) fn emptied_by(game: &Game, vertex: Vertex) -> Option<Move>
    ensures { result ≡ emptied_by game.now vertex }
{
    match vertex {
        Vertex::Pass => None,
        Vertex::At(point) => emptied_at(game, point),
    }
}

/// Returns the move that took the stone which was last on this point, if one did.
fn emptied_at(game: &Game, point: Point) -> Option<Move>
    ensures { result ≡ emptied_at game.now point }
{
    let mut earlier = game.copied();
    for _ago in 0..game.moves().len() {
        let last = last_move(&earlier);
        let _ = earlier.undo();
        if earlier.at(point).is_some() {
            return last;
        }
    }
    None
}

/// Appends which move took the stone of a point, if one did.
pub(crate) fn add_emptied(text: &mut Vec<u8>, taker: Option<Move>) -> Result<(), AllocError>
    ensures { OnOk result (text.new.items ≡ text.old.items ++ emptied_text taker) }
{
    match taker {
        None => Ok(()),
        Some(made) => add_all(
            text,
            &[
                b" since ",
                colour_letter(made.colour),
                b" ",
                &made.vertex.write(),
                b" took its stone",
            ],
        ),
    }
}

/// Returns whether a play is legal because the last move is a pass: before that it was none.
pub(crate) fn is_lifted(game: &Game, made: &Move) -> bool
    ensures { result ≡ is_lifted game.now made.now }
{
    match last_vertex(game) {
        Some(Vertex::Pass) => is_now_legal(game, made),
        _ => false,
    }
}

/// Returns whether a move is legal, and wasn't before the last move.
fn is_now_legal(game: &Game, made: &Move) -> bool
    ensures { result ≡ is_now_legal game.now made.now }
{
    let was = was_legal(game, made.colour, made.vertex);
    let is = is_legal(game, made.colour, made.vertex);
    is && !was
}

/// Returns whether a move was legal before the last move.
fn was_legal(game: &Game, colour: Colour, vertex: Vertex) -> bool
    ensures { result ≡ holds (legal? (without_last game.now) colour vertex) }
{
    let mut before = game.copied();
    let _ = before.undo();
    is_legal(&before, colour, vertex)
}

/// Returns whether a move is legal.
fn is_legal(game: &Game, colour: Colour, vertex: Vertex) -> bool
    ensures { result ≡ holds (legal? game.now colour vertex) }
{
    game.legal(colour, vertex)
}

/// Returns the vertex of the last move.
pub(crate) fn last_vertex(game: &Game) -> Option<Vertex>
    ensures { result ≡ last_vertex game.now }
{
    last_move(game).map(|made| made.vertex)
}

/// Returns the last move.
pub(crate) fn last_move(game: &Game) -> Option<Move>
    ensures { result ≡ last_move game.now }
{
    game.moves().last().copied()
}
