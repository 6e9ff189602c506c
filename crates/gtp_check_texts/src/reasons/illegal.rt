//! Why a move isn't legal.
ghost use Rattle.std.specs.Prelude.{◌≡◌, ◌++◌, OnOk};
ghost use Rattle.go_board.specs.Game.{board_of};
ghost use Rattle.gtp_check_texts.specs.reasons.Illegal.{illegal_text, ko_text, occupied_text};
ghost use Rattle.gtp_check_texts.specs.reasons.Illegal.{off_board_text, shut_in, simple_ko_text, stone_on, stone_where};
ghost use Rattle.gtp_check_texts.specs.reasons.Illegal.{suicide_text, taker_text};

use super::history::last_vertex;
use super::plays::taken_by;
use crate::texts::add_all;
use go_base::{Colour, Move, Vertex, write_int};
use go_board::{Game, KoRule, PlayFault};
use std::alloc::AllocError;

/// Appends why a move isn't legal, for this cause.
pub(crate) fn add_illegal(
    text: &mut Vec<u8>,
    game: &Game,
    made: Option<Move>,
    fault: PlayFault,
) -> Result<(), AllocError>
    ensures { OnOk result (text.new.items ≡ text.old.items ++ illegal_text game.now made fault) }
{
    match fault {
        PlayFault::Full => text.extend_from_slice(b"the record is full"),
        PlayFault::OffBoard => add_size(text, game),
        PlayFault::Occupied => text.extend_from_slice(occupied_text(stone_where(game, made))),
        PlayFault::Suicide => add_suicide(text, shut_in(game, made)),
        PlayFault::Ko => add_ko(text, game),
    }
}

/// Appends that the point is off the board.
fn add_size(text: &mut Vec<u8>, game: &Game) -> Result<(), AllocError>
    ensures { OnOk result (text.new.items ≡ text.old.items ++ off_board_text game.now.size) }
{
    add_all(
        text,
        &[
            b"the point is off the board of size ",
            &write_int(game.size().get()),
        ],
    )
}

/// Returns the stone on the point of a move.
fn stone_where(game: &Game, made: Option<Move>) -> Option<Colour>
    ensures { result ≡ stone_where game.now made }
{
    let made = made?;
    stone_on(game, made.vertex)
}

/// Returns the stone on a vertex, if it is a point with one.
fn stone_on(game: &Game, vertex: Vertex) -> Option<Colour>
    ensures { result ≡ stone_on (board_of game.now) vertex }
{
    match vertex {
        Vertex::Pass => None,
        Vertex::At(point) => game.at(point),
    }
}

/// The text for a point that isn't empty.
fn occupied_text(stone: Option<Colour>) -> &'static [u8]
    ensures { result.now ≡ occupied_text stone }
{
    match stone {
        Some(Colour::Black) => b"the point has a stone of black",
        Some(Colour::White) => b"the point has a stone of white",
        None => b"the point has a stone",
    }
}

/// Returns how many stones the chain of a suicide would have, if that is known.
fn shut_in(game: &Game, made: Option<Move>) -> Option<u32>
    ensures { result ≡ shut_in game.now made }
{
    let made = made?;
    let other = Move {
        colour: made.colour.other(),
        vertex: made.vertex,
    };
    let taken = taken_by(game, other)?;
    Some(taken.len() as u32 + 1)
}

/// Appends that a move is suicide, with a chain of this many stones.
fn add_suicide(text: &mut Vec<u8>, stones: Option<u32>) -> Result<(), AllocError>
    ensures { OnOk result (text.new.items ≡ text.old.items ++ suicide_text stones) }
{
    match stones {
        None => text.extend_from_slice(b"suicide: the stone's chain would have no liberty"),
        Some(0 | 1) => text.extend_from_slice(b"suicide: the stone would have no liberty"),
        Some(stones) => add_all(
            text,
            &[
                b"suicide: the stone's chain of ",
                &write_int(stones),
                b" stones would have no liberty",
            ],
        ),
    }
}

/// Appends that the ko rule forbids the resulting board.
fn add_ko(text: &mut Vec<u8>, game: &Game) -> Result<(), AllocError>
    ensures { OnOk result (text.new.items ≡ text.old.items ++ ko_text game.now game.now.rule) }
{
    match game.rule() {
        KoRule::Simple => add_simple_ko(text, last_vertex(game)),
        KoRule::Positional => text.extend_from_slice(
            b"positional ko: the board would be one that this game had before",
        ),
    }
}

/// Appends that the board would be as before the last move, which had this vertex.
fn add_simple_ko(text: &mut Vec<u8>, last: Option<Vertex>) -> Result<(), AllocError>
    ensures { OnOk result (text.new.items ≡ text.old.items ++ simple_ko_text last) }
{
    match last {
        Some(vertex) => add_taker(text, vertex),
        None => text.extend_from_slice(b"ko: the board would be as before the last move"),
    }
}

/// Appends that the board would be as before the last move, and names its vertex.
fn add_taker(text: &mut Vec<u8>, vertex: Vertex) -> Result<(), AllocError>
    ensures { OnOk result (text.new.items ≡ text.old.items ++ taker_text vertex) }
{
    match vertex {
        Vertex::Pass => text.extend_from_slice(b"ko: the board would be as before the last move"),
        Vertex::At(_) => add_all(
            text,
            &[
                b"ko: ",
                &vertex.write(),
                b" took the stone there in the move before; the board would be as before that move",
            ],
        ),
    }
}
