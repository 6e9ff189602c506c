//! Why a move is legal: what it captures.
ghost use Rattle.std.specs.Prelude.{◌≡◌, ◌++◌, ◌≤◌, length, take, MatchOption, OnOk};
ghost use Rattle.go_base.specs.Vertex.{written_vertices};
ghost use Rattle.gtp_check_texts.specs.reasons.Plays.{captures_text, colour_name, legal_text, more_mark, most_named};
ghost use Rattle.gtp_check_texts.specs.reasons.Plays.{at_text, lifted_text, play_text, quiet_text, stones_word, taken_by, taking_text};
ghost use Rattle.go_base.specs.Colour.{other};

use super::history::{add_emptied, emptied_by, is_lifted};
use crate::texts::{add_all, text_if};
use arrayvec::ArrayVec;
use go_base::{Colour, Move, Point, VERTICES_ROOM, Vertex, write_int, write_vertices};
use go_board::{Game, MOST_POINTS};
use std::alloc::AllocError;

/// How many captured stones are named by their points.
const MOST_NAMED: usize = 6;

/// Returns the points of the stones that a move captures, row by row from A1, or `None` if the move isn't legal.
pub(crate) fn taken_by(game: &Game, made: Move) -> Option<ArrayVec<Point, MOST_POINTS>>
    ensures { MatchOption result
        (taken_by game.now made ≡ None)
        (λ points. taken_by game.now made ≡ Some points.items) }
{
    // Only a look: this is a game.
    let _ = game.size();
    let mut next = game.copied();
    match next.play(made.colour, made.vertex) {
        Ok(()) => Some(next.taken_by_last_move()),
        Err(_) => None,
    }
}

/// Appends why a move is legal.
pub(crate) fn add_legal(text: &mut Vec<u8>, game: &Game, made: Move) -> Result<(), AllocError>
    ensures { OnOk result (text.new.items ≡ text.old.items ++ legal_text game.now made) }
{
    match made.vertex {
        Vertex::Pass => text.extend_from_slice(b"legal: a pass always is"),
        Vertex::At(_) => add_at(text, game, &made),
    }
}

/// Appends why a play is legal, and whether a pass has lifted a ko.
fn add_at(text: &mut Vec<u8>, game: &Game, made: &Move) -> Result<(), AllocError>
    ensures { OnOk result (text.new.items ≡ text.old.items ++ at_text game.now made.now) }
{
    add_play(text, game, made)?;
    add_lifted(text, is_lifted(game, made))
}

/// Appends that a pass has lifted a ko, if it has.
fn add_lifted(text: &mut Vec<u8>, is_so: bool) -> Result<(), AllocError>
    ensures { OnOk result (text.new.items ≡ text.old.items ++ lifted_text is_so) }
{
    text.extend_from_slice(text_if(is_so, b"; the pass before it lifts the ko"))
}

/// Appends why a play is legal.
fn add_play(text: &mut Vec<u8>, game: &Game, made: &Move) -> Result<(), AllocError>
    ensures { OnOk result (text.new.items ≡ text.old.items
        ++ play_text game.now (other made.now.colour) made.now.vertex (taken_by game.now made.now)) }
{
    match taken_by(game, *made) {
        Some(points) => add_taking(text, game, made.colour.other(), made.vertex, &points),
        None => text.extend_from_slice(b"the command succeeds"),
    }
}

/// Appends why a play with this vertex is legal that captures the stones of a colour on these points, if any.
fn add_taking(
    text: &mut Vec<u8>,
    game: &Game,
    colour: Colour,
    vertex: Vertex,
    points: &[Point],
) -> Result<(), AllocError>
    requires { length points.now ≤ 625 }
    ensures { OnOk result (text.new.items
        ≡ text.old.items ++ taking_text game.now colour vertex points.now) }
{
    if points.is_empty() {
        return add_quiet(text, emptied_by(game, vertex));
    }
    add_captures(text, colour, points)
}

/// Appends why a play is legal that captures nothing, on a point whose last stone this move took, if one did.
fn add_quiet(text: &mut Vec<u8>, taker: Option<Move>) -> Result<(), AllocError>
    ensures { OnOk result (text.new.items ≡ text.old.items ++ quiet_text taker) }
{
    text.extend_from_slice(b"legal: the point is empty")?;
    add_emptied(text, taker)?;
    text.extend_from_slice(b", the stone's chain has a liberty then, and no ko forbids it")
}

/// Appends that a play captures the stones of this colour on these points.
fn add_captures(text: &mut Vec<u8>, colour: Colour, points: &[Point]) -> Result<(), AllocError>
    requires { length points.now ≤ 625 }
    ensures { OnOk result (text.new.items ≡ text.old.items ++ captures_text colour points.now) }
{
    let many = points.len();
    add_all(
        text,
        &[
            b"legal: it captures ",
            &write_int(many as u32),
            stones_word(many),
            colour_name(colour),
            b": ",
            &first_vertices(points),
            more_mark(many),
        ],
    )
}

/// Returns what follows the number of stones.
fn stones_word(many: usize) -> &'static [u8]
    ensures { result.now ≡ stones_word many }
{
    if many == 1 {
        b" stone of "
    } else {
        b" stones of "
    }
}

/// Returns the name of a colour.
fn colour_name(colour: Colour) -> &'static [u8]
    ensures { result.now ≡ colour_name colour }
{
    match colour {
        Colour::Black => b"black",
        Colour::White => b"white",
    }
}

/// Returns the vertices of the first points.
fn first_vertices(points: &[Point]) -> ArrayVec<u8, VERTICES_ROOM>
    ensures { result.items ≡ written_vertices (take most_named points.now) }
{
    let mut named = ArrayVec::new();
    // There is space for six.
    let _ = named.try_extend_from_slice(&points[..points.len().min(MOST_NAMED)]);
    write_vertices(&named)
}

/// Returns the mark that more stones are captured than those that are named.
fn more_mark(many: usize) -> &'static [u8]
    ensures { result.now ≡ more_mark many }
{
    if many > MOST_NAMED { b" .." } else { b"" }
}
