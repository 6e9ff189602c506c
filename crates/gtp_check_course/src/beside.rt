//! Moves on a point, and on the points next to it.
ghost use Rattle.std.specs.Prelude.{◌≡◌};
ghost use Rattle.gtp_check_course.specs.Questions.{around_asked, around_point_asked, next_to, on_move_asked};
ghost use Rattle.gtp_check_course.specs.Questions.{plays_on, surround_asked};

use crate::actions::Question;
use crate::scenes::crossing;
use crate::stretches::{colour_of, play};
use go_base::{Colour, Move, Point, Vertex};

/// A move on the point of this one, if it has one: first in one colour and then in the other.
pub(crate) fn on_move(step: u32, made: Option<Move>) -> Question
    ensures { result ≡ on_move_asked step made }
{
    match made {
        Some(made) => play_on(colour_of(step), made.vertex),
        None => Question::Nothing,
    }
}

/// A move of the other colour next to the point of this one, if it has one.
pub(crate) fn around_move(step: u32, made: Option<Move>) -> Question
    ensures { result ≡ around_asked step made }
{
    match made {
        Some(made) => around(step, made.colour.other(), made.vertex),
        None => Question::Nothing,
    }
}

/// A move next to a point, if the vertex is one.
fn around(step: u32, colour: Colour, vertex: Vertex) -> Question
    ensures { result ≡ around_point_asked step colour vertex }
{
    match vertex {
        Vertex::At(point) => play_on(colour, next_to(step, point)),
        Vertex::Pass => Question::Nothing,
    }
}

/// White's move next to a point, if there is one.
pub(crate) fn surround(step: u32, point: Option<Point>) -> Question
    ensures { result ≡ surround_asked step point }
{
    match point {
        Some(point) => play(Colour::White, next_to(step, point)),
        None => Question::Nothing,
    }
}

/// A `play` on a point, if the vertex is one.
fn play_on(colour: Colour, vertex: Vertex) -> Question
    ensures { result ≡ plays_on colour vertex }
{
    match vertex {
        Vertex::At(_) => play(colour, vertex),
        Vertex::Pass => Question::Nothing,
    }
}

/// Returns the vertex on the left of a point, on its right, below it or above it, or a pass if no board has it.
fn next_to(step: u32, point: Point) -> Vertex
    ensures { result ≡ next_to step point }
{
    let (column, row) = (point.column(), point.row());
    match step {
        0 => crossing(column - 1, row),
        1 => crossing(column + 1, row),
        2 => crossing(column, row - 1),
        _ => crossing(column, row + 1),
    }
}
