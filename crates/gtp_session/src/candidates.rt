//! The points that a policy chooses among.
ghost use Rattle.std.specs.Prelude.{◌≡◌, ◌+◌, ◌<◌, ◌≤◌, [], ◌∷◌, ◌++◌, ◌↔◌, ◌⊎◌, IsTrue, slice_get, Some, None};
ghost use Rattle.arrayvec.specs.ArrayVec.{array_vec_len};
ghost use Rattle.go_base.specs.Point.{point, IsCrossing};
ghost use Rattle.go_base.specs.Size.{most_size};
ghost use Rattle.go_base.specs.Colour.{other};
ghost use Rattle.gtp_session.specs.Candidate.{IsOpen, HasOpenNeighbour, IsCandidate};
ghost use Rattle.gtp_session.specs.Candidates.{row_points, points_of, candidates, play_or_pass};

use crate::policy::Choice;
use arrayvec::ArrayVec;
use go_base::{Colour, Point, Size, Vertex};
use go_board::Game;

/// The points of the largest board, which has 25 to a row.
pub(crate) const MOST_POINTS: usize = 625;

/// Points of a board, at most all of them.
pub(crate) type Points = ArrayVec<Point, MOST_POINTS>;

/// Returns the candidates for a colour, in the order A1, B1, .., A2, B2, ...
pub fn candidates(game: &Game, colour: Colour) -> Points
    ensures { result.items ≡ candidates game.now colour }
{
    let points = points_of(game.size());
    let mut found = Points::new();
    for point in points.iter() {
        if is_candidate(game, colour, *point) {
            found.push(*point);
        }
    }
    found
}

/// Returns the first candidate for a colour, if there is one.
pub(crate) fn first_candidate(game: &Game, colour: Colour) -> Option<Point>
    ensures { result ≡ slice_get (candidates game.now colour) 0 }
{
    let points = points_of(game.size());
    for point in points.iter() {
        if is_candidate(game, colour, *point) {
            return Some(*point);
        }
    }
    None
}

/// Returns the play on this point, or a pass if there is none.
pub(crate) fn play_or_pass(point: Option<Point>) -> Choice
    ensures { result ≡ play_or_pass point }
{
    match point {
        Some(point) => Choice::Play(Vertex::At(point)),
        None => Choice::Play(Vertex::Pass),
    }
}

/// Whether the point is legal for the colour and has a neighbour that is empty or has a stone of the other colour.
fn is_candidate(game: &Game, colour: Colour, point: Point) -> bool
    ensures { IsTrue result ↔ IsCandidate game.now colour point }
{
    has_open_neighbour(game, colour, point) && game.legal(colour, Vertex::At(point))
}

/// Whether the point has a neighbour that is empty or has a stone of the other colour.
fn has_open_neighbour(game: &Game, colour: Colour, point: Point) -> bool
    ensures { IsTrue result ↔ HasOpenNeighbour game.now colour point }
{
    let (column, row) = (point.column(), point.row());
    is_open(game, colour, column - 1, row)
        || is_open(game, colour, column + 1, row)
        || is_open(game, colour, column, row - 1)
        || is_open(game, colour, column, row + 1)
}

/// Whether this column and row have a point on the board, and it is empty or has a stone of the other colour.
fn is_open(game: &Game, colour: Colour, column: u32, row: u32) -> bool
    requires column { column ≤ most_size + 1 }
    requires row { row ≤ most_size + 1 }
    ensures { IsTrue result ↔ IsOpen game.now colour (point column row) }
{
    let size = game.size();
    match Point::new(column, row) {
        Some(point) => point.on(size) && allows(colour, game.at(point)),
        None => false,
    }
}

/// Whether a point with this content is empty or has a stone of the other colour.
fn allows(colour: Colour, stone: Option<Colour>) -> bool
    ensures { IsTrue result ↔ ((stone ≡ None) ⊎ (stone ≡ Some (other colour))) }
{
    match stone {
        None => true,
        Some(stone) => stone == colour.other(),
    }
}

/// Returns the points of a board of this size, in the order A1, B1, .., A2, B2, ...
fn points_of(size: Size) -> Points
    ensures { result.items ≡ points_of size }
{
    let mut points = Points::new();
    for row in 1..=size.get() {
        push_row(&mut points, size, row);
    }
    points
}

/// Appends the points of a row.
fn push_row(points: &mut Points, size: Size, row: u32)
    requires least { 1 ≤ row }
    requires most { row ≤ most_size }
    requires room { array_vec_len points.old + size ≤ MOST_POINTS }
    ensures row { points.new.items ≡ points.old.items ++ row_points size row }
    ensures len { array_vec_len points.new ≡ array_vec_len points.old + size }
{
    for column in 1..=size.get() {
        push_point(points, column, row);
    }
}

/// Appends the point of this column and row.
fn push_point(points: &mut Points, column: u32, row: u32)
    requires crossing { IsCrossing column row }
    requires room { array_vec_len points.old < MOST_POINTS }
    ensures point { points.new.items ≡ points.old.items ++ point column row ∷ [] }
    ensures len { array_vec_len points.new ≡ array_vec_len points.old + 1 }
{
    if let Some(point) = Point::new(column, row) {
        points.push(point);
    }
}
