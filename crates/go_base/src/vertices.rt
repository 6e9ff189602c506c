//! Vertices: what a move plays.
ghost use Rattle.std.specs.Prelude.{◌≡◌, ◌≤◌, IfSome, IfNone};
ghost use Rattle.go_base.specs.Size.{most_size};
ghost use Rattle.go_base.specs.Vertex.{column_of_letter, row_of_digits, point_of, written_vertex};
ghost use Rattle.go_base.specs.declared.vertices.Vertex.TheVariants.{At};

use crate::ints::{read_int, write_int};
use crate::points::Point;
use crate::texts::push;
use arrayvec::ArrayVec;

/// A point, or a pass.
#[derive(Clone, Copy, Debug, PartialEq, Eq)]
pub enum Vertex {
    /// A pass: no stone is placed.
    Pass,
    /// A stone is placed on this point.
    At(Point),
}

impl Vertex {
    ghost use Rattle.go_base.specs.Vertex.{SpellsVertex, vertex_of};

    /// Reads a vertex: the letter of a column, `A` to `H` or `J` to `Z`, and a row, 1 to 25 without leading zeros; or
    /// `pass`. Letters may be in any case. Returns `None` for every other text. The point may be off a board that is
    /// smaller than the largest.
    pub fn read(text: &[u8]) -> Option<Vertex>
        ensures read { IfSome result (λ vertex. SpellsVertex vertex text.now) }
        ensures unread { IfNone result ((vertex : Vertex) → SpellsVertex vertex text.now → ⊥) }
        ensures value { result ≡ vertex_of text.now }
    {
        if text.eq_ignore_ascii_case(b"pass") {
            return Some(Vertex::Pass);
        }
        let point = read_point(text)?;
        Some(Vertex::At(point))
    }

    /// Writes the vertex: the capital letter of its column and its row, or `pass`.
    pub fn write(self) -> ArrayVec<u8, 4>
        ensures { result.items ≡ written_vertex self }
    {
        match self {
            Vertex::Pass => ArrayVec::from(*b"pass"),
            Vertex::At(point) => write_point(point),
        }
    }
}

/// The point that the text spells.
fn read_point(text: &[u8]) -> Option<Point>
    ensures { result ≡ point_of text.now }
{
    let [letter, digits @ ..] = text else {
        return None;
    };
    let column = read_column(*letter)?;
    let row = read_row(digits)?;
    Point::new(column, row)
}

/// The column of a letter in upper or lower case.
fn read_column(letter: u8) -> Option<u32>
    ensures value { result ≡ column_of_letter letter }
    ensures limits { IfSome result (λ column. (1 ≤ column) × (column ≤ most_size)) }
{
    let capital = letter.to_ascii_uppercase();
    match capital {
        b'A'..=b'H' => Some(u32::from(capital - b'A') + 1),
        b'J'..=b'Z' => Some(u32::from(capital - b'J') + 9),
        _ => None,
    }
}

/// The number that digits without leading zeros spell.
fn read_row(digits: &[u8]) -> Option<u32>
    ensures { result ≡ row_of_digits digits.now }
{
    if let [b'0', ..] = digits {
        return None;
    }
    read_int(digits)
}

/// The capital letter of the point's column and its row.
fn write_point(point: Point) -> ArrayVec<u8, 4>
    ensures { result.items ≡ written_vertex (At point) }
{
    let mut text = ArrayVec::new();
    text.push(point.letter());
    push(&mut text, &write_int(point.row()));
    text
}

impl Default for Vertex {
    ghost use Rattle.std.specs.Prelude.{◌≡◌};
    ghost use Rattle.go_base.specs.declared.vertices.Vertex.{Vertex};

    ghost is_default = { λ vertex. vertex ≡ Vertex.Pass };

    /// A pass.
    fn default() -> Vertex {
        Vertex::Pass
    }
}
