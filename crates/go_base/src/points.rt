//! Points of a board.
ghost use Rattle.std.specs.Prelude.{◌≡◌, ◌↔◌, IsTrue, IsSome, IfSome};
ghost use Rattle.go_base.specs.Size.{most_size};
ghost use Rattle.go_base.specs.Point.{point, column_of, row_of, IsCrossing, IsOn};
ghost use Rattle.go_base.specs.Vertex.{letter_of};

use crate::sizes::Size;
use std::marker::Model;

/// The greatest column and the greatest row of a point.
const MOST_LINES: u32 = 25;

/// A point of the largest board: the crossing of a column and a row, both from 1 to 25. A1, in the lower left corner,
/// is column 1 and row 1.
///
/// Contracts see a point as its place on a mailbox board with 26 places to a row: `26 * row + column`. Such a board is
/// one array that has the rows one after the other from the bottom up. A row has one place more than the largest board
/// has columns. That extra place, the row below the board and the row above it hold no points. So the neighbours of
/// every point, edge points included, are the places one less, one more, 26 less and 26 more, and no step leads from
/// the end of one row to the start of the next.
#[derive(Clone, Copy, Debug, PartialEq, Eq)]
pub struct Point {
    column: u8,
    row: u8,
}

impl Model for Point {
    ghost use Rattle.std.specs.Prelude.{ℕ};
    ghost use Rattle.std.proofs.Common.{arith};
    ghost use Rattle.go_base.specs.Point.{point, column_of, row_of, IsCrossing};

    ghost Value = { ℕ };

    ghost view = { λ p. point p.column p.row };

    ghost invariant = { λ p. IsCrossing p.column p.row };

    ghost inverse = { λ n. record { column = column_of n; row = row_of n } };

    ghost inverse_ok = { λ a h. Prim.grind arith };
}

impl Point {
    /// The point where a column and a row cross. Returns `None` unless both are 1 to 25.
    #[inline]
    pub fn new(column: u32, row: u32) -> Option<Point>
        ensures limits { IsSome result ↔ IsCrossing column row }
        ensures value { IfSome result (λ p. p ≡ point column row) }
    {
        if !(1..=MOST_LINES).contains(&column) || !(1..=MOST_LINES).contains(&row) {
            return None;
        }
        Some(Point::crossing(column, row))
    }

    /// The point where a column and a row cross.
    #[inline]
    pub(crate) fn crossing(column: u32, row: u32) -> Point
        requires { IsCrossing column row }
        ensures { result ≡ point column row }
    {
        Point {
            column: column as u8,
            row: row as u8,
        }
    }

    /// The column, 1 to 25, counted from the left.
    pub fn column(self) -> u32
        ensures value { result ≡ column_of self }
        ensures limits { IsOn most_size self }
    {
        u32::from(self.column)
    }

    /// The row, 1 to 25, counted from the bottom.
    pub fn row(self) -> u32
        ensures value { result ≡ row_of self }
        ensures limits { IsOn most_size self }
    {
        u32::from(self.row)
    }

    /// The capital letter of the column: `A` to `H` for 1 to 8, and `J` to `Z` for 9 to 25.
    pub fn letter(self) -> u8
        ensures { result ≡ letter_of (column_of self) }
    {
        let column = self.column() as u8;
        if column <= 8 {
            b'A' - 1 + column
        } else {
            b'J' - 9 + column
        }
    }

    /// Whether a board of this size has the point.
    pub fn on(self, size: Size) -> bool
        ensures { IsTrue result ↔ IsOn size self }
    {
        self.column() <= size.get() && self.row() <= size.get()
    }
}

impl Default for Point {
    ghost use Rattle.std.specs.Prelude.{◌≡◌};
    ghost use Rattle.go_base.specs.Point.{point};

    ghost is_default = { λ p. p ≡ point 1 1 };

    /// A1.
    fn default() -> Point {
        Point { column: 1, row: 1 }
    }
}
