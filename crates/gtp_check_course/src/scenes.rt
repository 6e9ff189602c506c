//! Scenes: moves that set up a position in a corner of five lines each way, the last of which is the act to be tested.
ghost use Rattle.std.specs.Prelude.{◌≡◌};
ghost use Rattle.gtp_check_course.specs.Scenes.{crossing, is_first, mirrored, way_of, turned, turned_colour};
ghost use Rattle.gtp_check_course.specs.Scenes.{turned_act};

use go_base::Colour::{self, Black, White};
use go_base::{Move, Point, Size, Vertex};

/// The ways in which a scene is asked: the eight symmetries of a board, in both colours.
pub const WAYS: u32 = 16;

/// The ways in which a scene is asked after a handicap of two stones, which are near the lower left and the upper right
/// corner: in each of the other two corners, in both colours.
pub const FREE_WAYS: [u32; 4] = [1, 6, 9, 14];

/// The moves of a scene: the colour, the column and the row of each. The last is the act.
pub type Scene = &'static [(Colour, u32, u32)];

/// Kos in the corner, whose stones are captured beside it and in it, at the edge and in the middle.
pub static KO: [Scene; 4] = [
    &[
        (Black, 1, 2),
        (White, 3, 1),
        (Black, 2, 1),
        (White, 2, 2),
        (White, 1, 1),
    ],
    &[
        (Black, 1, 1),
        (White, 1, 2),
        (Black, 2, 2),
        (White, 4, 4),
        (Black, 3, 1),
        (White, 2, 1),
    ],
    &[
        (Black, 2, 1),
        (White, 4, 2),
        (Black, 3, 2),
        (White, 5, 1),
        (Black, 4, 1),
        (White, 3, 1),
    ],
    &[
        (Black, 2, 3),
        (White, 4, 4),
        (Black, 3, 4),
        (White, 5, 3),
        (Black, 3, 2),
        (White, 4, 2),
        (Black, 4, 3),
        (White, 3, 3),
    ],
];

/// Two crossings beside a ko, which may be the same.
#[derive(Clone, Copy, Debug, PartialEq, Eq)]
pub struct Gaps {
    /// The column and the row of one.
    pub first: (u32, u32),
    /// Those of the other.
    pub second: (u32, u32),
}

/// What stays empty beside each of the kos when the colour that acts has all other points: there the chains of the
/// other colour have a liberty, and a move of that colour would be suicide.
pub static KO_GAPS: [Gaps; 4] = [
    Gaps {
        first: (1, 3),
        second: (1, 3),
    },
    Gaps {
        first: (3, 2),
        second: (3, 2),
    },
    Gaps {
        first: (2, 2),
        second: (2, 2),
    },
    Gaps {
        first: (2, 4),
        second: (3, 1),
    },
];

/// Captures: one stone in the corner, at the edge and in the middle; two, and three around a corner; two chains and
/// three at once; and three stones by a stone that had no liberty before. Then two that look like kos: two stones that
/// one captures, and one that a chain captures. There the capturing stones may be recaptured at once.
pub static CAPTURES: [Scene; 10] = [
    &[(White, 1, 1), (Black, 1, 2), (White, 4, 5), (Black, 2, 1)],
    &[(White, 3, 1), (Black, 2, 1), (Black, 4, 1), (Black, 3, 2)],
    &[
        (White, 3, 3),
        (Black, 2, 3),
        (Black, 4, 3),
        (Black, 3, 2),
        (Black, 3, 4),
    ],
    &[
        (White, 1, 1),
        (White, 2, 1),
        (Black, 1, 2),
        (Black, 2, 2),
        (Black, 3, 1),
    ],
    &[
        (White, 1, 1),
        (White, 1, 2),
        (White, 2, 1),
        (Black, 1, 3),
        (Black, 2, 2),
        (Black, 3, 1),
    ],
    &[
        (White, 1, 2),
        (White, 2, 1),
        (Black, 1, 3),
        (Black, 2, 2),
        (Black, 3, 1),
        (Black, 1, 1),
    ],
    &[
        (White, 2, 2),
        (White, 3, 1),
        (White, 4, 2),
        (Black, 1, 2),
        (Black, 2, 3),
        (Black, 2, 1),
        (Black, 4, 1),
        (Black, 4, 3),
        (Black, 5, 2),
        (Black, 3, 3),
        (Black, 3, 2),
    ],
    &[
        (Black, 1, 1),
        (Black, 2, 1),
        (Black, 3, 1),
        (White, 1, 2),
        (White, 2, 2),
        (White, 3, 2),
        (Black, 5, 1),
        (Black, 4, 2),
        (White, 4, 1),
    ],
    &[
        (White, 1, 1),
        (Black, 1, 2),
        (White, 2, 1),
        (Black, 2, 2),
        (White, 3, 2),
        (White, 4, 1),
        (Black, 3, 1),
    ],
    &[
        (Black, 1, 2),
        (White, 1, 1),
        (Black, 2, 2),
        (White, 1, 3),
        (White, 2, 3),
        (White, 3, 2),
        (White, 3, 1),
        (Black, 2, 1),
    ],
];

/// Suicide of one stone in the corner, at the edge and in the middle; of two; and of three, by a stone that joins two.
pub static SUICIDE: [Scene; 5] = [
    &[(White, 1, 2), (White, 2, 1), (Black, 1, 1)],
    &[(White, 2, 1), (White, 4, 1), (White, 3, 2), (Black, 3, 1)],
    &[
        (White, 2, 3),
        (White, 4, 3),
        (White, 3, 2),
        (White, 3, 4),
        (Black, 3, 3),
    ],
    &[
        (White, 1, 3),
        (White, 2, 2),
        (White, 2, 1),
        (Black, 1, 1),
        (Black, 1, 2),
    ],
    &[
        (White, 1, 3),
        (White, 2, 2),
        (White, 3, 1),
        (Black, 1, 2),
        (Black, 2, 1),
        (Black, 1, 1),
    ],
];

/// Joining: two chains and three, by a stone that has no empty neighbour; and captures of chains that were joined, of
/// three stones and of a block of four.
pub static JOINING: [Scene; 4] = [
    &[
        (Black, 1, 2),
        (White, 2, 2),
        (Black, 2, 1),
        (White, 3, 1),
        (Black, 1, 3),
        (White, 2, 3),
        (Black, 1, 1),
    ],
    &[
        (Black, 2, 3),
        (White, 3, 4),
        (Black, 3, 2),
        (White, 4, 5),
        (Black, 4, 3),
        (White, 1, 5),
        (Black, 3, 3),
    ],
    &[
        (Black, 1, 2),
        (Black, 2, 1),
        (Black, 1, 1),
        (White, 1, 3),
        (White, 2, 2),
        (White, 3, 1),
    ],
    &[
        (Black, 1, 1),
        (Black, 2, 2),
        (Black, 1, 2),
        (Black, 2, 1),
        (White, 1, 3),
        (White, 2, 3),
        (White, 3, 1),
        (White, 3, 2),
    ],
];

/// How a scene is turned: each of the eight symmetries of a board is some of the first three, one after the other.
#[derive(Clone, Copy, Debug, PartialEq, Eq)]
pub struct Way {
    /// Left and right change places.
    pub sideways: bool,
    /// The upper and the lower edge change places.
    pub upside_down: bool,
    /// Columns become rows, and rows columns.
    pub across: bool,
    /// Black plays White's moves, and White Black's.
    pub swapped: bool,
}

impl Way {
    /// Returns the way of this number, of [`WAYS`].
    pub fn of(number: u32) -> Way
        ensures { result ≡ way_of number }
    {
        Way {
            sideways: number % 2 == 1,
            upside_down: number / 2 % 2 == 1,
            across: number / 4 % 2 == 1,
            swapped: number / 8 % 2 == 1,
        }
    }

    /// Returns whether it is the first, in which nothing is turned.
    pub fn is_first(self) -> bool
        ensures { result ≡ is_first self }
    {
        !self.sideways && !self.upside_down && !self.across && !self.swapped
    }

    /// Returns the vertex of a crossing that is turned so on a board of this size, or a pass if the board has no such
    /// crossing.
    pub fn turn(self, column: u32, row: u32, size: Size) -> Vertex
        ensures { result ≡ turned self column row size }
    {
        let column = mirrored(column, size, self.sideways);
        let row = mirrored(row, size, self.upside_down);
        if self.across {
            crossing(row, column)
        } else {
            crossing(column, row)
        }
    }

    /// Returns the colour that plays a colour's moves.
    pub fn colour(self, colour: Colour) -> Colour
        ensures { result ≡ turned_colour self colour }
    {
        if self.swapped { colour.other() } else { colour }
    }

    /// Returns a move of a scene that is turned so.
    pub fn act(self, act: (Colour, u32, u32), size: Size) -> Move
        ensures { result ≡ turned_act self act size }
    {
        let (colour, column, row) = act;
        Move {
            colour: self.colour(colour),
            vertex: self.turn(column, row, size),
        }
    }
}

/// Returns the line itself, or the one that it changes places with.
fn mirrored(line: u32, size: Size, is_mirrored: bool) -> u32
    ensures { result ≡ mirrored line size is_mirrored }
{
    if is_mirrored {
        (size.get() + 1).saturating_sub(line)
    } else {
        line
    }
}

/// Returns the vertex where a column and a row cross, or a pass if there is none.
pub fn crossing(column: u32, row: u32) -> Vertex
    ensures { result ≡ crossing column row }
{
    match Point::new(column, row) {
        Some(point) => Vertex::At(point),
        None => Vertex::Pass,
    }
}
