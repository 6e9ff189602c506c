//! Laws of the values and their texts.
//!
//! The body of each function is empty, or only compares: the law is its contract, and it is proved.
ghost use Rattle.std.specs.Prelude.{◌≡◌, ◌↔◌, IsTrue};
ghost use Rattle.go_base.specs.Int.{IntOfAgrees, IntsReadBack, SpellsOneInt};
ghost use Rattle.go_base.specs.Colour.{ColourOfAgrees, ColoursReadBack, SpellsOneColour};
ghost use Rattle.go_base.specs.Vertex.{VertexOfAgrees, VerticesReadBack, SpellsOneVertex};
ghost use Rattle.go_base.specs.Komi.{KomiOfAgrees, KomisReadBack, SpellsOneKomi};
ghost use Rattle.go_base.specs.Point.{NeighboursAreBeside};

use crate::choices::Choice;
use crate::colours::Colour;
use crate::komis::Komi;
use crate::moves::Move;
use crate::points::Point;
use crate::sizes::Size;
use crate::vertices::Vertex;

/// One value of each kind.
#[derive(Clone, Copy)]
pub struct Values {
    /// A size.
    pub size: Size,
    /// A colour.
    pub colour: Colour,
    /// A point.
    pub point: Point,
    /// A vertex.
    pub vertex: Vertex,
    /// A move.
    pub played: Move,
    /// A komi.
    pub komi: Komi,
    /// A choice.
    pub choice: Choice,
}

/// For which kinds two values are equal (`==`).
#[derive(Clone, Copy)]
pub struct Equal {
    /// Whether the sizes are equal.
    pub size: bool,
    /// Whether the colours are equal.
    pub colour: bool,
    /// Whether the points are equal.
    pub point: bool,
    /// Whether the vertices are equal.
    pub vertex: bool,
    /// Whether the moves are equal.
    pub played: bool,
    /// Whether the komis are equal.
    pub komi: bool,
    /// Whether the choices are equal.
    pub choice: bool,
}

/// Two values are equal (`==`) exactly if they are identical. The function only compares.
pub fn equality_law(one: Values, another: Values) -> Equal
    ensures sizes { IsTrue result.size ↔ (one.size ≡ another.size) }
    ensures colours { IsTrue result.colour ↔ (one.colour ≡ another.colour) }
    ensures points { IsTrue result.point ↔ (one.point ≡ another.point) }
    ensures vertices { IsTrue result.vertex ↔ (one.vertex ≡ another.vertex) }
    ensures moves { IsTrue result.played ↔ (one.played ≡ another.played) }
    ensures komis { IsTrue result.komi ↔ (one.komi ≡ another.komi) }
    ensures choices { IsTrue result.choice ↔ (one.choice ≡ another.choice) }
{
    Equal {
        size: one.size == another.size,
        colour: one.colour == another.colour,
        point: one.point == another.point,
        vertex: one.vertex == another.vertex,
        played: one.played == another.played,
        komi: one.komi == another.komi,
        choice: one.choice == another.choice,
    }
}

/// Writing an integer and reading it gives the same integer, and a text spells at most one.
pub fn int_laws()
    ensures function { IntOfAgrees }
    ensures read_back { IntsReadBack }
    ensures one { SpellsOneInt }
{}

/// Writing a colour and reading it gives the same colour, and a text spells at most one.
pub fn colour_laws()
    ensures function { ColourOfAgrees }
    ensures read_back { ColoursReadBack }
    ensures one { SpellsOneColour }
{}

/// Writing a vertex and reading it gives the same vertex, and a text spells at most one.
pub fn vertex_laws()
    ensures function { VertexOfAgrees }
    ensures read_back { VerticesReadBack }
    ensures one { SpellsOneVertex }
{}

/// Writing a komi and reading it gives the same komi, and a text spells at most one.
pub fn komi_laws()
    ensures function { KomiOfAgrees }
    ensures read_back { KomisReadBack }
    ensures one { SpellsOneKomi }
{}

/// Two points of the largest board are neighbours on the mailbox board exactly if they are in the same column or row
/// and next to each other in it.
pub fn neighbours_law()
    ensures { NeighboursAreBeside }
{}
