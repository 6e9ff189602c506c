//! Moves.
use crate::colours::Colour;
use crate::vertices::Vertex;

/// A colour and what it plays.
#[derive(Clone, Copy, Debug, PartialEq, Eq)]
pub struct Move {
    /// Who moves.
    pub colour: Colour,
    /// The point of the new stone, or a pass.
    pub vertex: Vertex,
}

impl Default for Move {
    ghost use Rattle.std.specs.Prelude.{◌≡◌};
    ghost use Rattle.go_base.specs.declared.colours.Colour.{Colour};
    ghost use Rattle.go_base.specs.declared.vertices.Vertex.{Vertex};

    ghost is_default = { λ move. move ≡ record { colour = Colour.Black; vertex = Vertex.Pass } };

    /// Black's pass.
    fn default() -> Move {
        Move {
            colour: Colour::Black,
            vertex: Vertex::Pass,
        }
    }
}
