//! Own eyes.
ghost use Rattle.std.specs.Prelude.{◌≡◌, ◌≢◌, ℕ, ◌<◌, ◌≤◌, ◌↔◌, IsTrue};
ghost use Rattle.go_base.specs.Point.{IsOn, Neighbours};
ghost use Rattle.go_base.specs.Size.{most_size};

use super::{Board, Cell, PLACES, ROW};
use go_base::Colour;

impl Board {
    ghost use Rattle.go_base.specs.Colour.{other};
    ghost use Rattle.go_board.specs.Board.{place_count, at, stone};
    ghost use Rattle.go_board.specs.Eye.{HoldsAcross, IsOwnEye};
    ghost use Rattle.go_board.specs.declared.board.Cell.TheVariants.{Edge};
    ghost use Rattle.go_board.specs.private.Eye.{IsOwnOrEdge, AreFewAcross};

    /// Whether a point is an own eye of a colour.
    pub fn is_own_eye(&self, colour: Colour, place: usize) -> bool
        requires { IsOn most_size place }
        ensures { IsTrue result ↔ IsOwnEye self.now colour place }
    {
        self.at(place) == Cell::Empty
            && self.is_shut_in(colour, place)
            && self.has_few_across(Cell::stone(colour.other()), place)
    }

    /// Whether each neighbour of a point is edge or a stone of the colour.
    #[inline]
    fn is_shut_in(&self, colour: Colour, place: usize) -> bool
        requires { IsOn most_size place }
        ensures { IsTrue result
            ↔ ((q : ℕ) → Neighbours place q → IsOwnOrEdge self.now colour q) }
    {
        self.is_own_or_edge(colour, place + 1)
            && self.is_own_or_edge(colour, place - 1)
            && self.is_own_or_edge(colour, place + ROW)
            && self.is_own_or_edge(colour, place - ROW)
    }

    /// Whether a place is edge or a stone of the colour.
    #[inline]
    fn is_own_or_edge(&self, colour: Colour, place: usize) -> bool
        requires { place < place_count }
        ensures { IsTrue result ↔ IsOwnOrEdge self.now colour place }
    {
        let cell = self.at(place);
        cell == Cell::stone(colour) || cell == Cell::Edge
    }

    /// Whether at most one diagonal neighbour of a point holds this stone, and none does if a diagonal neighbour is
    /// edge.
    #[inline]
    fn has_few_across(&self, stone: Cell, place: usize) -> bool
        requires { IsOn most_size place }
        ensures { IsTrue result ↔ AreFewAcross self.now stone place }
    {
        let stones = self.count_across(place, stone);
        stones == 0 || stones <= 1 && self.count_across(place, Cell::Edge) == 0
    }

    /// How many diagonal neighbours of a point hold this.
    #[inline]
    fn count_across(&self, place: usize, wanted: Cell) -> u32
        requires { IsOn most_size place }
        ensures none { (result ≡ 0) ↔ ((q : ℕ) → ¬ HoldsAcross self.now place wanted q) }
        ensures one { (result ≤ 1)
            ↔ ((q r : ℕ) → HoldsAcross self.now place wanted q
            → HoldsAcross self.now place wanted r → q ≡ r) }
    {
        self.count_at(place + (ROW + 1), wanted)
            + self.count_at(place - (ROW + 1), wanted)
            + self.count_at(place + (ROW - 1), wanted)
            + self.count_at(place - (ROW - 1), wanted)
    }

    /// 1 if a place holds this, and 0 if not.
    #[inline]
    fn count_at(&self, place: usize, wanted: Cell) -> u32
        ensures yes { at self.now place ≡ wanted → result ≡ 1 }
        ensures no { at self.now place ≢ wanted → result ≡ 0 }
        ensures few { result ≤ 1 }
    {
        if self.at_or_edge(place) == wanted {
            1
        } else {
            0
        }
    }

    /// What a place holds. Places past the last one count as edge.
    #[inline]
    fn at_or_edge(&self, place: usize) -> Cell
        ensures { result ≡ at self.now place }
    {
        if place < PLACES {
            self.cells[place]
        } else {
            Cell::Edge
        }
    }
}
