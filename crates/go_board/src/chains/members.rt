//! Which stones belong to a chain, and which points are its liberties.
ghost use Rattle.std.specs.Prelude.{◌<◌, ◌↔◌, IsTrue};

use super::Chains;
use crate::board::{Cell, ROW};

impl Chains {
    ghost use Rattle.go_board.specs.Board.{place_count, at, IsStone};
    ghost use Rattle.go_board.specs.Chain.{Joined};
    ghost use Rattle.go_board.specs.Liberties.{IsLiberty};

    /// Whether a place holds a stone of another stone's chain.
    #[inline]
    pub fn joins(&self, stone: usize, place: usize) -> bool
        requires stone_on_board { stone < place_count }
        requires place { place < place_count }
        requires stone { IsStone (at self.now stone) }
        ensures { IsTrue result ↔ Joined self.now stone place }
    {
        self.at(place).is_stone() && self.stones.id(place) == self.stones.id(stone)
    }

    /// Whether a place is a liberty of a stone's chain.
    #[inline]
    pub fn has_liberty(&self, stone: usize, place: usize) -> bool
        requires stone_on_board { stone < place_count }
        requires place { place < place_count }
        requires stone { IsStone (at self.now stone) }
        ensures { IsTrue result ↔ IsLiberty self.now stone place }
    {
        // A look: an empty place is a point of the board.
        let _ = &self.stones;
        if self.at(place) != Cell::Empty {
            return false;
        }
        self.joins(stone, place + 1)
            || self.joins(stone, place - 1)
            || self.joins(stone, place + ROW)
            || self.joins(stone, place - ROW)
    }
}
