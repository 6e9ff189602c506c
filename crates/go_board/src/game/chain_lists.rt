//! The stones and the liberties of a chain.

use super::{Game, MOST_POINTS};
use crate::board::{ROW, place_of, point_at};
use arrayvec::ArrayVec;
use go_base::Point;

impl Game {
    ghost use Rattle.go_board.specs.Game.{board_of};
    ghost use Rattle.go_board.specs.ChainPoints.{AreChainPoints, AreChainLiberties};

    /// Writes the stones of a chain to `points`, in the order A1, B1, .., A2, B2, ..., replacing what was there. The
    /// chain is that of the stone on `point`; if the point is empty or off the board, the list is empty.
    pub fn chain_points_into(&self, point: Point, points: &mut ArrayVec<Point, MOST_POINTS>)
        ensures { AreChainPoints (board_of self.now) point points.new.items }
    {
        let lines = self.size().get() as usize;
        let stone = place_of(point);
        points.clear();
        if !self.chains.at(stone).is_stone() {
            return;
        }
        for place in ROW..ROW * (lines + 1) {
            if self.chains.joins(stone, place) {
                points.push(point_at(place));
            }
        }
    }

    /// Writes the liberties of a chain to `points`, each once and in the order A1, B1, .., A2, B2, ..., replacing what
    /// was there. The chain is that of the stone on `point`; if the point is empty or off the board, the list is empty.
    pub fn chain_liberties_into(&self, point: Point, points: &mut ArrayVec<Point, MOST_POINTS>)
        ensures { AreChainLiberties (board_of self.now) point points.new.items }
    {
        let lines = self.size().get() as usize;
        let stone = place_of(point);
        points.clear();
        if !self.chains.at(stone).is_stone() {
            return;
        }
        for place in ROW..ROW * (lines + 1) {
            if self.chains.has_liberty(stone, place) {
                points.push(point_at(place));
            }
        }
    }
}
