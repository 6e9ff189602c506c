//! The points of a game's board by index, lists with a value for each point, and the ko point.
ghost use Rattle.std.specs.Prelude.{◌≡◌, ◌*◌, ◌<◌, ◌≤◌, ◌↔◌, ℕ, IsTrue, IfSome, MatchOption};
ghost use Rattle.go_base.specs.Point.{IsOn};
ghost use Rattle.go_base.specs.Size.{most_size};
ghost use Rattle.go_board.specs.Board.{place_count};
ghost use Rattle.go_board.specs.Index.{IsIndex};

use super::{Game, MOST_POINTS};
use crate::board::{Cell, PLACES, ROW, point_at};
use arrayvec::ArrayVec;
use go_base::{Colour, Point, Size};

impl Game {
    ghost use Rattle.go_board.specs.Board.{stone_at};
    ghost use Rattle.go_board.specs.Game.{board_of};
    ghost use Rattle.go_board.specs.Index.{AreStones, AreLegalMarks};
    ghost use Rattle.go_board.specs.KoPoint.{IsKoPoint, IsOnlyKoPoint};
    ghost use Rattle.go_board.specs.Refusals.{RefusesPoint};
    ghost use Rattle.go_board.specs.declared.faults.PlayFault.TheVariants.{Ko};

    /// The index of a point of the board, counted from 0 in the order A1, B1, .., A2, B2, ... Returns `None` if the
    /// board doesn't have the point.
    pub fn index(&self, point: Point) -> Option<usize>
        ensures index { MatchOption result
            (¬ IsOn self.now.size point)
            (λ index. IsIndex self.now.size point index) }
        ensures below { IfSome result (λ index. index < self.now.size * self.now.size) }
    {
        let size = self.size();
        if !point.on(size) {
            return None;
        }
        Some(number_of(size, point))
    }

    /// The point with this index, as `index` counts. Returns `None` if the board has no such point.
    pub fn point(&self, index: usize) -> Option<Point>
        ensures { MatchOption result
            (self.now.size * self.now.size ≤ index)
            (λ point. IsIndex self.now.size point index) }
    {
        let size = self.size();
        if index >= point_count(size) {
            return None;
        }
        Some(point_at(place_at(size, index)))
    }

    /// Writes the stones on all points of the board to `stones`, in the order A1, B1, .., A2, B2, ..., replacing what
    /// was there. `None` represents an empty point.
    pub fn board_into(&self, stones: &mut ArrayVec<Option<Colour>, MOST_POINTS>)
        ensures { AreStones self.now stones.new.items }
    {
        let size = self.size();
        stones.clear();
        for index in 0..point_count(size) {
            stones.push(self.colour_at(place_at(size, index)));
        }
    }

    /// Writes to `mask`, for all points of the board in the order A1, B1, .., A2, B2, ..., whether a colour may play
    /// there next, as `legal` does. What was in `mask` is replaced.
    pub fn legal_mask_into(&self, colour: Colour, mask: &mut ArrayVec<bool, MOST_POINTS>)
        ensures { AreLegalMarks self.now colour mask.new.items }
    {
        let size = self.size();
        mask.clear();
        for index in 0..point_count(size) {
            mask.push(self.is_legal_at(colour, place_at(size, index)));
        }
    }

    /// The colour of the stone on a place, if there is one.
    #[inline]
    fn colour_at(&self, place: usize) -> Option<Colour>
        requires { place < place_count }
        ensures { result ≡ stone_at (board_of self.now) place }
    {
        match self.chains.at(place) {
            Cell::Black => Some(Colour::Black),
            Cell::White => Some(Colour::White),
            Cell::Empty | Cell::Edge => None,
        }
    }

    /// The one empty point on which a play of this colour would bring back the board before the last move. Returns
    /// `None` if there is none. Both ko rules forbid that play, and `refusal` returns `Ko` for it.
    pub fn ko_point(&self, colour: Colour) -> Option<Point>
        ensures point { IsOnlyKoPoint self.now colour result }
        ensures refused { IfSome result (λ point. RefusesPoint self.now colour point Ko) }
    {
        let ko = self.ko?;
        let place = ko.point;
        if self.is_ko(colour, place) {
            Some(point_at(place))
        } else {
            None
        }
    }

    /// Whether a place is an empty point on which a play would bring back the board before the last move.
    #[inline]
    fn is_ko(&self, colour: Colour, place: usize) -> bool
        ensures { IsTrue result ↔ IsKoPoint self.now colour place }
    {
        place < PLACES && self.chains.at(place) == Cell::Empty && self.repeats_last(colour, place)
    }
}

/// How many points a board of this size has.
#[inline]
fn point_count(size: Size) -> usize
    ensures value { result ≡ size * size }
    ensures few { result ≤ 625 }
{
    let lines = size.get() as usize;
    lines * lines
}

/// The index of a point on a board of this size.
#[inline]
fn number_of(size: Size, point: Point) -> usize
    requires { IsOn size point }
    ensures number { IsIndex size point result }
    ensures below { result < size * size }
{
    let lines = size.get() as usize;
    let row = point.row() as usize - 1;
    let column = point.column() as usize - 1;
    row * lines + column
}

/// The place of the point with this index on a board of this size.
#[inline]
fn place_at(size: Size, index: usize) -> usize
    requires { index < size * size }
    ensures number { IsIndex size result index }
    ensures below { result < place_count }
    ensures point { IsOn most_size result }
{
    let lines = size.get() as usize;
    let row = index / lines + 1;
    let column = index % lines + 1;
    ROW * row + column
}
