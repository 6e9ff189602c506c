//! The stones that moves have captured.
ghost use Rattle.std.specs.Prelude.{◌≡◌, ◌<◌, ◌≤◌, ◌++◌, ◌↔◌, [], ◌∷◌, length, IsTrue};
ghost use Rattle.go_board.specs.Board.{place_count};
ghost use Rattle.go_board.specs.private.TakenStack.{most_taken};

use crate::empty_points::EmptyPoints;
use arrayvec::ArrayVec;
use std::marker::Model;

/// The capacity, in stones: each was placed by one of 2,000 moves, or is one of the 9 of a handicap.
pub const MOST_TAKEN: usize = 2009;

/// A stone that a move captured.
#[derive(Clone, Copy, Debug, PartialEq, Eq)]
pub struct TakenStone {
    /// The place where it was.
    pub place: u16,
    /// How many moves came before the move that captured it.
    pub number: u16,
}

impl Default for TakenStone {
    ghost use Rattle.std.specs.Prelude.{◌≡◌};

    ghost is_default = { λ taken. taken ≡ record { place = 0; number = 0 } };

    /// Place 0, before all moves.
    fn default() -> TakenStone {
        TakenStone {
            place: 0,
            number: 0,
        }
    }
}

/// The stones that moves have captured, the latest last.
#[derive(Drop)]
pub struct TakenStack {
    stones: ArrayVec<TakenStone, MOST_TAKEN>,
}

impl Model for TakenStack {
    ghost use Rattle.std.specs.Prelude.{List};
    ghost use Rattle.go_board.specs.declared.taken_stack.TakenStone.{TakenStone};

    ghost Value = { List TakenStone };

    ghost view = { λ r. r.stones.items };
}

impl TakenStack {
    ghost use Rattle.std.specs.Prelude.{IfSome, IfNone, ℕ, All, ◌+◌};
    ghost use Rattle.go_board.specs.private.TakenStack.{taken_at, IsNotLast, IsOnlyTaken, AreLastOf};

    /// An empty stack.
    pub fn new() -> Self
        ensures { result ≡ [] }
    {
        TakenStack {
            stones: ArrayVec::new(),
        }
    }

    /// Returns a copy.
    pub fn copy(&self) -> Self
        ensures { result ≡ self.now }
    {
        let mut stones = ArrayVec::new();
        // The capacity suffices: both have the same.
        let _ = stones.try_extend_from_slice(&self.stones);
        TakenStack { stones }
    }

    /// Makes this a copy of another stack, in place.
    pub fn copy_from(&mut self, other: &TakenStack)
        ensures { self.new ≡ other.now }
    {
        // Each stone is read before its place is written, and no stone that the copy has is cleared.
        self.stones.truncate(other.stones.len());
        let (front, rest) = other.stones.split_at(self.stones.len());
        self.stones.as_mut_slice().copy_from_slice(front);
        // The capacity suffices: both have the same.
        let _ = self.stones.try_extend_from_slice(rest);
    }

    /// Pushes a stone.
    #[inline]
    pub fn push(&mut self, place: usize, number: usize)
        requires place { place < place_count }
        requires number { number < 65536 }
        requires room { length self.old < most_taken }
        ensures { self.new ≡ self.old ++ record { place = place; number = number } ∷ [] }
    {
        self.stones.push(TakenStone {
            place: place as u16,
            number: number as u16,
        });
    }

    /// Pushes a stone for each of these places, in their order.
    pub fn push_all(&mut self, places: &EmptyPoints, number: usize)
        requires places { All (λ place. place < place_count) places.now }
        requires number { number < 65536 }
        requires room { length self.old + length places.now ≤ most_taken }
        ensures { self.new ≡ self.old ++ taken_at number places.now }
    {
        for index in 0..places.len() {
            self.push(places.get(index), number);
        }
    }

    /// Pops the last stone and returns its place, if the move with this number captured it.
    pub fn pop_taken_by(&mut self, number: usize) -> Option<usize>
        ensures some { IfSome result
            (λ place. self.old ≡ self.new ++ record { place = place; number = number } ∷ []) }
        ensures none { IfNone result (IsNotLast self.old number) }
        ensures unchanged { IfNone result (self.new ≡ self.old) }
        ensures few { length self.old ≤ most_taken }
    {
        let (last, _) = self.stones.split_last()?;
        let last = *last;
        if usize::from(last.number) != number {
            return None;
        }
        // This is the stone that was looked at.
        let _ = self.stones.pop();
        Some(usize::from(last.place))
    }

    /// The stones, the latest last.
    #[inline]
    pub fn stones(&self) -> &[TakenStone]
        ensures { result.now ≡ self.now }
    {
        &self.stones
    }

    /// The stones that the move with this number captured, if no later move captured any.
    pub fn taken_by(&self, number: usize) -> &[TakenStone]
        ensures { AreLastOf self.now number result.now }
    {
        let stones = self.stones();
        let mut first = stones.len();
        while first > 0 && usize::from(stones[first - 1].number) == number {
            first -= 1;
        }
        &stones[first..]
    }

    /// The place of the last stone, if it is the only one that the move with this number captured.
    pub fn only_taken_by(&self, number: usize) -> Option<usize>
        ensures some { IfSome result (IsOnlyTaken self.now number) }
        ensures none { IfNone result ((place : ℕ) → ¬ IsOnlyTaken self.now number place) }
    {
        let (last, earlier) = self.stones.split_last()?;
        if usize::from(last.number) != number {
            return None;
        }
        if let Some((before, _)) = earlier.split_last() {
            if usize::from(before.number) == number {
                return None;
            }
        }
        Some(usize::from(last.place))
    }
}
