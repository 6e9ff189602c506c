//! A set of places that remembers the order of insertion.
ghost use Rattle.std.specs.Prelude.{◌≡◌, ◌≢◌, ℕ, ◌<◌, ◌≤◌, ◌↔◌, ◌⊎◌, [], ◌∷◌, ◌++◌, Contains, IsTrue, length};
ghost use Rattle.std.specs.Prelude.{slice_index};
ghost use Rattle.std.specs.List.{AllPairs};
ghost use Rattle.go_board.specs.Board.{place_count};

use crate::board::PLACES;
use arrayvec::ArrayVec;
use std::marker::Model;

/// Places of a board, each once, in the order of insertion.
#[derive(Drop)]
pub struct Places {
    marked: [bool; PLACES],
    order: ArrayVec<u16, PLACES>,
}

impl Model for Places {
    ghost use Rattle.std.specs.Prelude.{List, ℕ};

    ghost Value = { List ℕ };

    ghost use Rattle.go_board.specs.private.Places.{places_of, AreMarked};

    ghost view = { places_of };

    ghost invariant = { AreMarked };
}

impl Places {
    /// The empty set.
    #[inline]
    pub fn new() -> Self
        ensures { result ≡ [] }
    {
        Places {
            marked: [false; PLACES],
            order: ArrayVec::new(),
        }
    }

    /// How many places there are.
    #[inline]
    pub fn len(&self) -> usize
        ensures value { result ≡ length self.now }
        ensures few { result ≤ place_count }
        ensures once { AllPairs (λ p q. p ≢ q) self.now }
    {
        self.order.len()
    }

    /// Whether a place is in the set.
    #[inline]
    pub fn contains(&self, place: usize) -> bool
        requires { place < place_count }
        ensures { IsTrue result ↔ Contains self.now place }
    {
        self.marked[place]
    }

    /// The place that was inserted after `index` others.
    #[inline]
    pub fn get(&self, index: usize) -> usize
        requires { index < length self.now }
        ensures value { result ≡ slice_index self.now index }
        ensures below { result < place_count }
    {
        usize::from(self.order[index])
    }

    /// Inserts a place, unless it is in the set already.
    #[inline]
    pub fn insert(&mut self, place: usize)
        requires { place < place_count }
        ensures put_in { Contains self.new place }
        ensures kept { (self.new ≡ self.old) ⊎ (self.new ≡ self.old ++ place ∷ []) }
    {
        if !self.marked[place] {
            self.marked[place] = true;
            self.order.push(place as u16);
        }
    }

    /// Removes all places, in as many steps as there are places.
    pub fn clear(&mut self)
        ensures { self.new ≡ [] }
    {
        for index in 0..self.order.len() {
            self.marked[usize::from(self.order[index])] = false;
        }
        self.order.clear();
    }
}
