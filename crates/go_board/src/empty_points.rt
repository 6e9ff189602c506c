//! The list of the empty points, from which a playout draws.
ghost use Rattle.std.specs.Prelude.{◌≡◌, ◌<◌, ◌≤◌, ◌+◌, [], ◌∷◌, ◌++◌, length, slice_get, Some};
ghost use Rattle.std.specs.List.{swap, swap_remove};
ghost use Rattle.go_board.specs.Board.{place_count};

use crate::board::PLACES;
use crate::places::Places;
use arrayvec::ArrayVec;
use std::marker::Model;

/// Places of a board in some order, each at an index.
#[derive(Drop)]
pub struct EmptyPoints {
    places: ArrayVec<u16, PLACES>,
}

impl Model for EmptyPoints {
    ghost use Rattle.std.specs.Prelude.{List, ℕ};

    ghost Value = { List ℕ };

    ghost view = { λ e. e.places.items };
}

impl EmptyPoints {
    ghost use Rattle.go_board.specs.private.EmptyPoints.{InsertsFrom, AreInserted};

    /// An empty list.
    pub fn new() -> Self
        ensures { result ≡ [] }
    {
        EmptyPoints {
            places: ArrayVec::new(),
        }
    }

    /// How many places there are.
    #[inline]
    pub fn len(&self) -> usize
        ensures value { result ≡ length self.now }
        ensures few { result ≤ place_count }
    {
        self.places.len()
    }

    /// The place at `index`, counted from 0.
    #[inline]
    pub fn get(&self, index: usize) -> usize
        requires { index < length self.now }
        ensures { slice_get self.now index ≡ Some result }
    {
        usize::from(self.places[index])
    }

    /// Exchanges the places at two indices.
    #[inline]
    pub fn exchange(&mut self, first: usize, second: usize)
        requires first { first < length self.old }
        requires second { second < length self.old }
        ensures { self.new ≡ swap self.old first second }
    {
        self.places.swap(first, second);
    }

    /// Removes the place at an index and returns it. The last place moves to that index.
    #[inline]
    pub fn remove(&mut self, index: usize) -> usize
        requires { index < length self.old }
        ensures place { slice_get self.old index ≡ Some result }
        ensures left { self.new ≡ swap_remove self.old index result }
    {
        usize::from(self.places.swap_remove(index))
    }

    /// Appends a place.
    #[inline]
    pub fn push(&mut self, place: usize)
        requires place { place < place_count }
        requires room { length self.old < place_count }
        ensures { self.new ≡ self.old ++ place ∷ [] }
    {
        self.places.push(place as u16);
    }

    /// Inserts a place among those after the first `start`, which are in rising order, so that they stay in that order.
    #[inline]
    pub fn insert_from(&mut self, start: usize, place: usize)
        requires place { place < place_count }
        requires start { start ≤ length self.old }
        requires room { length self.old < place_count }
        ensures { InsertsFrom self.old start place self.new }
    {
        let mut index = self.places.len();
        while index > start && usize::from(self.places[index - 1]) > place {
            index -= 1;
        }
        self.places.insert(index, place as u16);
    }

    /// Appends all these places in rising order.
    #[inline]
    pub fn add_rising(&mut self, places: &Places)
        requires { length self.old + length places.now ≤ place_count }
        ensures { AreInserted self.old places.now self.new }
    {
        let start = self.places.len();
        for index in 0..places.len() {
            self.insert_from(start, places.get(index));
        }
    }
}
