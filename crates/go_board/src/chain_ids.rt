//! The chain id of each place of a board.
ghost use Rattle.std.specs.Prelude.{◌≡◌, ◌<◌, ◌≤◌, ℕ};
ghost use Rattle.go_base.specs.Size.{most_size};
ghost use Rattle.go_board.specs.Board.{place_count};
ghost use Rattle.go_board.specs.private.Steps.{rename};

use crate::board::{Board, PLACES, ROW};
use crate::places::Places;
use std::marker::Model;

/// An id for each place of a board. An id is itself the number of a place.
#[derive(Clone, Copy)]
pub struct ChainIds {
    ids: [u16; PLACES],
}

impl Model for ChainIds {
    ghost use Rattle.std.specs.Prelude.{List, ℕ};

    ghost Value = { List ℕ };

    ghost view = { λ l. l.ids };

    ghost use Rattle.go_board.specs.private.ChainId.{AreOnBoard};

    ghost invariant = { λ l. AreOnBoard l.ids };

    ghost inverse = { λ ids. record { ids = ids } };
}

impl ChainIds {
    ghost use Rattle.std.specs.Prelude.{length, replicate, slice_set, map};
    ghost use Rattle.go_board.specs.Board.{at, IsStone};
    ghost use Rattle.go_board.specs.private.ChainId.{id_of, AreChainIds};
    ghost use Rattle.go_board.specs.private.Steps.{rename_three, AreGiven, AreOthersKept};
    ghost use Rattle.go_board.specs.private.Frame.{IsFramed};
    ghost use Rattle.go_board.specs.private.NamedIds.{AreInRows, AreNamed};

    /// Gives each place id 0, which no stone has.
    pub fn none() -> Self
        ensures { result ≡ replicate place_count 0 }
    {
        ChainIds { ids: [0; PLACES] }
    }

    /// The id of a place.
    #[inline]
    pub fn at(&self, place: usize) -> usize
        requires { place < place_count }
        ensures value { result ≡ id_of self.now place }
        ensures below { result < place_count }
    {
        usize::from(self.ids[place])
    }

    /// Sets the id of a place.
    #[inline]
    pub fn set(&mut self, place: usize, id: usize)
        requires place { place < place_count }
        requires id { id < place_count }
        ensures value { self.new ≡ slice_set self.old place id }
        ensures long { length self.old ≡ place_count }
    {
        self.ids[place] = id as u16;
    }

    /// Sets the id of each of these places.
    pub fn set_all(&mut self, places: &Places, id: usize)
        requires { id < place_count }
        ensures given { AreGiven self.new places.now id }
        ensures others { AreOthersKept self.old self.new places.now }
        ensures long { length self.new ≡ place_count }
    {
        // A look: there are as many ids as places.
        let _ = &self.ids;
        for index in 0..places.len() {
            self.set(places.get(index), id);
        }
    }

    /// Finds the chains of a board and gives them ids from scratch: the id of a chain is its first place.
    pub fn from_board(board: &Board) -> ChainIds
        requires { IsFramed board.now }
        ensures ids { AreChainIds board.now result }
        ensures blank { (p : ℕ) → ¬ IsStone (at board.now p) → id_of result p ≡ 0 }
    {
        let mut ids = ChainIds::none();
        let mut chain = Places::new();
        for place in 0..PLACES {
            if board.at(place).is_stone() && ids.at(place) == 0 {
                board.chain_into(place, &mut chain);
                ids.set_all(&chain, place);
            }
        }
        ids
    }

    /// Renames three ids to one, in one pass over the rows of a board of `lines` lines. All other places have id 0.
    pub fn join(&mut self, to: usize, a: usize, b: usize, c: usize, lines: usize)
        requires to { to < place_count }
        requires named { AreNamed a b c }
        requires lines { lines ≤ most_size }
        requires rows { AreInRows self.old lines }
        ensures { self.new ≡ map (rename_three to a b c) self.old }
    {
        let (to, a, b, c) = (to as u16, a as u16, b as u16, c as u16);
        for place in ROW..ROW * (lines + 1) {
            self.ids[place] = rename(to, c, rename(to, b, rename(to, a, self.ids[place])));
        }
    }
}

/// The new id when one id is renamed to another.
#[inline]
fn rename(to: u16, from: u16, id: u16) -> u16
    ensures { result ≡ rename to from id }
{
    if id == from { to } else { id }
}
