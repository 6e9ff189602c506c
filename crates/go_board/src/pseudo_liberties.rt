//! The pseudo-liberties of each chain: the empty neighbours of its stones, counted per stone.
ghost use Rattle.std.specs.Prelude.{◌≡◌, ◌+◌, ◌-◌, ◌%◌, ◌<◌, ◌≤◌};
ghost use Rattle.go_base.specs.Point.{IsOn};
ghost use Rattle.go_base.specs.Size.{most_size};
ghost use Rattle.go_board.specs.Board.{place_count};

use crate::board::{Board, PLACES, ROW};
use crate::chain_ids::ChainIds;
use std::marker::Model;

/// The pseudo-liberties of the chain with each id.
#[derive(Clone, Copy)]
pub struct PseudoLiberties {
    counts: [u16; PLACES],
}

impl Model for PseudoLiberties {
    ghost use Rattle.std.specs.Prelude.{◌≡◌, List, ℕ, length};

    ghost Value = { List ℕ };

    ghost view = { λ c. c.counts };

    ghost use Rattle.go_board.specs.Board.{place_count};

    ghost invariant = { λ c. length c.counts ≡ place_count };

    ghost inverse = { λ counts. record { counts = counts } };
}

impl PseudoLiberties {
    ghost use Rattle.std.specs.Prelude.{replicate, slice_set};
    ghost use Rattle.go_board.specs.private.Frame.{IsFramed};
    ghost use Rattle.go_board.specs.private.ChainId.{count_at, ArePseudoLiberties};
    ghost use Rattle.go_board.specs.private.Steps.{IsMoved};
    ghost use Rattle.go_board.specs.private.NamedIds.{AreAllLowered, AreAllRaised};

    /// No chain has any pseudo-liberties.
    pub fn zero() -> Self
        ensures { result ≡ replicate place_count 0 }
    {
        PseudoLiberties {
            counts: [0; PLACES],
        }
    }

    /// Counts, stone by stone, the pseudo-liberties of a board whose chains have these ids.
    pub fn new(board: &Board, ids: &ChainIds) -> Self
        requires { IsFramed board.now }
        ensures { ArePseudoLiberties board.now ids.now result }
    {
        let mut counts = PseudoLiberties::zero();
        for place in 0..PLACES {
            if board.at(place).is_stone() {
                let more = board.empty_beside(place);
                counts.add(ids.at(place), more);
            }
        }
        counts
    }

    /// The pseudo-liberties of an id.
    #[inline]
    pub fn at(&self, id: usize) -> u32
        requires { id < place_count }
        ensures { result ≡ count_at self.now id }
    {
        u32::from(self.counts[id])
    }

    /// Adds `more` pseudo-liberties to an id.
    #[inline]
    pub fn add(&mut self, id: usize, more: u32)
        requires id { id < place_count }
        requires room { count_at self.old id + more ≤ 65535 }
        ensures { self.new ≡ slice_set self.old id (count_at self.old id + more) }
    {
        self.counts[id] += more as u16;
    }

    /// Subtracts `less` pseudo-liberties from an id, but not below 0.
    #[inline]
    pub fn lessen(&mut self, id: usize, less: u32)
        requires id { id < place_count }
        requires less { less ≤ 65535 }
        ensures { self.new ≡ slice_set self.old id (count_at self.old id - less) }
    {
        self.counts[id] = self.counts[id].saturating_sub(less as u16);
    }

    /// Moves the pseudo-liberties of one id to another, unless they are the same id.
    #[inline]
    pub fn merge(&mut self, to: usize, from: usize)
        requires to { to < place_count }
        requires from { from < place_count }
        requires room { count_at self.old to + count_at self.old from ≤ 65535 }
        ensures { IsMoved self.old self.new to from }
    {
        if to != from {
            self.counts[to] += self.counts[from];
            self.counts[from] = 0;
        }
    }

    /// Subtracts one for each place beside a point, from the id of that place, but not below 0.
    #[inline]
    pub fn lower_all_beside(&mut self, ids: &ChainIds, place: usize)
        requires { IsOn most_size place }
        ensures { AreAllLowered ids.now self.old self.new place }
    {
        // A look: there are as many numbers as places.
        let _ = &self.counts;
        self.lessen(ids.at(place + 1), 1);
        self.lessen(ids.at(place - 1), 1);
        self.lessen(ids.at(place + ROW), 1);
        self.lessen(ids.at(place - ROW), 1);
    }

    /// Adds one to an id. 65,535 becomes 0.
    #[inline]
    fn raise_id(&mut self, id: usize)
        requires { id < place_count }
        ensures { self.new ≡ slice_set self.old id ((count_at self.old id + 1) % 65536) }
    {
        self.counts[id] = self.counts[id].wrapping_add(1);
    }

    /// Adds one for each place beside a point, to the id of that place. The numbers aren't checked: for an id that no
    /// stone has, any number will do.
    #[inline]
    pub fn raise_all_beside(&mut self, ids: &ChainIds, place: usize)
        requires { IsOn most_size place }
        ensures { AreAllRaised ids.now self.old self.new place }
    {
        // A look: there are as many numbers as places.
        let _ = &self.counts;
        self.raise_id(ids.at(place + 1));
        self.raise_id(ids.at(place - 1));
        self.raise_id(ids.at(place + ROW));
        self.raise_id(ids.at(place - ROW));
    }
}
