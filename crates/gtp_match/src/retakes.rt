//! How often the move of each number was refused and retaken.
ghost use Rattle.std.specs.Prelude.{◌≡◌, ◌<◌, ◌≤◌};
ghost use Rattle.go_board.specs.Game.{most_moves};
ghost use Rattle.gtp_match.specs.Retakes.{most_retakes, no_retakes, retakes_of, with_retake};

use go_board::MOST_MOVES;
use std::marker::Model;

/// The most retakes of one number in a match.
pub const MOST_RETAKES: u32 = 3;

/// The retakes of each number, a byte for each.
#[derive(Drop)]
pub struct Retakes {
    counts: [u8; MOST_MOVES],
}

impl Model for Retakes {
    ghost use Rattle.std.specs.Prelude.{◌≡◌, List, ℕ, length};
    ghost use Rattle.go_board.specs.Game.{most_moves};

    ghost Value = { List ℕ };

    ghost view = { λ r. r.counts };

    ghost invariant = { λ r. length r.counts ≡ most_moves };
}

impl Retakes {
    /// Returns a table without retakes.
    pub fn new() -> Retakes
        ensures { result ≡ no_retakes }
    {
        Retakes {
            counts: [0; MOST_MOVES],
        }
    }

    /// Returns how often the move of this number, counted from 1, was retaken. It is 0 for a number that was never
    /// retaken.
    pub fn of(&self, number: u32) -> u32
        ensures { result ≡ retakes_of self.now number }
    {
        if number == 0 {
            return 0;
        }
        match self.counts.get(number as usize - 1) {
            Some(count) => u32::from(*count),
            None => 0,
        }
    }

    /// Adds a retake of the move of this number.
    pub fn add(&mut self, number: u32)
        requires first { 0 < number }
        requires last { number ≤ most_moves }
        requires few { retakes_of self.old number < most_retakes }
        ensures { self.new ≡ with_retake number self.old }
    {
        self.counts[number as usize - 1] += 1;
    }
}
