//! Sets of columns in a row of places.
ghost use Rattle.std.specs.Prelude.{◌≡◌, ◌≢◌, ℕ, ◌<◌, ◌↔◌, ◌⊎◌, IsTrue};
ghost use Rattle.go_board.specs.private.Columns.{Has};

use std::marker::Model;
use std::simd::prelude::*;

/// Columns in a row of places. With them a search of all points handles a whole row at once.
#[derive(Clone, Copy)]
pub struct Columns {
    /// A bit for each column; the lowest bit is the first column.
    bits: u32,
}

impl Model for Columns {
    ghost use Rattle.std.specs.Prelude.{ℕ};
    ghost use Rattle.go_board.specs.private.Columns.{AreColumns};

    ghost Value = { ℕ };

    ghost view = { λ c. c.bits };

    ghost invariant = { λ c. AreColumns c.bits };

    ghost inverse = { λ n. record { bits = n } };
}

impl Columns {
    ghost use Rattle.std.specs.Prelude.{get_or};
    ghost use Rattle.go_board.specs.private.Columns.{AreLanes, IsFirst, IsBesideAny};

    /// The empty set.
    #[inline]
    pub fn none() -> Self
        ensures { (k : ℕ) → ¬ Has result k }
    {
        Columns { bits: 0 }
    }

    /// The columns whose lanes are 1.
    #[inline]
    pub fn from_lanes(lanes: [u8; 32]) -> Self
        requires { AreLanes lanes }
        ensures { (k : ℕ) → Has result k ↔ (get_or lanes k 0 ≡ 1) }
    {
        let ones = u8x32::from_array(lanes).simd_eq(u8x32::splat(1));
        Columns {
            bits: ones.to_bitmask() as u32,
        }
    }

    /// Adds a column if the flag is set.
    #[inline]
    pub fn add_if(&mut self, wanted: bool, column: usize)
        requires { column < 26 }
        ensures { (k : ℕ) → Has self.new k ↔ (Has self.old k ⊎ (IsTrue wanted × (k ≡ column))) }
    {
        self.bits |= (wanted as u32) << column;
    }

    /// Removes the first column and returns it. Returns `None` if there is none.
    #[inline]
    pub fn pop_first(&mut self) -> Option<usize>
        ensures { IsFirst self.old self.new result }
    {
        if self.bits == 0 {
            return None;
        }
        let first = self.bits.trailing_zeros() as usize;
        self.bits &= self.bits - 1;
        Some(first)
    }

    /// The columns that aren't in `others`.
    #[inline]
    pub fn without(self, others: Columns) -> Self
        ensures { (k : ℕ) → Has result k ↔ (Has self k × ¬ Has others k) }
    {
        Columns {
            bits: self.bits & !others.bits,
        }
    }

    /// The columns that are next to another one of the set, or are also in the row below or above.
    #[inline]
    pub fn beside_any(self, below: Columns, above: Columns) -> Self
        ensures { (k : ℕ) → Has result k ↔ (Has self k × IsBesideAny self below above k) }
    {
        let beside = self.bits << 1 | self.bits >> 1;
        Columns {
            bits: self.bits & (beside | below.bits | above.bits),
        }
    }
}
