//! Sizes of a board.
ghost use Rattle.std.specs.Prelude.{◌≡◌, ◌↔◌, IsSome, IfSome};
ghost use Rattle.go_base.specs.Size.{IsSize};

use std::marker::Model;

/// The greatest size of a board.
const MOST_SIZE: u32 = 25;

/// The size of a board, which is the number of its columns and of its rows: 1 to 25.
#[derive(Clone, Copy, Debug, PartialEq, Eq)]
pub struct Size {
    number: u32,
}

impl Model for Size {
    ghost use Rattle.std.specs.Prelude.{ℕ};
    ghost use Rattle.go_base.specs.Size.{IsSize};

    ghost Value = { ℕ };

    ghost view = { λ s. s.number };

    ghost invariant = { λ s. IsSize s.number };

    ghost inverse = { λ n. record { number = n } };
}

impl Size {
    /// The size of this number. Returns `None` unless it is 1 to 25.
    pub fn new(number: u32) -> Option<Size>
        ensures limits { IsSome result ↔ IsSize number }
        ensures value { IfSome result (λ size. size ≡ number) }
    {
        if !(1..=MOST_SIZE).contains(&number) {
            return None;
        }
        Some(Size { number })
    }

    /// The number of columns and of rows.
    pub fn get(self) -> u32
        ensures value { result ≡ self }
        ensures limits { IsSize self }
    {
        self.number
    }
}
