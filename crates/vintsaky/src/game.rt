//! A game, for callers in other languages.
ghost use Rattle.std.specs.Prelude.{◌≡◌};
ghost use Rattle.std.specs.Borrow.{Lends, full_share, sem};
ghost use Rattle.std.specs.Ptr.{lies_at};
ghost use Rattle.go_board.specs.Game.{GameRecord};
ghost use Rattle.go_board.specs.contracts.game.Game.{the_row as game_row};

pub mod exports;
pub mod searching;

use go_board::Game;
use std::marker::{Model, Send};

/// A game in the caller's memory.
#[repr(C)]
pub struct GameHandle {
    at: *mut u8,
    pub ghost value: { GameRecord } by { game_row.coded },
}

impl Model for GameHandle {
    ghost also_owns = { λ h. lies_at game_row full_share h.at h.value };
}

unsafe impl Send for GameHandle {}

impl GameHandle {
    ghost use Rattle.vintsaky.specs.contracts.game.GameHandle.{the_row};

    /// Borrows the game in the memory. Changes to it are changes to the handle's game.
    pub fn get_mut(&mut self) -> &mut Game
        ensures* writes_back { sem 𝓛 (Lends the_row game_row self.entry result
            (λ v. record self.entry.now { value = v })) }
        ensures value { result.now ≡ self.old.value }
    {
        // SAFETY: a game lies at the address, and the handle owns it: `also_owns` of its model has that.
        unsafe { &mut *(self.at as *mut Game) }
    }
}
