//! A sans-IO engine, for callers in other languages.
ghost use Rattle.std.specs.Prelude.{◌≡◌};
ghost use Rattle.std.specs.Borrow.{Lends, full_share, sem};
ghost use Rattle.std.specs.Ptr.{lies_at};
ghost use Rattle.gtp_session.specs.Steps.{StepsState};
ghost use Rattle.gtp_session.specs.contracts.steps.Steps.{the_row as engine_row};

pub mod exports;

use gtp_session::steps::Steps;
use std::marker::{Model, Send};

/// A sans-IO engine in the caller's memory.
#[repr(C)]
pub struct EngineHandle {
    at: *mut u8,
    pub ghost value: { StepsState } by { engine_row.coded },
}

impl Model for EngineHandle {
    ghost also_owns = { λ h. lies_at engine_row full_share h.at h.value };
}

unsafe impl Send for EngineHandle {}

impl EngineHandle {
    ghost use Rattle.vintsaky.specs.contracts.engine.EngineHandle.{the_row};

    /// Borrows the engine in the memory. Changes to it are changes to the handle's engine.
    pub fn get_mut(&mut self) -> &mut Steps
        ensures* writes_back { sem 𝓛 (Lends the_row engine_row self.entry result
            (λ v. record self.entry.now { value = v })) }
        ensures value { result.now ≡ self.old.value }
    {
        // SAFETY: an engine lies at the address, and the handle owns it: `also_owns` of its model has that.
        unsafe { &mut *(self.at as *mut Steps) }
    }
}
