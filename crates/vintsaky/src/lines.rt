//! A reader of command lines, for callers in other languages.
ghost use Rattle.std.specs.Prelude.{◌≡◌};
ghost use Rattle.std.specs.Borrow.{Lends, full_share, sem};
ghost use Rattle.std.specs.Ptr.{lies_at};
ghost use Rattle.vintsaky_calls.specs.declared.lines.Lines.{Lines};
ghost use Rattle.vintsaky_calls.specs.contracts.lines.Lines.{the_row as lines_row};

pub mod exports;

use std::marker::{Model, Send};
use vintsaky_calls::lines::Lines;

/// A reader of command lines in the caller's memory.
#[repr(C)]
pub struct LinesHandle {
    at: *mut u8,
    pub ghost value: { Lines } by { lines_row.coded },
}

impl Model for LinesHandle {
    ghost also_owns = { λ h. lies_at lines_row full_share h.at h.value };
}

unsafe impl Send for LinesHandle {}

impl LinesHandle {
    ghost use Rattle.vintsaky.specs.contracts.lines.LinesHandle.{the_row};

    /// Borrows the reader in the memory. Changes to it are changes to the handle's reader.
    pub fn get_mut(&mut self) -> &mut Lines
        ensures* writes_back { sem 𝓛 (Lends the_row lines_row self.entry result
            (λ v. record self.entry.now { value = v })) }
        ensures value { result.now ≡ self.old.value }
    {
        // SAFETY: a reader of lines lies at the address, and the handle owns it: `also_owns` of its model has that.
        unsafe { &mut *(self.at as *mut Lines) }
    }
}
