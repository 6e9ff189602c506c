//! The controller of a match, for callers in other languages.
ghost use Rattle.std.specs.Prelude.{◌≡◌};
ghost use Rattle.std.specs.Borrow.{Lends, full_share, sem};
ghost use Rattle.std.specs.Ptr.{lies_at};
ghost use Rattle.gtp_match.specs.referee.Refereed.{Refereed};
ghost use Rattle.gtp_match.specs.contracts.referee.refereed.RefereedMatch.{the_row as match_row};

pub mod exports;

use gtp_match::referee::RefereedMatch;
use std::marker::{Model, Send};

/// A match in the caller's memory.
#[repr(C)]
pub struct MatchHandle {
    at: *mut u8,
    pub ghost value: { Refereed } by { match_row.coded },
}

impl Model for MatchHandle {
    ghost also_owns = { λ h. lies_at match_row full_share h.at h.value };
}

unsafe impl Send for MatchHandle {}

impl MatchHandle {
    ghost use Rattle.vintsaky.specs.contracts.matches.MatchHandle.{the_row};

    /// Borrows the match in the memory. Changes to it are changes to the handle's match.
    pub fn get_mut(&mut self) -> &mut RefereedMatch
        ensures* writes_back { sem 𝓛 (Lends the_row match_row self.entry result
            (λ v. record self.entry.now { value = v })) }
        ensures value { result.now ≡ self.old.value }
    {
        // SAFETY: a match lies at the address, and the handle owns it: `also_owns` of its model has that.
        unsafe { &mut *(self.at as *mut RefereedMatch) }
    }
}
