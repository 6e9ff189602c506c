//! A reader of replies, for callers in other languages.
ghost use Rattle.std.specs.Prelude.{◌≡◌};
ghost use Rattle.std.specs.Borrow.{Lends, full_share, sem};
ghost use Rattle.std.specs.Ptr.{lies_at};
ghost use Rattle.vintsaky_calls.specs.declared.replies.Replies.{Replies};
ghost use Rattle.vintsaky_calls.specs.contracts.replies.Replies.{the_row as replies_row};

pub mod exports;

use std::marker::{Model, Send};
use vintsaky_calls::replies::Replies;

/// A reader of replies in the caller's memory.
#[repr(C)]
pub struct RepliesHandle {
    at: *mut u8,
    pub ghost value: { Replies } by { replies_row.coded },
}

impl Model for RepliesHandle {
    ghost also_owns = { λ h. lies_at replies_row full_share h.at h.value };
}

unsafe impl Send for RepliesHandle {}

impl RepliesHandle {
    ghost use Rattle.vintsaky.specs.contracts.replies.RepliesHandle.{the_row};

    /// Borrows the reader in the memory. Changes to it are changes to the handle's reader.
    pub fn get_mut(&mut self) -> &mut Replies
        ensures* writes_back { sem 𝓛 (Lends the_row replies_row self.entry result
            (λ v. record self.entry.now { value = v })) }
        ensures value { result.now ≡ self.old.value }
    {
        // SAFETY: a reader of replies lies at the address, and the handle owns it: `also_owns` of its model has that.
        unsafe { &mut *(self.at as *mut Replies) }
    }
}
