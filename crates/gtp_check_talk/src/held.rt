//! Output of an engine that isn't taken yet.
ghost use Rattle.std.specs.Prelude.{◌≡◌, ◌≤◌, ◌==◌, [], drop, length};

use arrayvec::ArrayVec;
use go_base::push;
use gtp_process::READ_ROOM;
use std::marker::Model;

/// Output of an engine that was read and isn't taken yet. Taking bytes moves nothing in the buffer.
///
/// Its model is the bytes that aren't taken yet.
#[derive(Drop)]
pub struct Held {
    /// What was read last.
    bytes: ArrayVec<u8, READ_ROOM>,
    /// How many of these bytes were taken.
    heard: usize,
}

impl Model for Held {
    ghost use Rattle.std.specs.Prelude.{List, ℕ, ◌≤◌, drop, length};

    ghost Value = { List ℕ };

    ghost view = { λ h. drop h.heard h.bytes.items };

    ghost invariant = { λ h. h.heard ≤ length h.bytes.items };
}

impl Held {
    /// Returns a buffer without bytes.
    pub fn new() -> Held
        ensures { result ≡ [] }
    {
        Held {
            bytes: ArrayVec::new(),
            heard: 0,
        }
    }

    /// Returns whether all is taken.
    pub fn is_empty(&self) -> bool
        ensures { result ≡ (length self.now == 0) }
    {
        self.heard == self.bytes.len()
    }

    /// Returns the bytes that aren't taken yet.
    pub fn bytes(&self) -> &[u8]
        ensures { result.now ≡ self.now }
    {
        &self.bytes.as_slice()[self.heard..]
    }

    /// Holds these bytes instead of the old ones.
    pub fn hold(&mut self, bytes: &[u8])
        requires { length bytes.now ≤ READ_ROOM }
        ensures { self.new ≡ bytes.now }
    {
        self.bytes.clear();
        self.heard = 0;
        push(&mut self.bytes, bytes);
    }

    /// Notes that this many bytes were taken.
    pub fn pass(&mut self, count: usize)
        requires { count ≤ length self.old }
        ensures { self.new ≡ drop count self.old }
    {
        let rest = self.bytes().len() - count;
        self.heard = self.bytes.len() - rest;
    }

    /// Drops all bytes.
    pub fn clear(&mut self)
        ensures { self.new ≡ [] }
    {
        self.bytes.clear();
        self.heard = 0;
    }
}
