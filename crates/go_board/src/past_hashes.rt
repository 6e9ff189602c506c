//! The hashes of a game's boards, by which positional ko finds a board that would come back.
ghost use Rattle.std.specs.Prelude.{◌≡◌, ◌<◌, ◌-◌, ◌==◌, [], length, slice_index, take, IfSome};
ghost use Rattle.std.specs.List.{list_any};
ghost use Rattle.go_board.specs.Hash.{hash_of};
ghost use Rattle.go_board.specs.private.PastHashes.{added, most_boards};

use crate::board::Board;
use crate::rules::KoRule;
use arrayvec::ArrayVec;
use go_base::Size;
use std::marker::Model;

/// The most boards that a game has: the first, and one after each move of a full record.
const MOST_BOARDS: usize = 2001;

/// The hashes of a game's boards under positional ko, the latest last. Simple ko needs none, so the list is then empty.
#[derive(Drop)]
pub struct PastHashes {
    hashes: ArrayVec<u64, MOST_BOARDS>,
}

impl Model for PastHashes {
    ghost use Rattle.std.specs.Prelude.{List, ℕ};

    ghost Value = { List ℕ };

    ghost view = { λ r. r.hashes.items };
}

impl PastHashes {
    /// The hashes of a game that begins with this board.
    pub fn of_start(rule: KoRule, size: Size, board: &Board) -> Self
        ensures { result ≡ added rule [] (hash_of size board.now) }
    {
        let mut begun = PastHashes {
            hashes: ArrayVec::new(),
        };
        begun.add(rule, size, board, None);
        begun
    }

    /// Adds the hash of a board, if the rule needs it. The hash is computed if it isn't known.
    #[inline]
    pub fn add(&mut self, rule: KoRule, size: Size, board: &Board, known: Option<u64>)
        requires room { length self.old < most_boards }
        requires known { IfSome known (λ hash. hash ≡ hash_of size board.now) }
        ensures { self.new ≡ added rule self.old (hash_of size board.now) }
    {
        match (rule, known) {
            (KoRule::Simple, _) => {}
            (KoRule::Positional, Some(hash)) => self.hashes.push(hash),
            (KoRule::Positional, None) => self.hashes.push(board.hash(size)),
        }
    }

    /// Removes the last hash, if there is one.
    #[inline]
    pub fn drop_last(&mut self)
        ensures { self.new ≡ take (length self.old - 1) self.old }
    {
        let _ = self.hashes.pop();
    }

    /// The last hash.
    #[inline]
    pub fn last(&self) -> u64
        requires { 0 < length self.now }
        ensures { result ≡ slice_index self.now (length self.now - 1) }
    {
        self.hashes[self.hashes.len() - 1]
    }

    /// Whether this hash is among them.
    pub fn has(&self, hash: u64) -> bool
        ensures { result ≡ list_any (λ kept. kept == hash) self.now }
    {
        self.hashes.contains(&hash)
    }

    /// Returns a copy.
    pub fn copy(&self) -> Self
        ensures { result ≡ self.now }
    {
        let mut hashes = ArrayVec::new();
        // The capacity suffices: both have the same.
        let _ = hashes.try_extend_from_slice(&self.hashes);
        PastHashes { hashes }
    }

    /// Makes this a copy of others, in place.
    pub fn copy_from(&mut self, other: &PastHashes)
        ensures { self.new ≡ other.now }
    {
        // Under simple ko there are no hashes.
        if other.hashes.is_empty() {
            self.hashes.clear();
            return;
        }
        self.hashes.truncate(other.hashes.len());
        let (front, rest) = other.hashes.split_at(self.hashes.len());
        self.hashes.as_mut_slice().copy_from_slice(front);
        // The capacity suffices: both have the same.
        let _ = self.hashes.try_extend_from_slice(rest);
    }
}
