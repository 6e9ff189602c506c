//! Copies of a game, for a search that plays on without changing the game itself.
ghost use Rattle.std.specs.Prelude.{◌≡◌};

use super::Game;
use arrayvec::ArrayVec;

impl Game {
    /// Returns an independent copy of the game, which takes as much memory as the game.
    pub fn copied(&self) -> Game
        ensures { result ≡ self.now }
    {
        let mut moves = ArrayVec::new();
        // The capacity suffices: both have the same.
        let _ = moves.try_extend_from_slice(&self.moves);
        Game {
            size: self.size,
            komi: self.komi,
            rule: self.rule,
            handicap: self.handicap,
            moves,
            chains: self.chains.copy(),
            ko: self.ko,
            stack: self.stack.copy(),
            taken_by_black: self.taken_by_black,
            taken_by_white: self.taken_by_white,
            hashes: self.hashes.copy(),
        }
    }

    /// Makes this game a copy of another, whatever it was before. Each field is copied in place, and of the moves and
    /// the captured stones only as many as there are. So it takes less time than `copied`, and no memory for a third
    /// game.
    pub fn copy_from(&mut self, other: &Game)
        ensures { self.new ≡ other.now }
    {
        self.size = other.size;
        self.komi = other.komi;
        self.rule = other.rule;
        self.handicap = other.handicap;
        // Each move is read before its place is written, and no move that the copy has is cleared. So if C passes the
        // same game for both, which no caller here can do, that game stays as it was.
        self.moves.truncate(other.moves.len());
        let (front, rest) = other.moves.split_at(self.moves.len());
        self.moves.as_mut_slice().copy_from_slice(front);
        // The capacity suffices: both have the same.
        let _ = self.moves.try_extend_from_slice(rest);
        self.chains.copy_from(&other.chains);
        self.ko = other.ko;
        self.stack.copy_from(&other.stack);
        self.taken_by_black = other.taken_by_black;
        self.taken_by_white = other.taken_by_white;
        self.hashes.copy_from(&other.hashes);
    }
}
