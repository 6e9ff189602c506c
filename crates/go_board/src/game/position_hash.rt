//! A hash of the position: the board, the colour to move, and the ko point of that colour.
ghost use Rattle.std.specs.Prelude.{◌≡◌};

use super::Game;
use crate::hashes::{ko_key, mover_key};
use go_base::Colour;

impl Game {
    ghost use Rattle.go_board.specs.Game.{board_of};
    ghost use Rattle.go_board.specs.Hash.{hash_of};
    ghost use Rattle.go_board.specs.PositionHash.{IsPositionHash};

    /// A hash of the position with this colour to move: `board_hash` plus the key of the colour and, if the colour has
    /// a ko point, the key of that point, modulo 2^64. A ko point of a colour is an empty point on which its play would
    /// bring back the board before the last move, under either ko rule.
    ///
    /// Positions that agree in size, board, colour to move and ko point (or in having none) have equal hashes. So
    /// different hashes show that the positions differ in one of these, and equal hashes show nothing.
    pub fn position_hash(&self, to_move: Colour) -> u64
        ensures { IsPositionHash self.now to_move result }
    {
        self.hash_with_mover(self.board_hash(), to_move)
    }

    /// The hash of the position with this colour to move, given the hash of the board.
    pub(crate) fn hash_with_mover(&self, board_hash: u64, to_move: Colour) -> u64
        requires { board_hash ≡ hash_of self.now.size (board_of self.now) }
        ensures { IsPositionHash self.now to_move result }
    {
        let hash = board_hash.wrapping_add(mover_key(to_move));
        match self.ko_point(to_move) {
            Some(point) => hash.wrapping_add(ko_key(point)),
            None => hash,
        }
    }
}
