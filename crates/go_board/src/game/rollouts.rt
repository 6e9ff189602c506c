//! Rollouts: the score of a playout that leaves the game as it was.
ghost use Rattle.std.specs.Prelude.{◌≡◌, ◌↔◌, IsTrue};

use super::Game;
use crate::board::{Board, place_of};
use crate::places::Places;
use crate::rollout::Rollout;
use crate::rules::KoRule;
use crate::words::Words;
use go_base::{Colour, Vertex};

impl Game {
    ghost use Rattle.go_board.specs.Area.{score};
    ghost use Rattle.go_board.specs.Game.{GameRecord, board_of};
    ghost use Rattle.go_board.specs.Playouts.{AreEmptyPoints, IsRolledOut};
    ghost use Rattle.go_board.specs.declared.rules.KoRule.TheVariants.{Simple};
    ghost use Rattle.go_board.specs.private.Rollouts.{LastIsPass, IsRolloutOf, IsKoPlace};

    /// Returns the score, in half points, of the game that `playout` would leave: positive if Black leads. The game
    /// isn't changed. With limit 0 it is the score of the game as it is.
    pub fn rollout<W: Words>(&self, colour: Colour, words: &mut W, limit: u32) -> i32
        ensures { IsRolledOut W.gives self.now colour limit words.old result words.new }
    {
        match self.rule {
            KoRule::Positional => self.rollout_by_copy(colour, words, limit),
            KoRule::Simple => {
                // Only that part of the game is kept that a rollout under simple ko needs.
                let mut rollout = self.begin_rollout(colour);
                rollout.play_on(colour, words, limit);
                let chains = &rollout.board;
                let black_stones = chains.stones_of(Colour::Black);
                let white_stones = chains.stones_of(Colour::White);
                self.score_of(chains.board(), black_stones, white_stones)
            }
        }
    }

    /// A rollout under any ko rule, on a copy of the game that is made in place. It isn't inlined, so that a rollout
    /// under simple ko takes no memory for a copy.
    #[inline(never)]
    fn rollout_by_copy<W: Words>(&self, colour: Colour, words: &mut W, limit: u32) -> i32
        ensures { IsRolledOut W.gives self.now colour limit words.old result words.new }
    {
        let mut game = Game::with_rule(self.size, self.komi, self.rule);
        game.copy_from(self);
        game.playout(colour, words, limit);
        game.score()
    }

    /// The rollout state of this game, with this colour to move.
    fn begin_rollout(&self, colour: Colour) -> Rollout
        requires { self.now.rule ≡ Simple }
        ensures kept { IsRolloutOf self.now colour result }
        ensures empty { AreEmptyPoints self.now result.order }
    {
        let board = self.chains.copy();
        let order = self.empty_points();
        let ko = self.ko_place(colour);
        let passed = self.last_is_pass();
        let finished = self.finished();
        let moves = self.moves.len();
        Rollout {
            board,
            found: Places::new(),
            order,
            ko,
            passed,
            finished,
            moves,
        }
    }

    /// The empty point on which a play of this colour would bring back the board before the last move, if there is one.
    fn ko_place(&self, colour: Colour) -> Option<usize>
        ensures { IsKoPlace self.now colour result }
    {
        match self.ko_point(colour) {
            Some(point) => Some(place_of(point)),
            None => None,
        }
    }

    /// Whether the last move of the record is a pass.
    fn last_is_pass(&self) -> bool
        ensures { IsTrue result ↔ LastIsPass self.now }
    {
        let [.., last] = self.moves() else {
            return false;
        };
        last.vertex == Vertex::Pass
    }
}
