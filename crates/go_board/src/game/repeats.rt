//! Whether a play would bring back a board of the record, which positional ko forbids.
//!
//! The board after the play is looked up by its hash. Only if the record had that hash, it is replayed to compare the
//! boards.
ghost use Rattle.std.specs.Prelude.{◌≡◌, ◌↔◌, ◌⊎◌, IsTrue, IfSome, IfNone};
ghost use Rattle.go_base.specs.Point.{IsOn};
ghost use Rattle.go_base.specs.Size.{most_size};
ghost use Rattle.go_board.specs.Board.{at};
ghost use Rattle.go_board.specs.Play.{play};
ghost use Rattle.go_board.specs.Game.{board_of, after_vertex, IsLegal, RepeatsAny};
ghost use Rattle.go_board.specs.Hash.{hash_of};
ghost use Rattle.go_board.specs.declared.board.Cell.TheVariants.{Empty};
ghost use Rattle.go_board.specs.declared.rules.KoRule.TheVariants.{Simple, Positional};
ghost use Rattle.go_base.specs.Colour.{other};
ghost use Rattle.go_board.specs.private.Legal.{TakesAny, TakesStone};

use super::Game;
use crate::board::{Board, place_of};
use crate::hashes::key_at;
use crate::rules::KoRule;
use crate::taken_stack::TakenStack;
use go_base::{Colour, Point, Vertex};

impl Game {
    /// Whether a play on an empty point would bring back any board of the record.
    #[inline(never)]
    pub(crate) fn repeats_any(&self, colour: Colour, point: Point) -> bool
        requires rule { self.now.rule ≡ Positional }
        requires empty { at (board_of self.now) point ≡ Empty }
        ensures { IsTrue result ↔ RepeatsAny self.now (play (board_of self.now) colour point) }
    {
        self.hashes.has(self.hash_after(colour, point))
            && self.had_board(&self.board_after(colour, point), place_of(point))
    }

    /// The hash of the board after a legal move, if the rule needs it and the move captures nothing.
    #[inline]
    pub(super) fn known_hash(&self, colour: Colour, vertex: Vertex) -> Option<u64>
        requires { IsLegal self.now colour vertex }
        ensures some { IfSome result (λ hash. hash ≡ hash_of self.now.size
            (after_vertex (board_of self.now) colour vertex)) }
        ensures none { IfNone result ((self.now.rule ≡ Simple)
            ⊎ TakesStone (board_of self.now) colour vertex) }
    {
        match (self.rule, vertex) {
            (KoRule::Simple, _) => None,
            (KoRule::Positional, Vertex::Pass) => Some(self.hashes.last()),
            (KoRule::Positional, Vertex::At(point)) => self.hash_alone(colour, point),
        }
    }

    /// The hash of the board after a play on an empty point that captures nothing: the last hash plus the key of one
    /// stone. Returns `None` if the play captures something.
    #[inline]
    fn hash_alone(&self, colour: Colour, point: Point) -> Option<u64>
        requires rule { self.now.rule ≡ Positional }
        requires empty { at (board_of self.now) point ≡ Empty }
        ensures some { IfSome result (λ hash. hash ≡ hash_of self.now.size
            (play (board_of self.now) colour point)) }
        ensures none { IfNone result (TakesAny (board_of self.now) (other colour) point) }
    {
        let place = place_of(point);
        if self.chains.takes_any(colour.other(), place) {
            return None;
        }
        Some(self.hashes.last().wrapping_add(key_at(colour, place)))
    }

    /// The hash of the board after a play on an empty point.
    fn hash_after(&self, colour: Colour, point: Point) -> u64
        requires rule { self.now.rule ≡ Positional }
        requires empty { at (board_of self.now) point ≡ Empty }
        ensures { result ≡ hash_of self.now.size (play (board_of self.now) colour point) }
    {
        match self.hash_alone(colour, point) {
            Some(hash) => hash,
            None => self.board_after(colour, point).hash(self.size),
        }
    }

    /// The board after a play on an empty point.
    fn board_after(&self, colour: Colour, point: Point) -> Board
        requires { at (board_of self.now) point ≡ Empty }
        ensures { result ≡ play (board_of self.now) colour point }
    {
        let mut chains = self.chains.copy();
        let mut stack = TakenStack::new();
        // How many stones it captures doesn't matter here.
        let _ = chains.make_play(colour, place_of(point), 0, &mut stack);
        *chains.board()
    }

    /// Whether the board was this one after some number of moves, from none to all. The record is replayed on another
    /// board. The given place is one at which earlier boards are likely to differ.
    fn had_board(&self, wanted: &Board, place: usize) -> bool
        requires { IsOn most_size place }
        ensures { IsTrue result ↔ RepeatsAny self.now wanted.now }
    {
        let mut board = Board::start(self.size, self.handicap);
        let mut stones = self.stack.stones();
        for (number, made) in self.moves.iter().enumerate() {
            if board.equals(wanted, place) {
                return true;
            }
            stones = board.make(made.colour, made.vertex, number, stones);
        }
        board.equals(wanted, place)
    }
}
