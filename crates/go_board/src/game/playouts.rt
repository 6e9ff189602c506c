//! Playouts: random words play a game to its end.
ghost use Rattle.std.specs.Prelude.{◌≡◌, ◌+◌, ◌<◌, ◌≤◌, ◌↔◌, IsTrue, MatchBool, length};
ghost use Rattle.go_board.specs.Board.{place_count};
ghost use Rattle.go_board.specs.Playouts.{drawn_place};

use super::{Game, MOST_MOVES};
use crate::board::{PLACES, point_at};
use crate::empty_points::EmptyPoints;
use crate::words::Words;
use go_base::{Colour, Vertex};

impl Game {
    ghost use Rattle.go_board.specs.Board.{at};
    ghost use Rattle.go_board.specs.declared.board.Cell.TheVariants.{Empty};
    ghost use Rattle.go_board.specs.Game.{HasRoom, IsGame, board_of};
    ghost use Rattle.go_board.specs.Playouts.{AreEmptyPoints, Ends, IsPlayedOut};
    ghost use Rattle.go_board.specs.private.Playouts.{IsOrderOf, HasRoomForTaken, IsWithTaken, AreEmptyBelow};
    ghost use Rattle.go_board.specs.private.Playouts.{IsPlayed, IsNotPlayed, IsTurnTaken, IsPlayedOn};

    /// Plays on with random words until the game is finished, `limit` moves are made or the record is full. The colours
    /// take turns, beginning with this one.
    ///
    /// The list of the empty points starts in the order A1, B1, .., A2, B2, ... In a turn, each word draws one of the
    /// first `n` points of the list; at first these are all of it. The word draws number `(word / 2^32) * n / 2^32`,
    /// counted from 0 and rounded down. If the colour may play on that point, and it isn't an own eye of that colour,
    /// it is played. The last point of the list then takes its place, and the points of the captured stones are
    /// appended in the board's order. Any other point is set aside for this turn: it is exchanged with the last of the
    /// `n`, and the next word draws from one point fewer. If none is left, the colour passes.
    pub fn playout<W: Words>(&mut self, colour: Colour, words: &mut W, limit: u32)
        ensures { IsPlayedOut W.gives self.old colour limit words.old self.new words.new }
    {
        let mut order = self.empty_points();
        self.play_on(colour, words, limit, &mut order);
    }

    /// The empty points of the board, in the board's order.
    pub(crate) fn empty_points(&self) -> EmptyPoints
        ensures empty { AreEmptyPoints self.now result }
        ensures order { IsOrderOf (board_of self.now) result }
    {
        // A look: this is a game.
        let _ = &self.size;
        let mut order = EmptyPoints::new();
        for place in 0..PLACES {
            self.push_if_empty(place, &mut order);
        }
        order
    }

    /// Appends a place if it is an empty point.
    #[inline]
    fn push_if_empty(&self, place: usize, order: &mut EmptyPoints)
        requires place { place < place_count }
        requires before { AreEmptyBelow (board_of self.now) place order.old }
        ensures { AreEmptyBelow (board_of self.now) (place + 1) order.new }
    {
        if !self.chains.at(place).is_empty() {
            return;
        }
        order.push(place);
    }

    /// Takes turns until the playout ends.
    fn play_on<W: Words>(
        &mut self,
        colour: Colour,
        words: &mut W,
        limit: u32,
        order: &mut EmptyPoints,
    )
        requires { IsOrderOf (board_of self.old) order.old }
        ensures { IsPlayedOn W.gives self.old colour order.old limit words.old self.new words.new }
    {
        let mut mover = colour;
        let mut left = limit;
        while !self.playout_ends(left) {
            let theirs = mover.other();
            self.take_turn(mover, words, order);
            mover = theirs;
            left -= 1;
        }
    }

    /// Whether a playout that may still make `left` moves ends here.
    #[inline]
    fn playout_ends(&self, left: u32) -> bool
        ensures ends { IsTrue result ↔ Ends self.now left }
        ensures game { IsGame self.now }
    {
        left == 0 || self.moves.len() >= MOST_MOVES || self.finished()
    }

    /// Takes a turn of a colour: plays the first candidate that the words draw, or passes.
    fn take_turn<W: Words>(&mut self, colour: Colour, words: &mut W, order: &mut EmptyPoints)
        requires game { IsGame self.old }
        requires room { HasRoom self.old }
        requires order { IsOrderOf (board_of self.old) order.old }
        ensures turn { IsTurnTaken W.gives self.old colour order.old words.old
            self.new order.new words.new }
        ensures order { IsOrderOf (board_of self.new) order.new }
    {
        let mut left = order.len();
        while left > 0 {
            let index = draw(words.next_word(), left);
            let place = order.get(index);
            if self.play_candidate(colour, place) {
                order.remove(index);
                self.push_taken(order);
                return;
            }
            left -= 1;
            order.exchange(index, left);
        }
        // A pass is legal, and the record isn't full.
        let _ = self.play(colour, Vertex::Pass);
    }

    /// Plays on an empty point if it is a candidate of the colour. Returns whether it is.
    #[inline]
    fn play_candidate(&mut self, colour: Colour, place: usize) -> bool
        requires room { HasRoom self.old }
        requires empty { at (board_of self.old) place ≡ Empty }
        ensures { MatchBool result
            (IsPlayed self.old self.new colour place)
            (IsNotPlayed self.old self.new colour place) }
    {
        !self.chains.board().is_own_eye(colour, place)
            && self.play(colour, Vertex::At(point_at(place))).is_ok()
    }

    /// Appends the points of the stones that the last move captured.
    fn push_taken(&self, order: &mut EmptyPoints)
        requires moved { 0 < length self.now.moves }
        requires room { HasRoomForTaken self.now order.old }
        ensures { IsWithTaken self.now order.old order.new }
    {
        let moves = self.moves.len();
        for stone in self.stack.taken_by(moves - 1) {
            order.push(usize::from(stone.place));
        }
    }
}

/// The place that a word draws among the first `number` of a list, counted from 0.
#[inline]
pub(crate) fn draw(word: u64, number: usize) -> usize
    requires { number ≤ place_count }
    ensures place { result ≡ drawn_place number word }
    ensures below { 0 < number → result < number }
{
    let scaled = (word >> 32) * number as u64;
    (scaled >> 32) as usize
}
