//! Rollouts under simple ko: a playout on its own board, with no record and no undo.
ghost use Rattle.std.specs.Prelude.{◌≡◌, ◌+◌, ◌<◌, ◌↔◌, ℕ, List, IsTrue, Some, None, true};
ghost use Rattle.go_base.specs.Point.{IsOn};
ghost use Rattle.go_base.specs.Size.{most_size};
ghost use Rattle.go_base.specs.declared.colours.Colour.{Colour};

use crate::chains::Chains;
use crate::empty_points::EmptyPoints;
use crate::game::{MOST_MOVES, draw};
use crate::places::Places;
use crate::words::Words;
use go_base::Colour;

/// What a rollout keeps instead of a game.
#[derive(Drop)]
pub struct Rollout {
    /// The board with its chains.
    pub board: Chains,
    /// A buffer for the stones that a play captures.
    pub found: Places,
    /// The list of the empty points.
    pub order: EmptyPoints,
    /// The place on which a play of the colour to move would bring back the board before the last move, if there is
    /// one.
    pub ko: Option<usize>,
    /// Whether the last move is a pass.
    pub passed: bool,
    /// Whether the last two moves are passes.
    pub finished: bool,
    /// How many moves the record would have.
    pub moves: usize,
}

impl Rollout {
    ghost use Rattle.go_board.specs.Board.{at};
    ghost use Rattle.go_board.specs.declared.board.Cell.TheVariants.{Empty};
    ghost use Rattle.go_board.specs.Candidates.{IsCandidate};
    ghost use Rattle.go_board.specs.Game.{GameRecord, HasRoom};
    ghost use Rattle.go_board.specs.Playouts.{Ends};
    ghost use Rattle.go_board.specs.private.ChainId.{AreFree};
    ghost use Rattle.go_board.specs.private.Frame.{IsFramed};
    ghost use Rattle.go_board.specs.private.Rollouts.{IsRolloutOf, IsDrawnIn, IsPlayedIn, IsTurnIn, IsPlayedOnIn};
    ghost use Rattle.go_board.specs.private.Rollouts.{EndsIn, IsKoOf};

    /// Takes turns until the playout ends, at most `limit` of them. The colours take turns, beginning with this one.
    pub fn play_on<W: Words>(&mut self, colour: Colour, words: &mut W, limit: u32)
        requires { (game : GameRecord) × IsRolloutOf game colour self.old }
        ensures { (game : GameRecord) → IsRolloutOf game colour self.old
            → IsPlayedOnIn W.gives game colour limit self.old words.old self.new words.new }
    {
        let mut mover = colour;
        let mut left = limit;
        while !self.ends(left) {
            let theirs = mover.other();
            self.take_turn(mover, words);
            mover = theirs;
            left -= 1;
        }
    }

    /// Whether a playout that may still make `left` moves ends here.
    #[inline]
    fn ends(&self, left: u32) -> bool
        ensures { (game : GameRecord) (c : Colour) → IsRolloutOf game c self.now
            → IsTrue result ↔ Ends game left }
    {
        if left == 0 {
            return true;
        }
        let moves = self.moves;
        if moves >= MOST_MOVES {
            return true;
        }
        self.finished
    }

    /// Takes a turn of a colour: plays the first candidate that the words draw, or passes.
    fn take_turn<W: Words>(&mut self, colour: Colour, words: &mut W)
        requires { (game : GameRecord) × IsRolloutOf game colour self.old × HasRoom game }
        ensures { (game : GameRecord) → IsRolloutOf game colour self.old → HasRoom game
            → IsTurnIn W.gives game colour self.old words.old self.new words.new }
    {
        let mut left = self.order.len();
        while left > 0 {
            let index = draw(words.next_word(), left);
            let place = self.order.get(index);
            if self.is_candidate(colour, place) {
                self.play(colour, index);
                return;
            }
            left -= 1;
            self.order.exchange(index, left);
        }
        self.ko = None;
        self.finished = self.passed;
        self.passed = true;
        self.moves += 1;
    }

    /// Whether an empty point is a candidate of a colour.
    #[inline]
    fn is_candidate(&self, colour: Colour, place: usize) -> bool
        requires kept { (game : GameRecord) × IsRolloutOf game colour self.now }
        requires empty { at self.now.board place ≡ Empty }
        ensures { (game : GameRecord) → IsRolloutOf game colour self.now
            → IsTrue result ↔ IsCandidate game colour place }
    {
        if self.board.board().is_own_eye(colour, place) {
            return false;
        }
        if self.is_ko(place) {
            return false;
        }
        self.board.would_be_free(colour, place)
    }

    /// Whether a place is the ko point.
    #[inline]
    fn is_ko(&self, place: usize) -> bool
        ensures { IsTrue result ↔ (self.now.ko ≡ Some place) }
    {
        match self.ko {
            Some(point) => point == place,
            None => false,
        }
    }

    /// Plays the point at an index of the list, which must be a candidate.
    #[inline]
    fn play(&mut self, colour: Colour, index: usize)
        requires { IsDrawnIn self.old colour index }
        ensures { IsPlayedIn self.old self.new colour index }
    {
        let place = self.order.remove(index);
        let taken = self
            .board
            .play(colour, place, &mut self.found, &mut self.order);
        self.ko = self.ko_after(colour, place, taken);
        self.passed = false;
        self.finished = false;
        self.moves += 1;
    }

    /// The ko point after a play of a colour on a place that captured this many stones, whose points are at the end of
    /// the list.
    #[inline]
    fn ko_after(&self, colour: Colour, place: usize, taken: usize) -> Option<usize>
        requires framed { IsFramed self.now.board }
        requires free { AreFree self.now.board }
        requires point { IsOn most_size place }
        requires taken { (places : List ℕ) × EndsIn self.now.board self.now.order taken places }
        ensures { (places : List ℕ) → EndsIn self.now.board self.now.order taken places
            → IsKoOf self.now.board colour place places result }
    {
        if taken != 1 {
            return None;
        }
        let many = self.order.len();
        let last = many - 1;
        let point = self.order.get(last);
        if self.board.takes_only(colour.other(), point, place) {
            Some(point)
        } else {
            None
        }
    }
}
