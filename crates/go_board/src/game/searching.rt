//! What a search needs of a game besides its board: all legal points, the chain of a stone, the stones that the last
//! move captured, and a hash of the board.
ghost use Rattle.std.specs.Prelude.{◌≡◌, ◌+◌, ◌*◌, ◌<◌, ◌↔◌, IsTrue, MatchOption};
ghost use Rattle.go_board.specs.Board.{place_count};

use super::Game;
use crate::board::{Cell, ROW, place_of, point_at, point_in};
use crate::columns::Columns;
use crate::places::Places;
use crate::rules::KoRule;
use crate::taken_stack::TakenStone;
use arrayvec::ArrayVec;
use go_base::{Colour, Point};

/// The number of points of the largest board: 25 rows of 25.
pub const MOST_POINTS: usize = 625;

/// The chain of a stone: this stone and those of its colour that are connected to it.
#[derive(Clone, Copy, PartialEq, Eq, Debug)]
pub struct Chain {
    /// The colour of its stones.
    pub colour: Colour,
    /// How many stones it has.
    pub stones: u32,
    /// How many liberties it has: the empty points beside its stones, each counted once.
    pub liberties: u32,
}

impl Game {
    ghost use Rattle.go_base.specs.declared.vertices.Vertex.TheVariants.{At};
    ghost use Rattle.go_board.specs.Board.{stone_at};
    ghost use Rattle.go_board.specs.Game.{IsGame, IsLegal, board_of};
    ghost use Rattle.go_board.specs.Hash.{hash_of};
    ghost use Rattle.go_board.specs.LastTaken.{AreTakenByLast, HasTakenByLast};
    ghost use Rattle.go_board.specs.LegalPoints.{AreLegalPoints};
    ghost use Rattle.go_board.specs.Liberties.{IsChainAt};
    ghost use Rattle.go_board.specs.private.Columns.{AreEmptyIn, AreOpenIn, AreSureIn, AreLegalIn, AreLegalBefore};
    ghost use Rattle.go_board.specs.private.TakenStack.{places_of};
    ghost use Rattle.go_board.specs.declared.rules.KoRule.TheVariants.{Simple};

    /// Returns the points on which a colour may play next, in the order A1, B1, .., A2, B2, ...: those for which
    /// `legal` returns true. This doesn't take into account that `play` makes no move when the record is full.
    pub fn legal_points(&self, colour: Colour) -> ArrayVec<Point, MOST_POINTS>
        ensures { AreLegalPoints self.now colour result.items }
    {
        let mut points = ArrayVec::new();
        self.legal_points_into(colour, &mut points);
        points
    }

    /// Writes what `legal_points` returns to `points`, replacing what was there. So a search can ask again and again
    /// without a new list each time.
    pub fn legal_points_into(&self, colour: Colour, points: &mut ArrayVec<Point, MOST_POINTS>)
        ensures { AreLegalPoints self.now colour points.new.items }
    {
        let lines = self.size().get() as usize;
        let board = self.chains.board();
        points.clear();
        let mut below = Columns::none();
        let mut here = board.empty_in_row(1);
        for row in 1..lines + 1 {
            let above = board.empty_in_row(row + 1);
            let sure = self.sure_in_row(row, here.beside_any(below, above));
            self.push_legal(colour, row, here, sure, points);
            below = here;
            here = above;
        }
    }

    /// Of a row's empty points that have an empty neighbour, the columns where either colour may surely play. A new
    /// stone there has a liberty, and no play there brings back the board before the last move, since the ko point has
    /// no empty neighbour. Under positional ko no point is sure.
    #[inline]
    fn sure_in_row(&self, row: usize, open_points: Columns) -> Columns
        requires { AreOpenIn (board_of self.now) row open_points }
        ensures sure { AreSureIn self.now row result }
        ensures all { self.now.rule ≡ Simple → result ≡ open_points }
    {
        match self.rule {
            KoRule::Simple => open_points,
            KoRule::Positional => Columns::none(),
        }
    }

    /// The columns of a row where a colour may play: the sure ones, and those of the other empty points for which
    /// `legal` returns true.
    #[inline]
    fn legal_in_row(&self, colour: Colour, row: usize, empty: Columns, sure: Columns) -> Columns
        requires row { row < 27 }
        requires empty { AreEmptyIn (board_of self.now) row empty }
        requires sure { AreSureIn self.now row sure }
        ensures { AreLegalIn self.now colour row result }
    {
        let mut legal = sure;
        let mut left = empty.without(sure);
        while let Some(column) = left.pop_first() {
            legal.add_if(self.is_legal_at(colour, ROW * row + column), column);
        }
        legal
    }

    /// Appends the points of a row on which a colour may play.
    #[inline]
    fn push_legal(
        &self,
        colour: Colour,
        row: usize,
        empty: Columns,
        sure: Columns,
        points: &mut ArrayVec<Point, MOST_POINTS>,
    )
        requires row { row < 27 }
        requires empty { AreEmptyIn (board_of self.now) row empty }
        requires sure { AreSureIn self.now row sure }
        requires before { AreLegalBefore self.now colour (26 * row) points.old.items }
        ensures { AreLegalBefore self.now colour (26 * (row + 1)) points.new.items }
    {
        // A look: this is a game.
        let _ = &self.size;
        let mut legal = self.legal_in_row(colour, row, empty, sure);
        while let Some(column) = legal.pop_first() {
            points.push(point_in(row, column));
        }
    }

    /// Whether a place is a point on which a colour may play next.
    #[inline]
    pub(super) fn is_legal_at(&self, colour: Colour, place: usize) -> bool
        requires { place < place_count }
        ensures { IsTrue result ↔ IsLegal self.now colour (At place) }
    {
        self.chains.at(place) == Cell::Empty
            && self.chains.would_be_free(colour, place)
            && !self.repeats(colour, point_at(place))
    }

    /// The chain of the stone on a point. Returns `None` if the point is empty or off the board.
    pub fn chain(&self, point: Point) -> Option<Chain>
        ensures { MatchOption result
            (stone_at (board_of self.now) point ≡ None)
            (λ chain. IsChainAt (board_of self.now) point chain) }
    {
        let colour = self.at(point)?;
        let board = self.chains.board();
        let mut stones = Places::new();
        board.chain_into(place_of(point), &mut stones);
        let liberties = board.empty_beside_all(&stones);
        Some(Chain {
            colour,
            stones: stones.len() as u32,
            liberties: liberties.len() as u32,
        })
    }

    /// Returns the points of the stones that the last move of the record captured, in the order A1, B1, .., A2, B2, ...
    /// There are none if the move is a pass or captured nothing, and if the record has no move. After an `undo` the
    /// last move is the one before.
    pub fn taken_by_last_move(&self) -> ArrayVec<Point, MOST_POINTS>
        ensures { AreTakenByLast self.now result.items }
    {
        let mut points = ArrayVec::new();
        self.taken_by_last_move_into(&mut points);
        points
    }

    /// Whether the last move of the record captured a stone.
    #[inline]
    pub fn last_move_took(&self) -> bool
        ensures { IsTrue result ↔ HasTakenByLast self.now }
    {
        !self.last_taken().is_empty()
    }

    /// The stones that the last move of the record captured, if there is a move.
    #[inline]
    fn last_taken(&self) -> &[TakenStone]
        ensures taken { AreTakenByLast self.now (places_of result.now) }
        ensures game { IsGame self.now }
    {
        match self.moves.len().checked_sub(1) {
            Some(number) => self.stack.taken_by(number),
            None => &[],
        }
    }

    /// Writes what `taken_by_last_move` returns to `points`, replacing what was there. Of the record it reads only the
    /// stones that the last move captured.
    pub fn taken_by_last_move_into(&self, points: &mut ArrayVec<Point, MOST_POINTS>)
        ensures { AreTakenByLast self.now points.new.items }
    {
        points.clear();
        for stone in self.last_taken() {
            points.push(point_at(usize::from(stone.place)));
        }
    }

    /// A hash of the board and its size: the sum of the keys of the size and of all stones, modulo 2^64.
    ///
    /// Games of equal size and with equal boards have equal hashes, whatever else differs: the komi, the ko rule, the
    /// colour to move, and the moves that led to the board. So different hashes show that the size or the board
    /// differs. Equal hashes show nothing: two different boards may have the same hash.
    ///
    /// Each call computes it in a pass over the board. A search that keeps its own hash adds the `stone_key` of each
    /// stone that is placed, and subtracts that of each stone that is captured (`taken_by_last_move`), both wrapping.
    pub fn board_hash(&self) -> u64
        ensures { result ≡ hash_of self.now.size (board_of self.now) }
    {
        self.chains.board().hash(self.size)
    }
}
