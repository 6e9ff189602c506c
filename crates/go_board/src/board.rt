//! A board as an array of places, with edge places around the points.
ghost use Rattle.std.specs.Prelude.{◌≡◌, ◌≢◌, ℕ, ◌<◌, ◌≤◌, ◌↔◌, ◌⊎◌, if◌then◌else◌, IsTrue, All, ◌+◌, ◌*◌, Contains};
ghost use Rattle.go_base.specs.Point.{IsOn};
ghost use Rattle.go_base.specs.Size.{most_size, IsSize};
ghost use Rattle.go_board.specs.Board.{is_point};

mod eyes;

use crate::columns::Columns;
use crate::hashes::{key_of, size_key};
use crate::places::Places;
use crate::taken_stack::TakenStone;
use go_base::{Colour, Point, Size, Vertex, handicap};
use std::marker::Model;

/// How many places a row has: its points and its edge place.
pub const ROW: usize = 26;

/// How many rows a board has: those with points, and the edge rows below and above.
pub const ROWS: usize = 27;

/// How many places a board has.
pub const PLACES: usize = ROWS * ROW;

/// What a place holds.
#[derive(Clone, Copy, PartialEq, Eq, Debug)]
#[repr(u8)]
pub enum Cell {
    /// The place is not a point of the board.
    Edge,
    /// The point has no stone.
    Empty,
    /// The point has a black stone.
    Black,
    /// The point has a white stone.
    White,
}

impl Cell {
    ghost use Rattle.go_board.specs.Board.{stone, IsStone};
    ghost use Rattle.go_board.specs.private.ChainId.{is_stone, is_empty};

    /// The stone of this colour.
    #[inline]
    pub fn stone(colour: Colour) -> Cell
        ensures { result ≡ stone colour }
    {
        match colour {
            Colour::Black => Cell::Black,
            Colour::White => Cell::White,
        }
    }

    /// Whether this is a stone.
    #[inline]
    pub fn is_stone(self) -> bool
        ensures fact { IsTrue result ↔ IsStone self }
        ensures value { result ≡ is_stone self }
    {
        matches!(self, Cell::Black | Cell::White)
    }

    /// Whether this is an empty point.
    #[inline]
    pub fn is_empty(self) -> bool
        ensures { result ≡ is_empty self }
    {
        matches!(self, Cell::Empty)
    }
}

/// The place of a point.
#[inline]
pub fn place_of(point: Point) -> usize
    ensures value { result ≡ point }
    ensures point { IsOn most_size result }
{
    ROW * point.row() as usize + point.column() as usize
}

/// The point at a place, which must be one.
#[inline]
pub fn point_at(place: usize) -> Point
    requires { IsOn most_size place }
    ensures { result ≡ place }
{
    match Point::new((place % ROW) as u32, (place / ROW) as u32) {
        Some(point) => point,
        None => unreachable!(),
    }
}

/// The point in a row and a column, which must have one.
#[inline]
pub fn point_in(row: usize, column: usize) -> Point
    requires point { IsOn most_size (26 * row + column) }
    requires column { column < 26 }
    ensures { result ≡ 26 * row + column }
{
    match Point::new(column as u32, row as u32) {
        Some(point) => point,
        None => unreachable!(),
    }
}

/// What a place of an empty board holds: nothing if it is a point of a board of `lines` lines in each direction, and
/// edge otherwise.
#[inline]
fn empty_cell(lines: u32, place: usize) -> Cell
    ensures { result ≡ (if is_point lines place then Cell.Empty else Cell.Edge) }
{
    let lines = lines as usize;
    let column = place % ROW;
    let row = place / ROW;
    if 1 <= column && column <= lines && 1 <= row && row <= lines {
        Cell::Empty
    } else {
        Cell::Edge
    }
}

/// A board: what each of its places holds.
#[derive(Clone, Copy)]
pub struct Board {
    cells: [Cell; PLACES],
}

impl Model for Board {
    ghost use Rattle.std.specs.Prelude.{List};
    ghost use Rattle.go_board.specs.declared.board.Cell.{Cell};

    ghost Value = { List Cell };

    ghost use Rattle.go_board.specs.private.Frame.{IsFramed};

    ghost view = { λ b. b.cells };

    ghost invariant = { λ b. IsFramed b.cells };

    ghost inverse = { λ cells. record { cells = cells } };
}

impl Board {
    ghost use Rattle.std.specs.Prelude.{slice_set};
    ghost use Rattle.go_board.specs.private.ChainId.{IsChainOf, empty_at, empty_beside};
    ghost use Rattle.go_board.specs.Board.{place_count, at, stone, empty_board, with_black, HasStone};
    ghost use Rattle.go_board.specs.private.Columns.{AreEmptyIn};
    ghost use Rattle.go_board.specs.private.Frame.{IsFramed, HasSize, SameEdge};
    ghost use Rattle.go_base.specs.Handicap.{AllowsHandicap};
    ghost use Rattle.go_board.specs.Chain.{HasBeside};
    ghost use Rattle.go_board.specs.Hash.{hash_of};
    ghost use Rattle.go_board.specs.private.Flood.{IsSpread, AreSpread, AreEmptyBeside};
    ghost use Rattle.go_board.specs.Game.{start, after_vertex};
    ghost use Rattle.go_board.specs.private.TakenStack.{ArePoints, AreTakenBy, IsVacant, cleared, later_than};
    ghost use Rattle.go_board.specs.declared.board.Cell.TheVariants.{Edge};

    /// An empty board of this size.
    pub fn empty(size: Size) -> Self
        ensures board { result ≡ empty_board size }
        ensures size { HasSize size result }
        ensures limits { IsSize size }
    {
        let lines = size.get();
        let mut cells = [Cell::Edge; PLACES];
        for (place, cell) in cells.iter_mut().enumerate() {
            *cell = empty_cell(lines, place);
        }
        Board { cells }
    }

    /// The board before the first move: empty except for Black's stones on the points of the handicap, if there is one.
    pub fn start(size: Size, stones: u32) -> Self
        requires { (stones ≡ 0) ⊎ AllowsHandicap size stones }
        ensures board { result ≡ start size stones }
        ensures size { HasSize size result }
        ensures limits { IsSize size }
    {
        let mut board = Board::empty(size);
        if let Some(points) = handicap(size, stones) {
            board.place_black(&points);
        }
        board
    }

    /// Places black stones on points of the board.
    fn place_black(&mut self, points: &[Point])
        requires { All (λ p. at self.old p ≢ Edge) points.now }
        ensures board { self.new ≡ with_black self.old points.now }
        ensures edge { SameEdge self.old self.new }
    {
        for point in points {
            self.cells[place_of(*point)] = Cell::Black;
        }
    }

    /// Whether there is any stone on the board.
    pub fn has_stone(&self) -> bool
        ensures { IsTrue result ↔ HasStone self.now }
    {
        self.cells.iter().any(|cell| cell.is_stone())
    }

    /// A look: a place that isn't edge is a point of the largest board.
    #[inline]
    pub fn look(&self)
        ensures { IsFramed self.now }
    {
        let _ = &self.cells;
    }

    /// What a place holds.
    #[inline]
    pub fn at(&self, place: usize) -> Cell
        requires { place < place_count }
        ensures { result ≡ at self.now place }
    {
        self.cells[place]
    }

    /// The columns at which a row has empty points.
    #[inline]
    pub fn empty_in_row(&self, row: usize) -> Columns
        requires { row < 27 }
        ensures { AreEmptyIn self.now row result }
    {
        // One byte for each place, so that the compiler can vectorize the loop.
        let mut lanes = [0; 32];
        for column in 0..ROW {
            lanes[column] = (self.cells[ROW * row + column] == Cell::Empty) as u8;
        }
        Columns::from_lanes(lanes)
    }

    /// Changes what a point holds.
    #[inline]
    pub fn set(&mut self, place: usize, cell: Cell)
        requires point { at self.old place ≢ Edge }
        requires cell { cell ≢ Edge }
        ensures { self.new ≡ slice_set self.old place cell }
    {
        self.cells[place] = cell;
    }

    /// A hash: the sum of the keys of this size and of all stones, modulo 2^64.
    pub fn hash(&self, size: Size) -> u64
        ensures { result ≡ hash_of size self.now }
    {
        let mut sum = size_key(size);
        for (place, cell) in self.cells.iter().enumerate() {
            sum = sum.wrapping_add(key_of(*cell, place));
        }
        sum
    }

    /// Whether another board is equal. The given place, at which they are likely to differ, is compared first.
    #[inline]
    pub fn equals(&self, other: &Board, place: usize) -> bool
        requires { place < place_count }
        ensures { IsTrue result ↔ (self.now ≡ other.now) }
    {
        self.cells[place] == other.cells[place] && self.cells == other.cells
    }

    /// Clears the points of the leading stones in the list, those that the move with this number captured. Returns the
    /// rest, which later moves captured.
    pub fn clear_taken<'a>(&mut self, number: usize, stones: &'a [TakenStone]) -> &'a [TakenStone]
        requires { ArePoints self.old stones.now }
        ensures board { self.new ≡ cleared self.old number stones.now }
        ensures left { result.now ≡ later_than number stones.now }
        ensures points { ArePoints self.new result.now }
    {
        let mut left = stones;
        while let Some((first, later)) = left.split_first() {
            if usize::from(first.number) != number {
                return left;
            }
            self.set(usize::from(first.place), Cell::Empty);
            left = later;
        }
        left
    }

    /// Replays a move. `stones` lists those that it and later moves captured. Returns those that later moves captured.
    #[inline]
    pub fn make<'a>(
        &mut self,
        colour: Colour,
        vertex: Vertex,
        number: usize,
        stones: &'a [TakenStone],
    ) -> &'a [TakenStone]
        requires open { IsVacant self.old vertex }
        requires points { ArePoints self.old stones.now }
        ensures board { AreTakenBy self.old colour vertex number stones.now
            → self.new ≡ after_vertex self.old colour vertex }
        ensures left { result.now ≡ later_than number stones.now }
        ensures points { ArePoints self.new result.now }
    {
        match vertex {
            Vertex::Pass => {}
            Vertex::At(point) => self.set(place_of(point), Cell::stone(colour)),
        }
        self.clear_taken(number, stones)
    }

    /// Whether a neighbour of a point holds this.
    #[inline]
    pub fn has_beside(&self, place: usize, wanted: Cell) -> bool
        requires { IsOn most_size place }
        ensures { IsTrue result ↔ HasBeside self.now place wanted }
    {
        self.cells[place + 1] == wanted
            || self.cells[place - 1] == wanted
            || self.cells[place + ROW] == wanted
            || self.cells[place - ROW] == wanted
    }

    /// 1 if a place is empty, and 0 if not.
    #[inline]
    fn empty_at(&self, place: usize) -> u32
        requires { place < place_count }
        ensures value { result ≡ empty_at self.now place }
        ensures few { result ≤ 1 }
    {
        if self.cells[place].is_empty() { 1 } else { 0 }
    }

    /// How many neighbours of a point are empty.
    #[inline]
    pub fn empty_beside(&self, place: usize) -> u32
        requires { IsOn most_size place }
        ensures value { result ≡ empty_beside self.now place }
        ensures few { result ≤ 4 }
    {
        self.empty_at(place + 1)
            + self.empty_at(place - 1)
            + self.empty_at(place + ROW)
            + self.empty_at(place - ROW)
    }

    /// Finds the places of a point's chain or region, and replaces the contents of `found` by them.
    pub fn chain_into(&self, place: usize, found: &mut Places)
        requires place { place < place_count }
        requires point { at self.now place ≢ Edge }
        ensures { IsChainOf self.now place found.new }
    {
        let sought = self.cells[place];
        found.clear();
        found.insert(place);
        let mut next = 0;
        while next < found.len() {
            let place = found.get(next);
            self.spread_round(sought, place, found);
            next += 1;
        }
    }

    /// The empty points that are beside these places.
    pub fn empty_beside_all(&self, places: &Places) -> Places
        requires { (p : ℕ) → Contains places.now p → at self.now p ≢ Edge }
        ensures { AreEmptyBeside self.now places.now result }
    {
        // A look: a place that isn't edge is a point of the largest board.
        let _ = &self.cells;
        let mut found = Places::new();
        for index in 0..places.len() {
            self.spread_round(Cell::Empty, places.get(index), &mut found);
        }
        found
    }

    /// Inserts those of a point's four neighbours that hold what is wanted.
    #[inline]
    pub fn spread_round(&self, sought: Cell, place: usize, found: &mut Places)
        requires low { ROW < place }
        requires high { place + ROW < place_count }
        ensures { AreSpread self.now sought place found.old found.new }
    {
        self.spread(sought, place + 1, found);
        self.spread(sought, place - 1, found);
        self.spread(sought, place + ROW, found);
        self.spread(sought, place - ROW, found);
    }

    /// Inserts a place if it holds what is wanted.
    #[inline]
    fn spread(&self, sought: Cell, place: usize, found: &mut Places)
        requires { place < place_count }
        ensures { IsSpread self.now sought place found.old found.new }
    {
        if self.cells[place] == sought {
            found.insert(place);
        }
    }
}
