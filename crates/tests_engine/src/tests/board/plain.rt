//! A simple game to compare with. It finds liberties by flood fill over the whole board, tests ko by comparing whole
//! boards, all of which it keeps, and undoes a move by playing the shorter record again.
use arrayvec::ArrayVec;
use go_base::{Colour, Move, Point, Vertex};
use go_board::{KoRule, NothingToUndo, PlayFault};
use std::mem;

/// How many places a row has: its points and its edge.
const ROW: usize = 26;

/// How many places a board has: those of 25 rows, and of the edge below and above.
const PLACES: usize = 27 * ROW;

/// What a place holds.
#[derive(Clone, Copy, PartialEq)]
#[repr(u8)]
enum Cell {
    Edge,
    Empty,
    Black,
    White,
}

impl Cell {
    /// The stone of this colour.
    fn stone(colour: Colour) -> Cell {
        match colour {
            Colour::Black => Cell::Black,
            Colour::White => Cell::White,
        }
    }
}

/// The place of a point.
fn place_of(point: Point) -> usize {
    ROW.wrapping_mul(point.row() as usize)
        .wrapping_add(point.column() as usize)
}

/// The most moves of a game.
pub const MOVES: usize = 200;

/// What each place holds.
#[derive(Clone, Copy)]
pub struct PlainBoard {
    cells: [Cell; PLACES],
    /// Behind the highest row there is nothing but edge.
    end: usize,
}

/// The four places beside a place.
fn beside(place: usize) -> [usize; 4] {
    [
        place.wrapping_add(1),
        place.wrapping_sub(1),
        place.wrapping_add(ROW),
        place.wrapping_sub(ROW),
    ]
}

impl PlainBoard {
    fn at(&self, place: usize) -> Cell {
        self.cells.get(place).copied().unwrap_or(Cell::Edge)
    }

    fn set(&mut self, place: usize, cell: Cell) {
        if let Some(held) = self.cells.get_mut(place) {
            *held = cell;
        }
    }

    fn has_beside(&self, place: usize, wanted: Cell) -> bool {
        beside(place).iter().any(|next| self.at(*next) == wanted)
    }

    /// Marks the places that hold what is sought and whose chain touches what is wanted.
    fn touching(&self, sought: Cell, wanted: Cell) -> [bool; PLACES] {
        let mut marked = [false; PLACES];
        let mut order: ArrayVec<usize, PLACES> = ArrayVec::new();
        for place in 0..self.end {
            if self.at(place) == sought && self.has_beside(place, wanted) {
                if let Some(mark) = marked.get_mut(place) {
                    *mark = true;
                    let _ = order.try_push(place);
                }
            }
        }
        for number in 0..self.end {
            let Some(place) = order.get(number).copied() else {
                break;
            };
            for next in beside(place) {
                if self.at(next) == sought {
                    if let Some(mark) = marked.get_mut(next) {
                        if !*mark {
                            *mark = true;
                            let _ = order.try_push(next);
                        }
                    }
                }
            }
        }
        marked
    }

    /// Puts a stone on a point, then removes at once all stones of the other colour whose chains have no liberty.
    /// Returns how many it captured.
    fn put(&mut self, colour: Colour, place: usize) -> u32 {
        self.set(place, Cell::stone(colour));
        let other = Cell::stone(colour.other());
        let free = self.touching(other, Cell::Empty);
        let mut taken = 0_u32;
        for (place, is_free) in free.iter().enumerate() {
            if self.at(place) == other && !*is_free {
                self.set(place, Cell::Empty);
                taken = taken.saturating_add(1);
            }
        }
        taken
    }

    /// The area of a colour: its stones, and the empty points from which only its stones can be reached.
    fn area(&self, colour: Colour) -> i32 {
        let own = self.touching(Cell::Empty, Cell::stone(colour));
        let others = self.touching(Cell::Empty, Cell::stone(colour.other()));
        let mut area: i32 = 0;
        for (place, (by_own, by_others)) in own.iter().zip(&others).enumerate() {
            let is_stone = self.at(place) == Cell::stone(colour);
            if is_stone || (*by_own && !*by_others) {
                area = area.saturating_add(1);
            }
        }
        area
    }
}

/// A game from an empty board, or from one with setup stones.
#[derive(Drop)]
pub struct PlainGame {
    rule: KoRule,
    pub moves: ArrayVec<Move, MOVES>,
    board: PlainBoard,
    /// The boards before the first move and after each.
    boards: [PlainBoard; MOVES + 1],
    pub taken_by_black: u32,
    pub taken_by_white: u32,
}

impl PlainGame {
    /// A game on an empty board with `lines` lines each way.
    pub fn new(lines: u32, rule: KoRule) -> PlainGame {
        let mut board = PlainBoard {
            cells: [Cell::Edge; PLACES],
            end: ROW.saturating_mul(lines.saturating_add(1) as usize),
        };
        for row in 1..=lines {
            for column in 1..=lines {
                if let Some(point) = Point::new(column, row) {
                    board.set(place_of(point), Cell::Empty);
                }
            }
        }
        PlainGame {
            rule,
            moves: ArrayVec::new(),
            board,
            boards: [board; MOVES + 1],
            taken_by_black: 0,
            taken_by_white: 0,
        }
    }

    /// Adds a setup stone, before the first move.
    pub fn begin_with(&mut self, colour: Colour, point: Point) {
        self.board.set(place_of(point), Cell::stone(colour));
        self.boards[0] = self.board;
    }

    pub fn at(&self, point: Point) -> Option<Colour> {
        match self.board.at(place_of(point)) {
            Cell::Black => Some(Colour::Black),
            Cell::White => Some(Colour::White),
            Cell::Empty | Cell::Edge => None,
        }
    }

    /// The score in half points, without komi.
    pub fn score(&self) -> i32 {
        let lead = self
            .board
            .area(Colour::Black)
            .saturating_sub(self.board.area(Colour::White));
        lead.saturating_mul(2)
    }

    /// Whether the ko rule forbids recreating this board: the one before the last move, or any earlier one.
    fn forbids(&self, board: &PlainBoard) -> bool {
        let moves = self.moves.len();
        let first = match self.rule {
            KoRule::Simple => moves.saturating_sub(1),
            KoRule::Positional => 0,
        };
        let last = match self.rule {
            KoRule::Simple => moves,
            KoRule::Positional => moves.saturating_add(1),
        };
        self.boards.iter().enumerate().any(|(number, earlier)| {
            first <= number && number < last && earlier.cells == board.cells
        })
    }

    /// The board that a move would leave and how many stones it would capture, or why it is rejected.
    pub fn next(&self, colour: Colour, vertex: Vertex) -> Result<(PlainBoard, u32), PlayFault> {
        let Vertex::At(point) = vertex else {
            return Ok((self.board, 0));
        };
        let place = place_of(point);
        match self.board.at(place) {
            Cell::Edge => return Err(PlayFault::OffBoard),
            Cell::Black | Cell::White => return Err(PlayFault::Occupied),
            Cell::Empty => {}
        }
        let mut board = self.board;
        let taken = board.put(colour, place);
        if !board.has_beside(place, Cell::Empty) {
            let free = board.touching(Cell::stone(colour), Cell::Empty);
            if !free.get(place).copied().unwrap_or(false) {
                return Err(PlayFault::Suicide);
            }
        }
        if self.forbids(&board) {
            return Err(PlayFault::Ko);
        }
        Ok((board, taken))
    }

    pub fn play(&mut self, colour: Colour, vertex: Vertex) -> Result<(), PlayFault> {
        if self.moves.is_full() {
            return Err(PlayFault::Full);
        }
        let made = Move { colour, vertex };
        let (board, taken) = self.next(made.colour, made.vertex)?;
        self.board = board;
        match made.colour {
            Colour::Black => self.taken_by_black = self.taken_by_black.saturating_add(taken),
            Colour::White => self.taken_by_white = self.taken_by_white.saturating_add(taken),
        }
        let _ = self.moves.try_push(made);
        if let Some(after) = self.boards.get_mut(self.moves.len()) {
            *after = board;
        }
        Ok(())
    }

    pub fn undo(&mut self) -> Result<Move, NothingToUndo> {
        let Some(last) = self.moves.last().copied() else {
            return Err(NothingToUndo);
        };
        let moves = mem::replace(&mut self.moves, ArrayVec::new());
        self.board = self.boards[0];
        self.taken_by_black = 0;
        self.taken_by_white = 0;
        for made in moves.iter().take(moves.len().saturating_sub(1)) {
            let _ = self.play(made.colour, made.vertex);
        }
        Ok(last)
    }
}
