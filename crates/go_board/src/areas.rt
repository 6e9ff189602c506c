//! Areas: how many stones each colour has on a board, and how many empty points count for it.
ghost use Rattle.std.specs.Prelude.{◌≡◌, ◌≢◌, ℕ, ◌+◌, ◌*◌, ◌<◌, ◌≤◌, ◌↔◌, ◌⊎◌, Contains, IsTrue, length};
ghost use Rattle.std.specs.Prelude.{if◌then◌else◌, ◌&&◌, not, replicate, None};
ghost use Rattle.go_base.specs.Point.{IsOn};
ghost use Rattle.go_base.specs.Size.{most_size};
ghost use Rattle.go_board.specs.Board.{place_count, at};
ghost use Rattle.go_board.specs.declared.board.Cell.TheVariants.{Empty, Edge, Black, White};
ghost use Rattle.go_board.specs.private.Areas.{one_of, stones_on, AreOpenBelow, known_at, AreKnown, IsLearnt};
ghost use Rattle.go_board.specs.private.Areas.{IsBeside, IsBesidePoint, HasAnyBeside};

use crate::board::{Board, Cell, PLACES, ROW, ROWS};
use crate::columns::Columns;
use crate::places::Places;
use go_base::Colour;

/// Which colours have stones beside a point or a region.
#[derive(Clone, Copy, Debug, PartialEq, Eq)]
pub struct Beside {
    /// Whether Black has.
    pub black: bool,
    /// Whether White has.
    pub white: bool,
}

/// How many empty points count for each colour.
#[derive(Clone, Copy, Debug, PartialEq, Eq)]
pub struct OpenArea {
    /// How many of them count for Black.
    pub black: u32,
    /// How many of them count for White.
    pub white: u32,
}

/// What is beside the regions that were found so far by flood fill.
#[derive(Drop)]
pub struct Regions {
    /// For each place, what is beside its region, if that is known.
    known: [Option<Beside>; PLACES],
}

/// 1 if a place with this content has a stone of the colour, and 0 if not.
#[inline]
pub fn one_of(colour: Colour, cell: Cell) -> u32
    ensures value { result ≡ one_of colour cell }
    ensures few { result ≤ 1 }
{
    match (colour, cell) {
        (Colour::Black, Cell::Black) | (Colour::White, Cell::White) => 1,
        _ => 0,
    }
}

/// Whether at least one of two values is true.
#[inline]
fn either(a: bool, b: bool) -> bool
    ensures { IsTrue result ↔ (IsTrue a ⊎ IsTrue b) }
{
    a || b
}

/// 1 where the first is true and the second isn't.
#[inline]
fn alone(a: bool, b: bool) -> u32
    ensures value { result ≡ (if a && not b then 1 else 0) }
    ensures few { result ≤ 1 }
{
    if a && !b { 1 } else { 0 }
}

impl Regions {
    /// Starts with nothing known.
    fn new() -> Self
        ensures { result.known ≡ replicate place_count None }
    {
        Regions {
            known: [None; PLACES],
        }
    }

    /// What is beside the region of a place, if that is known.
    #[inline]
    fn at(&self, place: usize) -> Option<Beside>
        requires { place < place_count }
        ensures { result ≡ known_at self.now.known place }
    {
        self.known[place]
    }

    /// Records what is beside the region of these places.
    fn learn(&mut self, places: &Places, beside: Beside)
        ensures { IsLearnt self.old.known self.new.known places.now beside }
    {
        for index in 0..places.len() {
            self.known[places.get(index)] = Some(beside);
        }
    }
}

impl Board {
    /// How many stones of a colour there are.
    pub fn stones_of(&self, colour: Colour) -> u32
        ensures value { result ≡ stones_on self.now colour }
        ensures few { result ≤ place_count }
    {
        let mut count = 0;
        for place in 0..PLACES {
            count += one_of(colour, self.at(place));
        }
        count
    }

    /// How many empty points count for each colour: those in regions with only its stones beside them. A region of more
    /// than one point is flood-filled once.
    pub fn open_area(&self) -> OpenArea
        ensures area { AreOpenBelow self.now place_count result }
        ensures black { result.black ≤ place_count }
        ensures white { result.white ≤ place_count }
    {
        let mut regions = Regions::new();
        let mut region = Places::new();
        let mut area = OpenArea { black: 0, white: 0 };
        for row in 0..ROWS {
            self.count_row(row, &mut area, &mut regions, &mut region);
        }
        area
    }

    /// Adds the empty points of a row that count for each colour.
    fn count_row(&self, row: usize, area: &mut OpenArea, regions: &mut Regions, region: &mut Places)
        requires row { row < 27 }
        requires before { AreOpenBelow self.now (26 * row) area.old }
        requires known { AreKnown self.now regions.old.known }
        ensures after { AreOpenBelow self.now (26 * (row + 1)) area.new }
        ensures known { AreKnown self.now regions.new.known }
    {
        self.look();
        let mut empty = self.empty_in_row(row);
        while let Some(column) = empty.pop_first() {
            let beside = self.beside_empty(ROW * row + column, regions, region);
            area.black += alone(beside.black, beside.white);
            area.white += alone(beside.white, beside.black);
        }
    }

    /// Which colours have stones beside the region of an empty point. If the point has no empty neighbour, these are
    /// the colours of its neighbours.
    #[inline]
    fn beside_empty(&self, place: usize, regions: &mut Regions, region: &mut Places) -> Beside
        requires point { IsOn most_size place }
        requires empty { at self.now place ≡ Empty }
        requires known { AreKnown self.now regions.old.known }
        ensures beside { IsBeside self.now place result }
        ensures known { AreKnown self.now regions.new.known }
    {
        if self.has_beside(place, Cell::Empty) {
            self.beside_region(place, regions, region)
        } else {
            self.beside(place)
        }
    }

    /// Which colours have stones beside the region of an empty point. A flood fill finds it if it isn't known yet.
    fn beside_region(&self, place: usize, regions: &mut Regions, region: &mut Places) -> Beside
        requires place { place < place_count }
        requires empty { at self.now place ≡ Empty }
        requires known { AreKnown self.now regions.old.known }
        ensures beside { IsBeside self.now place result }
        ensures known { AreKnown self.now regions.new.known }
    {
        if let Some(beside) = regions.at(place) {
            return beside;
        }
        self.chain_into(place, region);
        let beside = self.beside_all(region);
        regions.learn(region, beside);
        beside
    }

    /// Which colours have stones beside any of these points.
    fn beside_all(&self, places: &Places) -> Beside
        requires { (p : ℕ) → Contains places.now p → at self.now p ≢ Edge }
        ensures black { IsTrue result.black ↔ HasAnyBeside self.now places.now Black }
        ensures white { IsTrue result.white ↔ HasAnyBeside self.now places.now White }
    {
        self.look();
        let mut black = false;
        let mut white = false;
        for index in 0..places.len() {
            let beside = self.beside(places.get(index));
            black = either(black, beside.black);
            white = either(white, beside.white);
        }
        Beside { black, white }
    }

    /// Which colours have stones beside a point.
    #[inline]
    fn beside(&self, place: usize) -> Beside
        requires { IsOn most_size place }
        ensures { IsBesidePoint self.now place result }
    {
        Beside {
            black: self.has_beside(place, Cell::Black),
            white: self.has_beside(place, Cell::White),
        }
    }
}
