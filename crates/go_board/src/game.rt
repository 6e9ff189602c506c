//! A game: the record of its moves, and the board that results from it.
ghost use Rattle.std.specs.Prelude.{◌≡◌, ◌<◌, ◌≤◌, ◌↔◌, ◌⊎◌, ◌+◌, ◌-◌, [], ◌∷◌, ◌++◌, if◌then◌else◌, IsTrue, IsErr};
ghost use Rattle.std.specs.Prelude.{IfOk, OnOk, OnErr, MatchOption, MatchResult};
ghost use Rattle.go_base.specs.Decide.{holds};
ghost use Rattle.go_base.specs.Handicap.{AllowsHandicap, handicap_points};
ghost use Rattle.go_base.specs.Point.{IsOn};
ghost use Rattle.go_base.specs.Size.{most_size};
ghost use Rattle.go_board.specs.Board.{place_count};
ghost use Rattle.go_board.specs.private.TakenStack.{most_taken};
ghost use Rattle.go_board.specs.Taken.{same_colour};

mod boards;
mod candidates;
mod chain_lists;
mod copies;
mod playouts;
mod position_hash;
mod repeats;
mod rollouts;
mod searching;

use crate::board::{Board, Cell, place_of};
use crate::chains::Chains;
use crate::faults::{HandicapFault, NothingToUndo, PlayFault};
use crate::ko::{Ko, ko_after};
use crate::past_hashes::PastHashes;
use crate::rules::KoRule;
use crate::taken_stack::TakenStack;
use arrayvec::ArrayVec;
use go_base::{Colour, Komi, Move, Point, Size, Vertex, handicap};
pub(crate) use playouts::draw;
pub use searching::{Chain, MOST_POINTS};
use std::marker::Model;

/// The capacity of a record, in moves.
pub const MOST_MOVES: usize = 2000;

/// A game of Go: its size, komi and handicap, and the moves made so far.
///
/// Each move of the record was legal when it was made. Either colour may move at any time.
#[derive(Drop)]
pub struct Game {
    size: Size,
    komi: Komi,
    rule: KoRule,
    handicap: u32,
    moves: ArrayVec<Move, MOST_MOVES>,
    chains: Chains,
    ko: Option<Ko>,
    stack: TakenStack,
    taken_by_black: u32,
    taken_by_white: u32,
    hashes: PastHashes,
}

impl Model for Game {
    ghost use Rattle.go_board.specs.Game.{GameRecord};

    ghost Value = { GameRecord };

    ghost use Rattle.go_board.specs.private.Kept.{record_of, IsKept};

    ghost view = { record_of };

    ghost invariant = { IsKept };
}

impl Game {
    ghost use Rattle.go_board.specs.Board.{at, stone_at};
    ghost use Rattle.go_board.specs.Play.{play};
    ghost use Rattle.go_board.specs.declared.board.Cell.TheVariants.{Empty};
    ghost use Rattle.go_board.specs.Game.{HasRoom, without_last, with_move, board_of, RepeatsLast};
    ghost use Rattle.go_board.specs.Game.{Repeats, IsLegal, fresh_game_under};
    ghost use Rattle.go_board.specs.declared.rules.KoRule.TheVariants.{Simple};
    ghost use Rattle.go_board.specs.Game.{IsGame, IsFinished};
    ghost use Rattle.go_board.specs.decisions.Game.{finished?};
    ghost use Rattle.go_board.specs.Taken.{taken};
    ghost use Rattle.go_board.specs.Area.{score};
    ghost use Rattle.go_base.specs.declared.colours.Colour.TheVariants.{Black, White};
    ghost use Rattle.go_board.specs.Game.{GameRecord};
    ghost use Rattle.go_board.specs.private.Areas.{stones_on};
    ghost use Rattle.go_board.specs.Refusals.{RefusesPoint, RefusesVertex, Refuses, IsTouched, RefusesHandicap};
    ghost use Rattle.go_base.specs.declared.vertices.Vertex.TheVariants.{At};

    /// Makes a game under simple ko, with no handicap and no moves.
    pub fn new(size: Size, komi: Komi) -> Self
        ensures { result
            ≡ record { size = size; komi = komi; rule = Simple; handicap = 0; moves = [] } }
    {
        Game::with_rule(size, komi, KoRule::Simple)
    }

    /// Makes a game under this ko rule, with no handicap and no moves. No call changes the rule.
    pub fn with_rule(size: Size, komi: Komi, rule: KoRule) -> Self
        ensures { result
            ≡ record { size = size; komi = komi; rule = rule; handicap = 0; moves = [] } }
    {
        Game::opening(size, komi, rule, 0)
    }

    /// The game of an engine that was given nothing yet, with this ko rule: size 19, komi 0, no handicap and no moves.
    pub fn fresh(rule: KoRule) -> Self
        ensures { result ≡ fresh_game_under rule }
    {
        match (Size::new(19), Komi::from_half_points(0)) {
            (Some(size), Some(komi)) => Game::with_rule(size, komi, rule),
            _ => unreachable!(),
        }
    }

    /// A game under this ko rule, with `stones` handicap stones (0 for none) and no moves.
    fn opening(size: Size, komi: Komi, rule: KoRule, stones: u32) -> Self
        requires { (stones ≡ 0) ⊎ AllowsHandicap size stones }
        ensures { result
            ≡ record { size = size; komi = komi; rule = rule; handicap = stones; moves = [] } }
    {
        // A look: komi is in its limits.
        let _ = komi.half_points();
        let board = Board::start(size, stones);
        let hashes = PastHashes::of_start(rule, size, &board);
        let chains = Chains::from_board(board, size.get());
        let stack = TakenStack::new();
        Game {
            size,
            komi,
            rule,
            handicap: stones,
            moves: ArrayVec::new(),
            chains,
            ko: None,
            stack,
            taken_by_black: 0,
            taken_by_white: 0,
            hashes,
        }
    }

    /// Sets the size, and removes all stones, the handicap and the record. Komi stays.
    pub fn set_size(&mut self, size: Size)
        ensures { self.new ≡ record self.old { size = size; handicap = 0; moves = [] } }
    {
        *self = Game::opening(size, self.komi, self.rule, 0);
    }

    /// Sets komi. Everything else stays.
    pub fn set_komi(&mut self, komi: Komi)
        ensures { self.new ≡ record self.old { komi = komi } }
    {
        // A look: komi is in its limits.
        let _ = komi.half_points();
        self.komi = komi;
    }

    /// Removes all stones, the handicap and the record. Size and komi stay.
    pub fn clear(&mut self)
        ensures { self.new ≡ record self.old { handicap = 0; moves = [] } }
    {
        *self = Game::opening(self.size, self.komi, self.rule, 0);
    }

    /// Places `stones` handicap stones for Black, and returns their points in the order of the handicap table.
    ///
    /// # Errors
    ///
    /// The game stays as it was, and the first of these that applies is returned: `NotEmpty` if there is a stone on the
    /// board or a move in the record; `BadNumber` if the size doesn't allow that number.
    pub fn place_handicap(&mut self, stones: u32) -> Result<ArrayVec<Point, 9>, HandicapFault>
        ensures ok { IfOk result (λ points. points.items ≡ handicap_points self.old.size stones) }
        ensures placed { OnOk result (self.new ≡ record self.old { handicap = stones }) }
        ensures unchanged { OnErr result (self.new ≡ self.old) }

        // `RefusesHandicap` defines which error comes first.
        ensures answer { MatchResult result
            (λ _. (¬ IsTouched self.old) × AllowsHandicap self.old.size stones)
            (RefusesHandicap self.old stones) }
    {
        if !self.moves.is_empty() || self.chains.board().has_stone() {
            return Err(HandicapFault::NotEmpty);
        }
        let Some(points) = handicap(self.size, stones) else {
            return Err(HandicapFault::BadNumber);
        };
        *self = Game::opening(self.size, self.komi, self.rule, stones);
        Ok(points)
    }

    /// Whether a colour may make a move next. A pass is always legal. A play is legal if its point is an empty point of
    /// the board, the new stone's chain then has a liberty, and the ko rule doesn't forbid the resulting board. Simple
    /// ko forbids the board before the previous move. Positional ko forbids each board after any number of the record's
    /// first moves, from none to all. A full record isn't taken into account.
    pub fn legal(&self, colour: Colour, vertex: Vertex) -> bool
        ensures legal { IsTrue result ↔ IsLegal self.now colour vertex }
        ensures game { IsGame self.now }
    {
        self.test(colour, vertex).is_ok()
    }

    /// Returns why a colour may not make a move next: the first error that `play` would return for it, leaving aside a
    /// full record. Returns `None` if the move is legal, as a pass always is.
    pub fn refusal(&self, colour: Colour, vertex: Vertex) -> Option<PlayFault>
        ensures { MatchOption result
            (IsLegal self.now colour vertex)
            (RefusesVertex self.now colour vertex) }
    {
        match self.test(colour, vertex) {
            Ok(()) => None,
            Err(fault) => Some(fault),
        }
    }

    /// Makes a move, and adds it to the record.
    ///
    /// # Errors
    ///
    /// The game stays as it was, and the first of these that applies is returned: `Full` if the record has 2,000 moves;
    /// `OffBoard` if the board doesn't have the point; `Occupied` if there is a stone on it; `Suicide` if the new
    /// stone's chain would have no liberty; `Ko` if the ko rule forbids the resulting board. A pass is rejected only
    /// with `Full`.
    pub fn play(&mut self, colour: Colour, vertex: Vertex) -> Result<(), PlayFault>
        ensures played { OnOk result (self.new ≡ with_move self.old colour vertex) }
        ensures unchanged { OnErr result (self.new ≡ self.old) }

        // `Refuses` defines which error comes first.
        ensures answer { MatchResult result
            (λ _. IsLegal self.old colour vertex × HasRoom self.old)
            (Refuses self.old colour vertex) }
    {
        if self.moves.is_full() {
            return Err(PlayFault::Full);
        }
        let made = Move { colour, vertex };
        self.test(made.colour, made.vertex)?;
        let hash = self.known_hash(made.colour, made.vertex);
        let number = self.moves.len();
        let taken = self
            .chains
            .make(made.colour, made.vertex, number, &mut self.stack);
        self.taken_by_black = with_taken(self.taken_by_black, taken, colour, Colour::Black);
        self.taken_by_white = with_taken(self.taken_by_white, taken, colour, Colour::White);
        self.moves.push(made);
        self.ko = ko_after(&self.moves, &self.stack);
        self.hashes
            .add(self.rule, self.size, self.chains.board(), hash);
        Ok(())
    }

    /// Whether a move may be made, leaving aside a full record, or why it is rejected.
    fn test(&self, colour: Colour, vertex: Vertex) -> Result<(), PlayFault>
        ensures legal { MatchResult result
            (λ _. IsLegal self.now colour vertex)
            (RefusesVertex self.now colour vertex) }
        ensures game { IsGame self.now }
    {
        // A look: this is a game.
        let _ = &self.size;
        match vertex {
            Vertex::Pass => Ok(()),
            Vertex::At(point) => self.test_at(colour, point),
        }
    }

    /// Whether a play on a point may be made, or why it is rejected.
    fn test_at(&self, colour: Colour, point: Point) -> Result<(), PlayFault>
        ensures { MatchResult result
            (λ _. IsLegal self.now colour (At point))
            (RefusesPoint self.now colour point) }
    {
        let place = place_of(point);
        match self.chains.at(place) {
            Cell::Edge => return Err(PlayFault::OffBoard),
            Cell::Black | Cell::White => return Err(PlayFault::Occupied),
            Cell::Empty => {}
        }
        if !self.chains.would_be_free(colour, place) {
            return Err(PlayFault::Suicide);
        }
        if self.repeats(colour, point) {
            return Err(PlayFault::Ko);
        }
        Ok(())
    }

    /// Whether a play on an empty point would bring back a board that the ko rule forbids.
    #[inline]
    fn repeats(&self, colour: Colour, point: Point) -> bool
        requires { at (board_of self.now) point ≡ Empty }
        ensures { IsTrue result ↔ Repeats self.now (play (board_of self.now) colour point) }
    {
        match self.rule {
            KoRule::Simple => self.repeats_last(colour, place_of(point)),
            KoRule::Positional => self.repeats_any(colour, point),
        }
    }

    /// Whether a play on an empty point would bring back the board before the previous move.
    #[inline]
    fn repeats_last(&self, colour: Colour, place: usize) -> bool
        requires point { IsOn most_size place }
        requires empty { at (board_of self.now) place ≡ Empty }
        ensures { IsTrue result ↔ RepeatsLast self.now (play (board_of self.now) colour place) }
    {
        let Some(ko) = self.ko else {
            return false;
        };
        place == ko.point && self.chains.takes_only(colour, place, place_of(ko.stone))
    }

    /// Undoes the last move of the record, with its captures, and returns it. Handicap stones always stay.
    ///
    /// # Errors
    ///
    /// `NothingToUndo` if the record has no move. The game stays as it was.
    pub fn undo(&mut self) -> Result<Move, NothingToUndo>
        ensures last { IfOk result (λ last. self.old.moves ≡ self.new.moves ++ last ∷ []) }
        ensures shorter { OnOk result (self.new ≡ without_last self.old) }
        ensures nothing { IsErr result ↔ (self.old.moves ≡ []) }
        ensures unchanged { OnErr result (self.new ≡ self.old) }
    {
        let Some(last) = self.moves.pop() else {
            return Err(NothingToUndo);
        };
        let number = self.moves.len();
        let taken = self
            .chains
            .unmake(last.colour, last.vertex, number, &mut self.stack);
        let colour = last.colour;
        self.taken_by_black = without_taken(self.taken_by_black, taken, colour, Colour::Black);
        self.taken_by_white = without_taken(self.taken_by_white, taken, colour, Colour::White);
        self.ko = ko_after(&self.moves, &self.stack);
        self.hashes.drop_last();
        Ok(last)
    }

    /// The size of the board.
    pub fn size(&self) -> Size
        ensures size { result ≡ self.now.size }
        ensures game { IsGame self.now }
    {
        self.size
    }

    /// The komi that was set last: the points that White gets for playing second. It is subtracted from the score.
    pub fn komi(&self) -> Komi
        ensures { result ≡ self.now.komi }
    {
        self.komi
    }

    /// The ko rule that the game was made with.
    pub fn rule(&self) -> KoRule
        ensures { result ≡ self.now.rule }
    {
        self.rule
    }

    /// The number of handicap stones, or 0 without a handicap.
    pub fn handicap(&self) -> u32
        ensures { result ≡ self.now.handicap }
    {
        self.handicap
    }

    /// The moves made so far, in order.
    pub fn moves(&self) -> &[Move]
        ensures moves { result.now ≡ self.now.moves }
        ensures game { IsGame self.now }
    {
        &self.moves
    }

    /// The stone on a point. Returns `None` if the point is empty or off the board.
    pub fn at(&self, point: Point) -> Option<Colour>
        ensures { result ≡ stone_at (board_of self.now) point }
    {
        match self.chains.at(place_of(point)) {
            Cell::Black => Some(Colour::Black),
            Cell::White => Some(Colour::White),
            Cell::Empty | Cell::Edge => None,
        }
    }

    /// How many stones this colour's moves in the record have captured.
    pub fn captured(&self, colour: Colour) -> u32
        ensures { result ≡ taken self.now colour }
    {
        match colour {
            Colour::Black => self.taken_by_black,
            Colour::White => self.taken_by_white,
        }
    }

    /// The score in half points, positive if Black leads: twice the difference of Black's and White's areas, minus
    /// komi.
    ///
    /// A point with a stone counts for the stone's colour. An empty point counts for a colour if the stones beside its
    /// region are all of that colour, and there is one.
    pub fn score(&self) -> i32
        ensures { result ≡ score self.now }
    {
        let black_stones = self.chains.stones_of(Colour::Black);
        let white_stones = self.chains.stones_of(Colour::White);
        self.score_of(self.chains.board(), black_stones, white_stones)
    }

    /// The score of a board on which the colours have this many stones.
    // The proof unfolds the definition of the score explicitly. Elsewhere the score stays an opaque number, so that no
    // other proof grows with the number of points.
    #[tactic(auto, unfolding(crate::specs::Area::score))]
    fn score_of(&self, board: &Board, black_stones: u32, white_stones: u32) -> i32
        requires black { black_stones ≡ stones_on board.now Black }
        requires white { white_stones ≡ stones_on board.now White }
        requires few_black { black_stones ≤ place_count }
        requires few_white { white_stones ≤ place_count }
        ensures { (game : GameRecord) → board.now ≡ board_of game → self.now.komi ≡ game.komi
            → result ≡ score game }
    {
        let open = board.open_area();
        let black = (black_stones + open.black) as i32;
        let white = (white_stones + open.white) as i32;
        2 * (black - white) - self.komi.half_points()
    }

    /// Whether the last two moves of the record are passes.
    pub fn finished(&self) -> bool
        ensures passes { IsTrue result ↔ IsFinished self.now }
        ensures decided { result ≡ holds (finished? self.now) }
    {
        let [.., first, second] = self.moves() else {
            return false;
        };
        first.vertex == Vertex::Pass && second.vertex == Vertex::Pass
    }
}

/// How many stones a colour has captured after a move of `mover` that captured `taken` stones.
#[inline]
fn with_taken(had: u32, taken: u32, mover: Colour, colour: Colour) -> u32
    requires had { had ≤ most_taken }
    requires taken { taken ≤ place_count }
    ensures { result ≡ had + (if same_colour mover colour then taken else 0) }
{
    if mover == colour { had + taken } else { had }
}

/// How many stones a colour had captured before a move of `mover` that captured `taken` stones.
#[inline]
fn without_taken(has: u32, taken: u32, mover: Colour, colour: Colour) -> u32
    requires { (if same_colour mover colour then taken else 0) ≤ has }
    ensures { result ≡ has - (if same_colour mover colour then taken else 0) }
{
    if mover == colour { has - taken } else { has }
}
