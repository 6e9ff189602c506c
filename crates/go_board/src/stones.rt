//! A board with the chain id of each stone, and the pseudo-liberties of each chain.
ghost use Rattle.std.specs.Prelude.{◌≡◌, ◌≢◌, ◌<◌, ◌≤◌, ◌↔◌, ℕ, IsTrue, length, map, slice_set, Contains};
ghost use Rattle.go_base.specs.Colour.{other};
ghost use Rattle.go_base.specs.Point.{IsOn};
ghost use Rattle.go_base.specs.Size.{most_size};
ghost use Rattle.go_board.specs.Board.{place_count};

use crate::areas::one_of;
use crate::board::{Board, Cell, ROW};
use crate::chain_ids::ChainIds;
use crate::places::Places;
use crate::pseudo_liberties::PseudoLiberties;
use go_base::Colour;
use std::marker::Model;

/// A board with an id for each stone, the pseudo-liberties of each id (the empty neighbours of its stones, counted per
/// stone), and the number of stones of each colour. A place without a stone has id 0, so updates beside a point need no
/// test. A pass over the ids covers only the board's rows.
#[derive(Drop)]
pub struct Stones {
    board: Board,
    ids: ChainIds,
    counts: PseudoLiberties,
    lines: u16,
    black: u32,
    white: u32,
}

impl Model for Stones {
    ghost use Rattle.go_board.specs.private.ChainId.{BoardWithIds};

    ghost Value = { BoardWithIds };

    ghost use Rattle.go_board.specs.private.Stones.{board_with_ids, AreCounted};

    ghost view = { board_with_ids };

    ghost invariant = { AreCounted };
}

impl Stones {
    ghost use Rattle.go_board.specs.Board.{at, stone, IsStone};
    ghost use Rattle.go_board.specs.Chain.{IsCaptured};
    ghost use Rattle.go_board.specs.declared.board.Cell.TheVariants.{Empty};
    ghost use Rattle.go_board.specs.private.Areas.{stones_on};
    ghost use Rattle.go_board.specs.private.Frame.{IsFramed, HasSize};
    ghost use Rattle.go_board.specs.private.ChainId.{id_of, ids_beside, AreChainIds, AreChains};
    ghost use Rattle.go_board.specs.private.ChainId.{HasOtherLiberty};
    ghost use Rattle.go_board.specs.private.Steps.{rename_three, IsIdOr, ChangesIds, SetsFragmentId, IsCut};
    ghost use Rattle.go_board.specs.private.NamedIds.{named_at, named_beside, AreNamed, AreCapturedBeside};
    ghost use Rattle.go_board.specs.private.NamedIds.{AreCapturedStones, AreRemoved, FreesPlay, FreesAny, IsSeed};
    ghost use Rattle.go_board.specs.private.NamedIds.{TouchesCaptured};

    /// Finds the chains of a board of `lines` lines, and counts their pseudo-liberties stone by stone.
    pub fn from_board(board: Board, lines: u32) -> Self
        requires framed { IsFramed board }
        requires size { HasSize lines board }
        requires lines { lines ≤ most_size }
        ensures board { result.board ≡ board }
        ensures chains { AreChains result.board result.ids }
    {
        let ids = ChainIds::from_board(&board);
        let counts = PseudoLiberties::new(&board, &ids);
        let black = board.stones_of(Colour::Black);
        let white = board.stones_of(Colour::White);
        Stones {
            board,
            ids,
            counts,
            lines: lines as u16,
            black,
            white,
        }
    }

    /// Returns a copy.
    pub fn copy(&self) -> Self
        ensures { result ≡ self.now }
    {
        Stones {
            board: self.board,
            ids: self.ids,
            counts: self.counts,
            lines: self.lines,
            black: self.black,
            white: self.white,
        }
    }

    /// Makes this a copy of other stones, in place.
    pub fn copy_from(&mut self, other: &Stones)
        ensures { self.new ≡ other.now }
    {
        self.board = other.board;
        self.ids = other.ids;
        self.counts = other.counts;
        self.lines = other.lines;
        self.black = other.black;
        self.white = other.white;
    }

    /// The board.
    #[inline]
    pub fn board(&self) -> &Board
        ensures { result.now ≡ self.now.board }
    {
        &self.board
    }

    /// How many stones of a colour there are.
    #[inline]
    pub fn stones_of(&self, colour: Colour) -> u32
        ensures value { result ≡ stones_on self.now.board colour }
        ensures few { result ≤ place_count }
    {
        match colour {
            Colour::Black => self.black,
            Colour::White => self.white,
        }
    }

    /// What a place holds.
    #[inline]
    pub fn at(&self, place: usize) -> Cell
        requires { place < place_count }
        ensures { result ≡ at self.now.board place }
    {
        self.board.at(place)
    }

    /// The id of a place.
    #[inline]
    pub fn id(&self, place: usize) -> usize
        requires { place < place_count }
        ensures value { result ≡ id_of self.now.ids place }
        ensures below { result < place_count }
        ensures named { IsStone (at self.now.board place) → result ≢ 0 }
    {
        self.ids.at(place)
    }

    /// The id of such a stone on a place, or `or` if there is none.
    #[inline]
    pub fn id_or(&self, stone: Cell, place: usize, or: usize) -> usize
        requires place { place < place_count }
        requires or { or < place_count }
        requires stone { IsStone stone }
        requires named { or ≢ 0 }
        ensures value { IsIdOr self.now.board self.now.ids stone place or result }
        ensures below { result < place_count }
        ensures named { result ≢ 0 }
    {
        // The id is looked up first, so that the choice needs no jump.
        let id = self.ids.at(place);
        if self.at(place) == stone { id } else { or }
    }

    /// Places a stone with an id on an empty point. Nothing is captured.
    #[inline]
    pub fn place_stone(&mut self, colour: Colour, place: usize, id: usize)
        requires point { IsOn most_size place }
        requires empty { at self.old.board place ≡ Empty }
        requires id { id < place_count }
        requires named { id ≢ 0 }
        ensures { self.new ≡ record {
          board = slice_set self.old.board place (stone colour);
          ids = slice_set self.old.ids place id;
        } }
    {
        let stone = Cell::stone(colour);
        self.black += one_of(Colour::Black, stone);
        self.white += one_of(Colour::White, stone);
        self.counts.lower_all_beside(&self.ids, place);
        self.board.set(place, stone);
        self.ids.set(place, id);
        let more = self.board.empty_beside(place);
        self.counts.add(id, more);
    }

    /// Removes a stone from its place.
    #[inline]
    pub fn remove_stone(&mut self, place: usize)
        requires { IsStone (at self.old.board place) }
        ensures { self.new ≡ record {
          board = slice_set self.old.board place Empty;
          ids = slice_set self.old.ids place 0;
        } }
    {
        let stone = self.board.at(place);
        self.black -= one_of(Colour::Black, stone);
        self.white -= one_of(Colour::White, stone);
        let less = self.board.empty_beside(place);
        self.counts.lessen(self.ids.at(place), less);
        self.board.set(place, Cell::Empty);
        self.ids.set(place, 0);
        self.counts.raise_all_beside(&self.ids, place);
    }

    /// Renames three ids to one, and adds up their pseudo-liberties. If they are one already, no pass over the board is
    /// made.
    #[inline]
    pub fn join(&mut self, to: usize, a: usize, b: usize, c: usize)
        requires to { to < place_count }
        requires named { to ≢ 0 }
        requires three { AreNamed a b c }
        ensures { self.new ≡ record self.old {
          ids = map (rename_three to a b c) self.old.ids;
        } }
    {
        if a == to && b == to && c == to {
            return;
        }
        self.join_three(to, a, b, c);
    }

    /// Renames three ids to one in one pass, whether or not they are one already.
    fn join_three(&mut self, to: usize, a: usize, b: usize, c: usize)
        requires to { to < place_count }
        requires named { to ≢ 0 }
        requires three { AreNamed a b c }
        ensures { self.new ≡ record self.old {
          ids = map (rename_three to a b c) self.old.ids;
        } }
    {
        self.counts.merge(to, a);
        self.counts.merge(to, b);
        self.counts.merge(to, c);
        self.ids.join(to, a, b, c, self.lines as usize);
    }

    /// 1 if a place has this id, and 0 if not.
    #[inline]
    fn named_at(&self, place: usize, id: usize) -> u32
        requires { place < place_count }
        ensures value { result ≡ named_at self.now.ids id place }
        ensures few { result ≤ 1 }
    {
        if self.ids.at(place) == id { 1 } else { 0 }
    }

    /// How many neighbours of a point have this id.
    #[inline]
    pub fn named_beside(&self, place: usize, id: usize) -> u32
        requires { IsOn most_size place }
        ensures named { result ≡ named_beside self.now.ids id place }
        ensures stones { id ≢ 0 → result ≡ ids_beside self.now.board self.now.ids id place }
    {
        // A look: a place without a stone has id 0.
        let _ = &self.ids;
        self.named_at(place + 1, id)
            + self.named_at(place - 1, id)
            + self.named_at(place + ROW, id)
            + self.named_at(place - ROW, id)
    }

    /// Whether the chain of the stone on a place, if there is one, has a liberty other than this empty point.
    #[inline]
    pub fn has_other_liberty(&self, place: usize, point: usize) -> bool
        requires place { place < place_count }
        requires point { IsOn most_size point }
        requires empty { at self.now.board point ≡ Empty }
        requires chains { AreChains self.now.board self.now.ids }
        ensures { IsStone (at self.now.board place)
            → IsTrue result ↔ HasOtherLiberty self.now.board place point }
    {
        let id = self.ids.at(place);
        self.named_beside(point, id) < self.counts.at(id)
    }

    /// Whether a place holds a stone that makes a play of this colour on an empty point legal: one of the other colour
    /// in atari, or one of its own whose chain has another liberty.
    #[inline]
    fn frees_play(&self, colour: Colour, place: usize, point: usize) -> bool
        requires place { place < place_count }
        requires point { IsOn most_size point }
        requires empty { at self.now.board point ≡ Empty }
        requires chains { AreChains self.now.board self.now.ids }
        ensures { IsTrue result ↔ FreesPlay self.now.board colour point place }
    {
        let other = self.has_other_liberty(place, point);
        let cell = self.at(place);
        if other {
            cell == Cell::stone(colour)
        } else {
            cell == Cell::stone(colour.other())
        }
    }

    /// Whether some stone beside an empty point makes a play of this colour there legal.
    #[inline]
    pub fn frees_any(&self, colour: Colour, point: usize) -> bool
        requires point { IsOn most_size point }
        requires empty { at self.now.board point ≡ Empty }
        requires chains { AreChains self.now.board self.now.ids }
        ensures { IsTrue result ↔ FreesAny self.now.board colour point }
    {
        // All four are looked at first, so that there is only one jump.
        let right = self.frees_play(colour, point + 1, point);
        let left = self.frees_play(colour, point - 1, point);
        let above = self.frees_play(colour, point + ROW, point);
        let under = self.frees_play(colour, point - ROW, point);
        right || left || above || under
    }

    /// Whether a place holds a stone of this colour whose chain has no liberty.
    #[inline]
    fn is_captured(&self, colour: Colour, place: usize) -> bool
        requires place { place < place_count }
        requires chains { AreChains self.now.board self.now.ids }
        ensures { IsTrue result ↔ IsCaptured self.now.board colour place }
    {
        // A place without a stone may be asked about too: its content then differs.
        let count = self.counts.at(self.ids.at(place));
        self.at(place) == Cell::stone(colour) && count == 0
    }

    /// Whether a neighbour of a point holds a stone of this colour whose chain has no liberty.
    #[inline]
    pub fn has_captured_beside(&self, colour: Colour, place: usize) -> bool
        requires point { IsOn most_size place }
        requires chains { AreChains self.now.board self.now.ids }
        ensures { IsTrue result ↔ TouchesCaptured self.now.board colour place }
    {
        // All four are looked at first, so that there is only one jump.
        let right = self.is_captured(colour, place + 1);
        let left = self.is_captured(colour, place - 1);
        let above = self.is_captured(colour, place + ROW);
        let under = self.is_captured(colour, place - ROW);
        right || left || above || under
    }

    /// Inserts a place if it holds a stone of this colour whose chain has no liberty.
    #[inline]
    fn seed(&self, colour: Colour, place: usize, found: &mut Places)
        requires place { place < place_count }
        requires chains { AreChains self.now.board self.now.ids }
        ensures { IsSeed self.now.board colour place found.old found.new }
    {
        if self.is_captured(colour, place) {
            found.insert(place);
        }
    }

    /// Finds the stones of this colour without liberties, and replaces the contents of `found` by them. Each of their
    /// chains has a stone beside the point.
    pub fn captured_into(&self, colour: Colour, place: usize, found: &mut Places)
        requires point { IsOn most_size place }
        requires chains { AreChains self.now.board self.now.ids }
        requires beside { AreCapturedBeside self.now.board colour place }
        ensures { AreCapturedStones self.now.board colour found.new }
    {
        let stone = Cell::stone(colour);
        found.clear();
        self.seed(colour, place + 1, found);
        self.seed(colour, place - 1, found);
        self.seed(colour, place + ROW, found);
        self.seed(colour, place - ROW, found);
        let mut next = 0;
        while next < found.len() {
            self.board.spread_round(stone, found.get(next), found);
            next += 1;
        }
    }

    /// Removes the stones on these places.
    pub fn remove_all(&mut self, places: &Places)
        requires { (p : ℕ) → Contains places.now p → IsStone (at self.old.board p) }
        ensures { AreRemoved self.old self.new places.now }
    {
        // A look: there are as many ids as places.
        let _ = &self.ids;
        for index in 0..places.len() {
            self.remove_stone(places.get(index));
        }
    }

    /// Changes the id of a stone.
    fn change_id(&mut self, place: usize, id: usize)
        requires stone { IsStone (at self.old.board place) }
        requires id { id < place_count }
        requires named { id ≢ 0 }
        ensures { self.new ≡ record self.old { ids = slice_set self.old.ids place id } }
    {
        let share = self.board.empty_beside(place);
        self.counts.lessen(self.ids.at(place), share);
        self.counts.add(id, share);
        self.ids.set(place, id);
    }

    /// Changes the id of all stones in a chain.
    fn change_ids(&mut self, chain: &Places, id: usize)
        requires stones { (p : ℕ) → Contains chain.now p → IsStone (at self.old.board p) }
        requires id { id < place_count }
        requires named { id ≢ 0 }
        ensures { ChangesIds self.old self.new chain.now id }
    {
        // A look: there are as many ids as places.
        let _ = &self.ids;
        for index in 0..chain.len() {
            self.change_id(chain.get(index), id);
        }
    }

    /// If a place holds a stone with this id, makes that place the id of its chain.
    fn set_fragment_id(&mut self, place: usize, id: usize, chain: &mut Places)
        requires { place < place_count }
        ensures { SetsFragmentId self.old self.new place id }
    {
        if self.at(place).is_stone() && self.id(place) == id {
            self.board.chain_into(place, chain);
            self.change_ids(chain, place);
        }
    }

    /// Gives an id to each chain into which the chain with this id broke up when its stone on a place was removed.
    pub fn split(&mut self, place: usize, id: usize)
        requires point { IsOn most_size place }
        requires cut { IsCut self.old.board self.old.ids place id }
        ensures board { self.new.board ≡ self.old.board }
        ensures ids { AreChainIds self.new.board self.new.ids }
    {
        let mut chain = Places::new();
        self.set_fragment_id(place + 1, id, &mut chain);
        self.set_fragment_id(place - 1, id, &mut chain);
        self.set_fragment_id(place + ROW, id, &mut chain);
        self.set_fragment_id(place - ROW, id, &mut chain);
    }
}
