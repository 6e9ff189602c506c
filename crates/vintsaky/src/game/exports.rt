//! The calls of a game.
ghost use Rattle.std.specs.Prelude.{◌≡◌, ◌↔◌, length, IsTrue};
ghost use Rattle.std.specs.Borrow.{full_share, sem};
ghost use Rattle.std.specs.Ptr.{lies_at, room_at};
ghost use base.Fml.{fsep};
ghost use Rattle.go_board.specs.Area.{score};
ghost use Rattle.go_board.specs.Game.{IsFinished, board_of};
ghost use Rattle.go_board.specs.Hash.{hash_of};
ghost use Rattle.go_board.specs.Show.{board_text};
ghost use Rattle.std.specs.Align.{type_align};
ghost use Rattle.std.specs.Mem.{type_size};
ghost use Rattle.go_board.specs.contracts.game.Game.{the_row as game_row};
ghost use Rattle.vintsaky.specs.contracts.game.GameHandle.{the_row};
ghost use Rattle.vintsaky.specs.Fresh.{fresh_game};
ghost use Rattle.vintsaky_calls.specs.Codes.{rule_code, Returns};
ghost use Rattle.vintsaky_calls.specs.Games.{ListsTaken, BeginCall, PlayCall, LegalCall, UndoCall, SetKomiCall};
ghost use Rattle.vintsaky_calls.specs.Games.{PlaceHandicapCall, LegalPointsCall, StoneAtCall, ChainCall, MadeCall};
ghost use Rattle.vintsaky_calls.specs.Games.{CapturedCall};
ghost use Rattle.vintsaky_calls.specs.Texts.{Writes};
ghost use Rattle.vintsaky_calls.specs.Turns.{HasTurn};

use crate::game::GameHandle;
use go_board::{Game, KoRule};
use std::mem::{align_of, size_of};
use vintsaky_calls::{code_of, games, turns};

/// Initialises a game in the caller's memory, and its handle. It has size 19, no komi and simple ko.
///
/// # Safety
///
/// The memory must have the size and the alignment that the calls for these return, and must be the object's alone.
/// Neither the memory nor the handle may move as long as the handle is used.
#[unsafe(no_mangle)]
pub unsafe extern "C" fn vintsaky_game_place(out: *mut GameHandle, at: *mut u8)
    requires* { sem 𝓛 (fsep (room_at the_row out) (room_at game_row at)) }
    ensures* { sem 𝓛
        (lies_at the_row full_share out (record { at = at; value = fresh_game })) }
{
    let fresh = fresh_game();
    (at as *mut Game).write(fresh);
    out.write(GameHandle { at });
}

/// A game of size 19 without komi, under simple ko.
fn fresh_game() -> Game
    ensures { result ≡ fresh_game }
{
    Game::fresh(KoRule::Simple)
}

/// Returns the size of a game in bytes.
#[unsafe(no_mangle)]
pub extern "C" fn vintsaky_game_bytes() -> usize
    ensures { result ≡ type_size game_row }
{
    size_of::<Game>()
}

/// Returns the alignment of a game in bytes.
#[unsafe(no_mangle)]
pub extern "C" fn vintsaky_game_align() -> usize
    ensures { result ≡ type_align game_row }
{
    align_of::<Game>()
}

/// Returns the size of the board, 1 to 25.
#[unsafe(no_mangle)]
pub extern "C" fn vintsaky_game_size(game: &mut GameHandle) -> u32
    ensures size { result ≡ game.old.value.size }
    ensures object { game.new.value ≡ game.old.value }
{
    game.get_mut().size().get()
}

/// Returns the komi in half points.
#[unsafe(no_mangle)]
pub extern "C" fn vintsaky_game_komi(game: &mut GameHandle) -> i32
    ensures komi { result ≡ game.old.value.komi }
    ensures object { game.new.value ≡ game.old.value }
{
    game.get_mut().komi().half_points()
}

/// Returns the number of handicap stones that were placed, or 0.
#[unsafe(no_mangle)]
pub extern "C" fn vintsaky_game_handicap(game: &mut GameHandle) -> u32
    ensures handicap { result ≡ game.old.value.handicap }
    ensures object { game.new.value ≡ game.old.value }
{
    game.get_mut().handicap()
}

/// Returns the colour whose turn it is: the one that didn't make the last move. Before the first move it is Black, or
/// White if handicap stones were placed.
#[unsafe(no_mangle)]
pub extern "C" fn vintsaky_game_turn(game: &mut GameHandle) -> u32
    ensures call { HasTurn game.old.value result }
    ensures object { game.new.value ≡ game.old.value }
{
    turns::turn(game.get_mut())
}

/// Returns the number of moves in the record.
#[unsafe(no_mangle)]
pub extern "C" fn vintsaky_game_length(game: &mut GameHandle) -> usize
    ensures length { result ≡ length game.old.value.moves }
    ensures object { game.new.value ≡ game.old.value }
{
    game.get_mut().moves().len()
}

/// Returns the area score with every stone alive, after komi, in half points: positive if Black leads.
#[unsafe(no_mangle)]
pub extern "C" fn vintsaky_game_score(game: &mut GameHandle) -> i32
    ensures score { result ≡ score game.old.value }
    ensures object { game.new.value ≡ game.old.value }
{
    game.get_mut().score()
}

/// Returns whether the last two moves are passes.
#[unsafe(no_mangle)]
pub extern "C" fn vintsaky_game_finished(game: &mut GameHandle) -> bool
    ensures passes { IsTrue result ↔ IsFinished game.old.value }
    ensures object { game.new.value ≡ game.old.value }
{
    game.get_mut().finished()
}

/// Returns a hash of the board and its size. Equal boards of one size have equal hashes. So different hashes show that
/// board or size differ; equal hashes show nothing.
#[unsafe(no_mangle)]
pub extern "C" fn vintsaky_game_hash(game: &mut GameHandle) -> u64
    ensures hash { result ≡ hash_of game.old.value.size (board_of game.old.value) }
    ensures object { game.new.value ≡ game.old.value }
{
    game.get_mut().board_hash()
}

/// Copies another game into this one, with its record, its komi and its ko rule. A game that is given for both is
/// unchanged.
#[unsafe(no_mangle)]
pub extern "C" fn vintsaky_game_copy(game: &mut GameHandle, other: &mut GameHandle)
    ensures copied { game.new.value ≡ other.old.value }
    ensures object { other.new.value ≡ other.old.value }
{
    game.get_mut().copy_from(other.get_mut());
}

/// Resets the game to an empty board, with this ko rule, size and komi.
///
/// # Errors
///
/// `BadRule`, `BadSize` or `BadKomi`, the first of these that applies. The game is unchanged.
#[unsafe(no_mangle)]
pub extern "C" fn vintsaky_game_begin(
    game: &mut GameHandle,
    rule: u32,
    size: u32,
    half_komi: i32,
) -> u32
    ensures call { Returns result (BeginCall rule size half_komi game.old.value game.new.value) }
{
    code_of(games::begin(game.get_mut(), rule, size, half_komi))
}

/// Plays a move of either colour, whoever moved last.
///
/// # Errors
///
/// `BadColour`, or else `BadVertex`, or else why the move is illegal: `Full`, `OffBoard`, `Occupied`, `Suicide` or
/// `Ko`. The game is unchanged.
#[unsafe(no_mangle)]
pub extern "C" fn vintsaky_game_play(game: &mut GameHandle, colour: u32, vertex: u32) -> u32
    ensures call { Returns result (PlayCall colour vertex game.old.value game.new.value) }
{
    code_of(games::play(game.get_mut(), colour, vertex))
}

/// Returns 0 if a colour may make a move next, or else why the move is illegal.
///
/// # Errors
///
/// Those of [`vintsaky_game_play`], except `Full`.
#[unsafe(no_mangle)]
pub extern "C" fn vintsaky_game_legal(game: &mut GameHandle, colour: u32, vertex: u32) -> u32
    ensures call { Returns result (LegalCall game.old.value colour vertex) }
    ensures object { game.new.value ≡ game.old.value }
{
    code_of(games::legal(game.get_mut(), colour, vertex))
}

/// Undoes the last move.
///
/// # Errors
///
/// `NothingToUndo` if the record has no move. The game is unchanged.
#[unsafe(no_mangle)]
pub extern "C" fn vintsaky_game_undo(game: &mut GameHandle) -> u32
    ensures call { Returns result (UndoCall game.old.value game.new.value) }
{
    code_of(games::undo(game.get_mut()))
}

/// Sets the komi. The board and the record are unchanged.
///
/// # Errors
///
/// `BadKomi`. The game is unchanged.
#[unsafe(no_mangle)]
pub extern "C" fn vintsaky_game_set_komi(game: &mut GameHandle, half_komi: i32) -> u32
    ensures call { Returns result (SetKomiCall half_komi game.old.value game.new.value) }
{
    code_of(games::set_komi(game.get_mut(), half_komi))
}

/// Places handicap stones on their fixed points.
///
/// # Errors
///
/// `NotEmpty`, or else `BadHandicap`. The game is unchanged.
#[unsafe(no_mangle)]
pub extern "C" fn vintsaky_game_place_handicap(game: &mut GameHandle, stones: u32) -> u32
    ensures call { Returns result (PlaceHandicapCall stones game.old.value game.new.value) }
{
    code_of(games::place_handicap(game.get_mut(), stones))
}

/// Writes the number of points where a colour may play next and, if the buffer holds all of them, these points, row by
/// row from A1. The call ignores that a full record takes no more moves.
///
/// # Errors
///
/// `BadColour`. Nothing is written.
#[unsafe(no_mangle)]
pub extern "C" fn vintsaky_game_legal_points(
    game: &mut GameHandle,
    colour: u32,
    points: &mut [u32],
    count: &mut usize,
) -> u32
    ensures call { Returns result (LegalPointsCall game.old.value colour points.old points.new
        count.old count.new) }
    ensures object { game.new.value ≡ game.old.value }
{
    code_of(games::legal_points(game.get_mut(), colour, points, count))
}

/// Writes the points whose stones the last move captured, row by row from A1, if the buffer holds all of them. Returns
/// how many there are.
#[unsafe(no_mangle)]
pub extern "C" fn vintsaky_game_taken_by_last_move(
    game: &mut GameHandle,
    points: &mut [u32],
) -> usize
    ensures call { ListsTaken game.old.value points.old points.new result }
    ensures object { game.new.value ≡ game.old.value }
{
    games::taken_by_last_move(game.get_mut(), points)
}

/// Writes the colour of the stone on a point, or 0 if it is empty.
///
/// # Errors
///
/// `BadVertex`, also for a pass, or else `OffBoard`. Nothing is written.
#[unsafe(no_mangle)]
pub extern "C" fn vintsaky_game_stone_at(
    game: &mut GameHandle,
    vertex: u32,
    colour: &mut u32,
) -> u32
    ensures call { Returns result (StoneAtCall game.old.value vertex colour.old colour.new) }
    ensures object { game.new.value ≡ game.old.value }
{
    code_of(games::stone_at(game.get_mut(), vertex, colour))
}

/// Writes how many stones and how many liberties the chain on a point has.
///
/// # Errors
///
/// `BadVertex`, also for a pass, or else `OffBoard` or `NoStone`. Nothing is written.
#[unsafe(no_mangle)]
pub extern "C" fn vintsaky_game_chain(
    game: &mut GameHandle,
    vertex: u32,
    stones: &mut u32,
    liberties: &mut u32,
) -> u32
    ensures call { Returns result (ChainCall game.old.value vertex stones.old stones.new
        liberties.old liberties.new) }
    ensures object { game.new.value ≡ game.old.value }
{
    code_of(games::chain(game.get_mut(), vertex, stones, liberties))
}

/// Writes a move of the record, counted from 0.
///
/// # Errors
///
/// `NoMove` if the record has no such move. Nothing is written.
#[unsafe(no_mangle)]
pub extern "C" fn vintsaky_game_made(
    game: &mut GameHandle,
    number: usize,
    colour: &mut u32,
    vertex: &mut u32,
) -> u32
    ensures call { Returns result (MadeCall game.old.value number colour.old colour.new
        vertex.old vertex.new) }
    ensures object { game.new.value ≡ game.old.value }
{
    code_of(games::made(game.get_mut(), number, colour, vertex))
}

/// Writes how many stones a colour has captured.
///
/// # Errors
///
/// `BadColour`. Nothing is written.
#[unsafe(no_mangle)]
pub extern "C" fn vintsaky_game_captured(
    game: &mut GameHandle,
    colour: u32,
    stones: &mut u32,
) -> u32
    ensures call { Returns result (CapturedCall game.old.value colour stones.old stones.new) }
    ensures object { game.new.value ≡ game.old.value }
{
    code_of(games::captured(game.get_mut(), colour, stones))
}

/// Returns the number of the ko rule.
#[unsafe(no_mangle)]
pub extern "C" fn vintsaky_game_rule(game: &mut GameHandle) -> u32
    ensures call { result ≡ rule_code game.old.value.rule }
    ensures object { game.new.value ≡ game.old.value }
{
    games::rule(game.get_mut())
}

/// Writes the board as text, as an engine answers `showboard`, and returns its length.
#[unsafe(no_mangle)]
pub extern "C" fn vintsaky_game_board_text(game: &mut GameHandle, text: &mut [u8]) -> usize
    ensures call { Writes (board_text game.old.value) text.old text.new result }
    ensures object { game.new.value ≡ game.old.value }
{
    games::board_text(game.get_mut(), text)
}
