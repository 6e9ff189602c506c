//! What a search asks of a game, and playouts.
ghost use Rattle.std.specs.Prelude.{◌≡◌};
ghost use Rattle.vintsaky_calls.specs.Codes.{Returns};
ghost use Rattle.vintsaky_calls.specs.Searching.{IndexCall, PointAtCall, ListsBoard, LegalMaskCall, IsOwnEyeCall};
ghost use Rattle.vintsaky_calls.specs.Searching.{ChainPointsCall, ChainLibertiesCall, KoPointCall, RandomMoveCall};
ghost use Rattle.vintsaky_calls.specs.Searching.{PositionHashCall, PlayoutCall, RolloutCall};

use crate::game::GameHandle;
use vintsaky_calls::{code_of, searching};

/// Writes the index of a point, by which a search keeps a list with one value for each point. It is counted from 0 in
/// board order: row by row from A1, as A1, B1, .., A2, B2.
///
/// # Errors
///
/// `BadVertex`, also for a pass, or else `OffBoard`. Nothing is written.
#[unsafe(no_mangle)]
pub extern "C" fn vintsaky_game_index(game: &mut GameHandle, vertex: u32, index: &mut usize) -> u32
    ensures call { Returns result (IndexCall game.old.value vertex index.old index.new) }
    ensures object { game.new.value ≡ game.old.value }
{
    code_of(searching::index(game.get_mut(), vertex, index))
}

/// Writes the number of the point with this index.
///
/// # Errors
///
/// `OffBoard` if the board has no such index. Nothing is written.
#[unsafe(no_mangle)]
pub extern "C" fn vintsaky_game_point_at(
    game: &mut GameHandle,
    index: usize,
    vertex: &mut u32,
) -> u32
    ensures call { Returns result (PointAtCall game.old.value index vertex.old vertex.new) }
    ensures object { game.new.value ≡ game.old.value }
{
    code_of(searching::point_at(game.get_mut(), index, vertex))
}

/// Writes one byte for each point in board order, if the buffer holds all of them: the colour of its stone, or 0 if it
/// is empty. Returns how many there are.
#[unsafe(no_mangle)]
pub extern "C" fn vintsaky_game_board(game: &mut GameHandle, bytes: &mut [u8]) -> usize
    ensures call { ListsBoard game.old.value bytes.old bytes.new result }
    ensures object { game.new.value ≡ game.old.value }
{
    searching::board(game.get_mut(), bytes)
}

/// Writes one byte for each point in board order, if the buffer holds all of them, and how many there are: 1 where a
/// colour may play next, else 0. The call ignores that a full record takes no more moves.
///
/// # Errors
///
/// `BadColour`. Nothing is written.
#[unsafe(no_mangle)]
pub extern "C" fn vintsaky_game_legal_mask(
    game: &mut GameHandle,
    colour: u32,
    bytes: &mut [u8],
    count: &mut usize,
) -> u32
    ensures call { Returns result (LegalMaskCall game.old.value colour bytes.old bytes.new
        count.old count.new) }
    ensures object { game.new.value ≡ game.old.value }
{
    code_of(searching::legal_mask(game.get_mut(), colour, bytes, count))
}

/// Writes 1 if a point is an own eye of a colour, which a playout doesn't fill, else 0. An own eye is empty, and all
/// its neighbours are stones of the colour. The other colour has a stone on at most one of its diagonals, and on none
/// if the point is on the edge.
///
/// # Errors
///
/// `BadColour`, or else `BadVertex`, also for a pass, or else `OffBoard`. Nothing is written.
#[unsafe(no_mangle)]
pub extern "C" fn vintsaky_game_is_own_eye(
    game: &mut GameHandle,
    colour: u32,
    vertex: u32,
    holds: &mut u32,
) -> u32
    ensures call { Returns result (IsOwnEyeCall game.old.value colour vertex holds.old holds.new) }
    ensures object { game.new.value ≡ game.old.value }
{
    code_of(searching::is_own_eye(game.get_mut(), colour, vertex, holds))
}

/// Writes how many stones a chain has and, if the buffer holds all of them, their points, row by row from A1.
///
/// # Errors
///
/// Those of [`vintsaky_game_chain`].
#[unsafe(no_mangle)]
pub extern "C" fn vintsaky_game_chain_points(
    game: &mut GameHandle,
    vertex: u32,
    points: &mut [u32],
    count: &mut usize,
) -> u32
    ensures call { Returns result (ChainPointsCall game.old.value vertex points.old points.new
        count.old count.new) }
    ensures object { game.new.value ≡ game.old.value }
{
    code_of(searching::chain_points(game.get_mut(), vertex, points, count))
}

/// Writes how many liberties a chain has and, if the buffer holds all of them, these points, row by row from A1 and
/// each once.
///
/// # Errors
///
/// Those of [`vintsaky_game_chain`].
#[unsafe(no_mangle)]
pub extern "C" fn vintsaky_game_chain_liberties(
    game: &mut GameHandle,
    vertex: u32,
    points: &mut [u32],
    count: &mut usize,
) -> u32
    ensures call { Returns result (ChainLibertiesCall game.old.value vertex points.old points.new
        count.old count.new) }
    ensures object { game.new.value ≡ game.old.value }
{
    code_of(searching::chain_liberties(game.get_mut(), vertex, points, count))
}

/// Writes the ko point of a colour: the one empty point where its play would bring back the board before the last move.
/// If there is none, it writes 0, the number of a pass.
///
/// # Errors
///
/// `BadColour`. Nothing is written.
#[unsafe(no_mangle)]
pub extern "C" fn vintsaky_game_ko_point(
    game: &mut GameHandle,
    colour: u32,
    vertex: &mut u32,
) -> u32
    ensures call { Returns result (KoPointCall game.old.value colour vertex.old vertex.new) }
    ensures object { game.new.value ≡ game.old.value }
{
    code_of(searching::ko_point(game.get_mut(), colour, vertex))
}

/// Writes the move that a random word chooses for a colour. Of the n points where the colour may play next and that
/// aren't its own eyes, this is number `word` mod n, counted from 0 in board order. If there is no such point, it is a
/// pass. Each of the first 2^64 mod n points is chosen by one word more than each of the others, a bias that you can
/// neglect. The call ignores that a full record takes no more moves.
///
/// # Errors
///
/// `BadColour`. Nothing is written.
#[unsafe(no_mangle)]
pub extern "C" fn vintsaky_game_random_move(
    game: &mut GameHandle,
    colour: u32,
    word: u64,
    vertex: &mut u32,
) -> u32
    ensures call { Returns result (RandomMoveCall game.old.value colour word
        vertex.old vertex.new) }
    ensures object { game.new.value ≡ game.old.value }
{
    code_of(searching::random_move(game.get_mut(), colour, word, vertex))
}

/// Writes a hash of the position with a colour to move: of the board, its size, that colour and its ko point. Positions
/// that are equal in these have equal hashes. So different hashes show a difference; equal hashes show nothing. The
/// hash leaves out the komi, the ko rule, whether the last move was a pass, and the record, on which positional superko
/// depends.
///
/// # Errors
///
/// `BadColour`. Nothing is written.
#[unsafe(no_mangle)]
pub extern "C" fn vintsaky_game_position_hash(
    game: &mut GameHandle,
    colour: u32,
    hash: &mut u64,
) -> u32
    ensures call { Returns result (PositionHashCall game.old.value colour hash.old hash.new) }
    ensures object { game.new.value ≡ game.old.value }
{
    code_of(searching::position_hash(game.get_mut(), colour, hash))
}

/// Plays on at random: this colour first, and then both in turn. Each plays a random point of those where it may play
/// and that aren't its own eyes, or passes if there is none. The playout ends after two passes in a row, where a pass
/// just before the call counts too; after `limit` moves; or when the record has 2,000. The same game, colour, seed and
/// limit always make the same moves, by random words of 64 bits from the PCG64 generator of the Rust crate rand_pcg,
/// which is made of the seed by its seed_from_u64. At the call the empty points are listed in board order. At a turn
/// with n points left to choose from, the next word chooses one of the first n: number (word >> 32) * n >> 32, counted
/// from 0. If the colour may not play there, or it is its own eye, the point changes places with the last of the n, and
/// n is one less. Otherwise it is played: the last point of the whole list moves to its place, and the points of
/// captured stones are appended in board order. If no point is left, the colour passes, without a word. The next turn
/// takes the list as it is then.
///
/// # Errors
///
/// `BadColour`. The game is unchanged.
#[unsafe(no_mangle)]
pub extern "C" fn vintsaky_game_playout(
    game: &mut GameHandle,
    colour: u32,
    seed: u64,
    limit: u32,
) -> u32
    ensures call { Returns result (PlayoutCall colour seed limit game.old.value game.new.value) }
{
    code_of(searching::playout(game.get_mut(), colour, seed, limit))
}

/// Writes the score that the game would have after [`vintsaky_game_playout`] with the same arguments, as
/// [`vintsaky_game_score`] counts it. The game is unchanged.
///
/// # Errors
///
/// `BadColour`. Nothing is written.
#[unsafe(no_mangle)]
pub extern "C" fn vintsaky_game_rollout(
    game: &mut GameHandle,
    colour: u32,
    seed: u64,
    limit: u32,
    half_points: &mut i32,
) -> u32
    ensures call { Returns result (RolloutCall game.old.value colour seed limit
        half_points.old half_points.new) }
    ensures object { game.new.value ≡ game.old.value }
{
    code_of(searching::rollout(game.get_mut(), colour, seed, limit, half_points))
}
