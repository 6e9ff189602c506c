//! The calls over many games.
//!
//! The colour whose turn it is in a game is that of `vintsaky_game_turn`. The number of a move is the index of its
//! point, as `vintsaky_game_index` finds it, or the number of points of the board for a pass.
ghost use Rattle.std.specs.Prelude.{◌≡◌, ℕ};
ghost use Rattle.std.specs.Float.{Float, float_zero, float_one};
ghost use Rattle.vintsaky.specs.Games.{games_of, places_of};
ghost use Rattle.vintsaky_calls.specs.Batches.{PlayGamesCall, RestartGamesCall, ShowGamesCall, RolloutGamesCall};
ghost use Rattle.vintsaky_calls.specs.Codes.{Returns};
ghost use Rattle.vintsaky_calls.specs.declared.batches.Shown.TheVariants.{Planes, Mask};

use crate::game::GameHandle;
use crate::games::each;
use vintsaky_calls::batches::Shown;
use vintsaky_calls::code_of;

/// Plays one move in each game, for the colour whose turn it is, as `vintsaky_game_turn` returns it. The number of a
/// move is the index of its point, or the number of points of the board for a pass. Writes one byte for each game: 0,
/// or the error for which this game rejects its move. A game that rejects its move is unchanged, and the others are
/// played. The error is `OffBoard` for a number above that of a pass, and otherwise what `vintsaky_game_play` returns.
///
/// # Errors
///
/// `NoRoom` if `moves` or `causes` has fewer items than there are games. No move is made.
#[unsafe(no_mangle)]
pub extern "C" fn vintsaky_games_play(
    games: &mut [GameHandle],
    moves: &[u32],
    causes: &mut [u8],
) -> u32
    ensures call { Returns result (PlayGamesCall (games_of games.old) (games_of games.new) moves.now
        causes.old causes.new) }
    ensures handles { places_of games.new ≡ places_of games.old }
{
    code_of(each::play(games, moves, causes))
}

/// Writes one byte for each game: 1 if its last two moves are passes, else 2 if its record has at least `limit` moves
/// or is full, else 0. For 1 and 2 it writes the game's score in half points, and then removes the game's moves; size,
/// komi, ko rule and handicap stay. For 0 it writes the score 0, and the game is unchanged.
///
/// # Errors
///
/// `NoRoom` if `over` or `half_points` has fewer items than there are games. No game changes.
#[unsafe(no_mangle)]
pub extern "C" fn vintsaky_games_restart(
    games: &mut [GameHandle],
    limit: u32,
    over: &mut [u8],
    half_points: &mut [i32],
) -> u32
    ensures call { Returns result (RestartGamesCall limit (games_of games.old) (games_of games.new)
        over.old over.new half_points.old half_points.new) }
    ensures handles { places_of games.new ≡ places_of games.old }
{
    code_of(each::restart(games, limit, over, half_points))
}

/// Writes the planes of each game, one game after the other. A plane has one byte for each point in board order: 1
/// where a stone of one colour is, else 0. First come the stones of the colour whose turn it is, then those of the
/// other; then both for the board one move earlier, and so on, for as many moves as `earlier` says. If a game has fewer
/// moves, the planes of the missing boards are all 0.
///
/// # Errors
///
/// `NoRoom` if the buffer doesn't hold the planes of all games. A game of size n has 2 * n * n bytes for each board.
/// Nothing is written.
#[unsafe(no_mangle)]
pub extern "C" fn vintsaky_games_planes(
    games: &mut [GameHandle],
    earlier: u32,
    bytes: &mut [u8],
) -> u32
    ensures call { Returns result (ShowGamesCall {A = ℕ} 0 1 (Planes earlier) (games_of games.old)
        bytes.old bytes.new) }
    ensures objects { games_of games.new ≡ games_of games.old }
    ensures handles { places_of games.new ≡ places_of games.old }
{
    code_of(each::show(Shown::Planes(earlier), games, 0, 1, bytes))
}

/// Writes the same planes as floating-point numbers of 32 bits: 1.0 and 0.0.
///
/// # Errors
///
/// Those of [`vintsaky_games_planes`].
#[unsafe(no_mangle)]
pub extern "C" fn vintsaky_games_planes_f32(
    games: &mut [GameHandle],
    earlier: u32,
    floats: &mut [f32],
) -> u32
    ensures call { Returns result (ShowGamesCall {A = Float} float_zero float_one (Planes earlier)
        (games_of games.old) floats.old floats.new) }
    ensures objects { games_of games.new ≡ games_of games.old }
    ensures handles { places_of games.new ≡ places_of games.old }
{
    code_of(each::show(Shown::Planes(earlier), games, 0.0, 1.0, floats))
}

/// Writes a mask for each game, one game after the other. It has one byte for the move of each number: 1 if the colour
/// whose turn it is may make it, else 0. The last one is for a pass, and always 1. The call ignores that a full record
/// takes no more moves.
///
/// # Errors
///
/// `NoRoom` if the buffer doesn't hold the masks of all games. A game of size n has n * n + 1 bytes. Nothing is
/// written.
#[unsafe(no_mangle)]
pub extern "C" fn vintsaky_games_masks(games: &mut [GameHandle], bytes: &mut [u8]) -> u32
    ensures call { Returns result (ShowGamesCall {A = ℕ} 0 1 Mask (games_of games.old)
        bytes.old bytes.new) }
    ensures objects { games_of games.new ≡ games_of games.old }
    ensures handles { places_of games.new ≡ places_of games.old }
{
    code_of(each::show(Shown::Mask, games, 0, 1, bytes))
}

/// Writes the same masks as floating-point numbers of 32 bits: 1.0 and 0.0.
///
/// # Errors
///
/// Those of [`vintsaky_games_masks`].
#[unsafe(no_mangle)]
pub extern "C" fn vintsaky_games_masks_f32(games: &mut [GameHandle], floats: &mut [f32]) -> u32
    ensures call { Returns result (ShowGamesCall {A = Float} float_zero float_one Mask
        (games_of games.old) floats.old floats.new) }
    ensures objects { games_of games.new ≡ games_of games.old }
    ensures handles { places_of games.new ≡ places_of games.old }
{
    code_of(each::show(Shown::Mask, games, 0.0, 1.0, floats))
}

/// Writes the score of one rollout of each game, in half points, as `vintsaky_game_rollout` writes it. Each game has
/// its own seed, and the colour whose turn it is moves first.
///
/// # Errors
///
/// `NoRoom` if `seeds` or `half_points` has fewer items than there are games. Nothing is written.
#[unsafe(no_mangle)]
pub extern "C" fn vintsaky_games_rollouts(
    games: &mut [GameHandle],
    seeds: &[u64],
    limit: u32,
    half_points: &mut [i32],
) -> u32
    ensures call { Returns result (RolloutGamesCall limit (games_of games.old) seeds.now
        half_points.old half_points.new) }
    ensures objects { games_of games.new ≡ games_of games.old }
    ensures handles { places_of games.new ≡ places_of games.old }
{
    code_of(each::rollouts(games, seeds, limit, half_points))
}
