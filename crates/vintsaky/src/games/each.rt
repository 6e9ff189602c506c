//! The calls over many games, game by game.
ghost use Rattle.std.specs.Prelude.{◌≡◌, ◌≤◌, ◌↔◌, IsTrue, length};
ghost use Rattle.std.specs.List.{sum_by};
ghost use Rattle.vintsaky.specs.Games.{games_of, places_of};
ghost use Rattle.vintsaky_calls.specs.Batches.{PlayGamesCall, RestartGamesCall, ShowGamesCall};
ghost use Rattle.vintsaky_calls.specs.Batches.{RolloutGamesCall, ShowsEach, shown_count};

use crate::game::GameHandle;
use vintsaky_calls::Cause;
use vintsaky_calls::batches::{self, Shown};

/// Implements `vintsaky_games_play`.
pub(crate) fn play(games: &mut [GameHandle], moves: &[u32], causes: &mut [u8]) -> Result<(), Cause>
    ensures call { PlayGamesCall (games_of games.old) (games_of games.new) moves.now
        causes.old causes.new result }
    ensures handles { places_of games.new ≡ places_of games.old }
{
    let count = games.len();
    if moves.len() < count || causes.len() < count {
        return Err(Cause::NoRoom);
    }
    for place in 0..count {
        causes[place] = batches::play(games[place].get_mut(), moves[place]);
    }
    Ok(())
}

/// Implements `vintsaky_games_restart`.
pub(crate) fn restart(
    games: &mut [GameHandle],
    limit: u32,
    over: &mut [u8],
    half_points: &mut [i32],
) -> Result<(), Cause>
    ensures call { RestartGamesCall limit (games_of games.old) (games_of games.new) over.old
        over.new half_points.old half_points.new result }
    ensures handles { places_of games.new ≡ places_of games.old }
{
    let count = games.len();
    if over.len() < count || half_points.len() < count {
        return Err(Cause::NoRoom);
    }
    for place in 0..count {
        let outcome = batches::restart(games[place].get_mut(), limit);
        over[place] = outcome.over;
        half_points[place] = outcome.half_points;
    }
    Ok(())
}

/// Implements the calls that show something of each game, with these values for no and for yes.
pub(crate) fn show<T: Copy>(
    shown: Shown,
    games: &mut [GameHandle],
    zero: T,
    one: T,
    values: &mut [T],
) -> Result<(), Cause>
    ensures call { ShowGamesCall zero one shown (games_of games.old) values.old values.new result }
    ensures objects { games_of games.new ≡ games_of games.old }
    ensures handles { places_of games.new ≡ places_of games.old }
{
    if !is_room(shown, games, values.len()) {
        return Err(Cause::NoRoom);
    }
    show_each(shown, games, zero, one, values);
    Ok(())
}

/// Whether this many values are enough to show each game.
fn is_room(shown: Shown, games: &mut [GameHandle], room: usize) -> bool
    ensures enough { IsTrue result ↔ (sum_by (shown_count shown) (games_of games.old) ≤ room) }
    ensures objects { games_of games.new ≡ games_of games.old }
    ensures handles { places_of games.new ≡ places_of games.old }
{
    let mut left = room;
    for place in 0..games.len() {
        let count = batches::count(shown, games[place].get_mut());
        if left < count {
            return false;
        }
        left -= count;
    }
    true
}

/// Shows each game, one after the other.
fn show_each<T: Copy>(shown: Shown, games: &mut [GameHandle], zero: T, one: T, values: &mut [T])
    requires { sum_by (shown_count shown) (games_of games.old) ≤ length values.old }
    ensures shows { ShowsEach zero one shown (games_of games.old) values.old values.new }
    ensures objects { games_of games.new ≡ games_of games.old }
    ensures handles { places_of games.new ≡ places_of games.old }
{
    let mut at = 0;
    for place in 0..games.len() {
        let game = games[place].get_mut();
        let count = batches::count(shown, game);
        batches::show(shown, game, zero, one, &mut values[at..at + count]);
        at += count;
    }
}

/// Implements `vintsaky_games_rollouts`.
pub(crate) fn rollouts(
    games: &mut [GameHandle],
    seeds: &[u64],
    limit: u32,
    half_points: &mut [i32],
) -> Result<(), Cause>
    ensures call { RolloutGamesCall limit (games_of games.old) seeds.now
        half_points.old half_points.new result }
    ensures objects { games_of games.new ≡ games_of games.old }
    ensures handles { places_of games.new ≡ places_of games.old }
{
    let count = games.len();
    if seeds.len() < count || half_points.len() < count {
        return Err(Cause::NoRoom);
    }
    for place in 0..count {
        half_points[place] = batches::rollout(games[place].get_mut(), seeds[place], limit);
    }
    Ok(())
}
