//! The moves of a game whose stones are still on the board: they set it up again.
ghost use Rattle.std.specs.Prelude.{◌≡◌, ◌≤◌, length, IfOk};
ghost use Rattle.std.specs.List.{list_any};
ghost use Rattle.gtp_check_shortening.specs.Shortening.{is_play_at, is_point, set_up, standing};
ghost use Rattle.gtp_check_shortening.specs.Shortening.{stands, stays_on, still_stands};

use crate::flat::{Commands, add_if, flat, role_of, stays, taken_by};
use crate::superko::{game_after, play_of};
use go_base::{Point, Vertex};
use go_board::{Game, KoRule};
use gtp_check_judge::CheckCommand;
use gtp_check_talk::Said;
use std::alloc::{AllocError, Global};

/// Returns those of the commands from `start` on that set up the board as it is after all of them: what sets a game up,
/// and the moves whose stones are still on the board. Without captured stones no move needs another.
pub(crate) fn set_up(alloc: Global, start: usize, talk: &[Said]) -> Result<Commands, AllocError>
    requires { start ≤ length talk.now }
    ensures { IfOk result (λ commands. commands.items ≡ set_up start talk.now) }
{
    match game_after(talk, KoRule::Simple) {
        Some(game) => standing(alloc, &game, &talk[start..]),
        None => flat(alloc, &talk[start..]),
    }
}

/// Returns the commands that stay, when the board at the end is this game's.
fn standing(alloc: Global, game: &Game, talk: &[Said]) -> Result<Commands, AllocError>
    ensures { IfOk result (λ commands. commands.items ≡ standing game.now talk.now) }
{
    let mut commands = Vec::new(alloc);
    let mut taken_back: usize = 0;
    for done in 0..talk.len() {
        let said = talk[talk.len() - 1 - done];
        let stay = stays_on(game, &said, taken_back, commands.as_slice());
        add_if(&mut commands, stay.then_some(said.command))?;
        taken_back = taken_by(role_of(&said), taken_back);
    }
    commands.reverse();
    Ok(commands)
}

/// Returns whether a command stays, when those after it undo this many moves, and these of them stay.
fn stays_on(game: &Game, said: &Said, after: usize, later: &[CheckCommand]) -> bool
    ensures { result ≡ stays_on game.now said.now after later.now }
{
    stays(role_of(said), after) && stands(game, &said.command, later)
}

/// Returns whether a command isn't a `play`, or is one whose stone is on the board at the end, where no later one puts
/// it.
fn stands(game: &Game, command: &CheckCommand, later: &[CheckCommand]) -> bool
    ensures { result ≡ stands game.now command.now later.now }
{
    match play_of(command) {
        Some(made) => still_stands(game, made.vertex, later),
        None => true,
    }
}

/// Returns whether a vertex is a point with a stone, and none of these commands is a `play` there.
fn still_stands(game: &Game, vertex: Vertex, later: &[CheckCommand]) -> bool
    ensures { result ≡ still_stands game.now vertex later.now }
{
    match vertex {
        Vertex::Pass => false,
        Vertex::At(point) => { game.at(point).is_some() && !is_played(later, point) }
    }
}

/// Returns whether one of these commands is a `play` on this point.
fn is_played(commands: &[CheckCommand], point: Point) -> bool
    ensures { result ≡ list_any (λ command. is_play_at command point) commands.now }
{
    commands.iter().any(|command| is_play_at(command, point))
}

/// Returns whether a command is a `play` on this point.
fn is_play_at(command: &CheckCommand, point: Point) -> bool
    ensures { result ≡ is_play_at command.now point }
{
    match play_of(command) {
        Some(made) => is_point(made.vertex, point),
        None => false,
    }
}

/// Returns whether a vertex is this point.
fn is_point(vertex: Vertex, point: Point) -> bool
    ensures { result ≡ is_point vertex point }
{
    match vertex {
        Vertex::Pass => false,
        Vertex::At(other) => other == point,
    }
}
