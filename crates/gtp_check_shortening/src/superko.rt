//! Whether positional ko explains a refusal.
ghost use Rattle.std.specs.Prelude.{◌≡◌, ◌↔◌, IsTrue, None, Some, true, false};
ghost use Rattle.go_board.specs.Refusals.{RefusesVertex};
ghost use Rattle.go_board.specs.declared.faults.PlayFault.TheVariants as fault;
ghost use Rattle.go_board.specs.declared.rules.KoRule.TheVariants as rule;
ghost use Rattle.go_board.specs.Game.{fresh_game_under, without_last};
ghost use Rattle.gtp_check_shortening.specs.Superko.{IsPositional, after_all, after_asked, after_match, after_play, game_before};
ghost use Rattle.gtp_check_shortening.specs.Superko.{after_stones, play_of};

use go_base::Move;
use go_board::{Game, KoRule, PlayFault};
use gtp_check_judge::CheckCommand;
use gtp_check_talk::Said;
use gtp_wire::Command;

/// Returns whether the last command is a `play` that positional ko forbids after the commands before it, on the board
/// that it was asked on. If a move among them was the engine's own this isn't known, and the answer is no.
pub fn is_positional(talk: &[Said]) -> bool
    ensures { IsTrue result ↔ IsPositional talk.now }
{
    let Some((last, before)) = talk.split_last() else {
        return false;
    };
    let Some(made) = play_of(&last.command) else {
        return false;
    };
    match game_after(before, KoRule::Positional) {
        Some(game) => game.size() == last.size && is_ko(&game, made),
        None => false,
    }
}

/// Returns the move of a `play`, if it is one.
pub(crate) fn play_of(command: &CheckCommand) -> Option<Move>
    ensures { result ≡ play_of command.now }
{
    match command {
        CheckCommand::Match(Command::Play(made)) | CheckCommand::PlayInFull(made) => Some(*made),
        _ => None,
    }
}

/// Returns the game in which the last of these commands was asked, on the board that it was asked on, if they determine
/// it.
pub fn game_before(talk: &[Said], rule: KoRule) -> Option<Game>
    ensures { result ≡ game_before rule talk.now }
{
    let (last, before) = talk.split_last()?;
    let game = game_after(before, rule)?;
    if game.size() == last.size {
        Some(game)
    } else {
        None
    }
}

/// Returns whether a move is refused as ko.
fn is_ko(game: &Game, made: Move) -> bool
    ensures { IsTrue result ↔ RefusesVertex game.now made.colour made.vertex fault.Ko }
{
    matches!(game.refusal(made.colour, made.vertex), Some(PlayFault::Ko))
}

/// Returns the game after these commands under a ko rule, if they determine it: not if a `genmove` is among them.
pub fn game_after(talk: &[Said], rule: KoRule) -> Option<Game>
    ensures { result ≡ after_all (fresh_game_under rule) talk.now }
{
    let mut game = Game::fresh(rule);
    for said in talk {
        if !follow(&mut game, &said.command) {
            return None;
        }
    }
    Some(game)
}

/// Plays a command in the game. Returns whether it could.
fn follow(game: &mut Game, command: &CheckCommand) -> bool
    ensures known { result ≡ true → after_asked game.old command.now ≡ Some game.new }
    ensures unknown { result ≡ false → after_asked game.old command.now ≡ None }
{
    match command {
        CheckCommand::Match(command) => follow_match(game, command),
        CheckCommand::PlayInFull(made) => follow_match(game, &Command::Play(*made)),
        CheckCommand::GenmoveInFull(_) => false,
        CheckCommand::FinalScore
        | CheckCommand::Name
        | CheckCommand::Version
        | CheckCommand::KnownCommand(_)
        | CheckCommand::ListCommands
        | CheckCommand::Faulty(_)
        | CheckCommand::Required(_) => true,
    }
}

/// The same for a command of a match.
fn follow_match(game: &mut Game, command: &Command) -> bool
    ensures known { result ≡ true → after_match game.old command.now ≡ Some game.new }
    ensures unknown { result ≡ false → after_match game.old command.now ≡ None }
{
    match command {
        Command::Boardsize(size) => {
            game.set_size(*size);
            true
        }
        Command::Komi(komi) => {
            game.set_komi(*komi);
            true
        }
        Command::ClearBoard => {
            game.clear();
            true
        }
        Command::FixedHandicap(stones) => {
            place(game, *stones);
            true
        }
        Command::Play(made) => {
            play(game, *made);
            true
        }
        Command::Undo => {
            undo(game);
            true
        }
        Command::Genmove(_) | Command::Quit => false,
    }
}

/// Places handicap stones, if they may be placed.
fn place(game: &mut Game, stones: u32)
    ensures { game.new ≡ after_stones game.old stones }
{
    let _ = game.place_handicap(stones);
}

/// Makes a move, if it may be made.
fn play(game: &mut Game, made: Move)
    ensures { game.new ≡ after_play game.old made }
{
    let _ = game.play(made.colour, made.vertex);
}

/// Undoes the last move, if there is one.
fn undo(game: &mut Game)
    ensures { game.new ≡ without_last game.old }
{
    let _ = game.undo();
}
