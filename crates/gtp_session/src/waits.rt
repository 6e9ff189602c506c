//! What a line needs from an author.
ghost use Rattle.std.specs.Prelude.{◌≡◌, false, is_none};
ghost use Rattle.gtp_session.specs.declared.commands.CommandName.TheVariants as command;
ghost use Rattle.gtp_session.specs.Commands.{asked_by_command, asked_by_words, command_of, id_of, named_command};
ghost use Rattle.gtp_session.specs.Spoken.{HasIntId};
ghost use Rattle.gtp_session.specs.Steps.{wait_of, wait_by};

use crate::answers::{colour_argument, is_full};
use crate::commands::CommandName;
use crate::events::Wait;
use go_board::Game;
use gtp_wire::{CommandLine, Line};

/// Returns what the line, which names this command, needs from the author.
pub(crate) fn wait_of(game: &Game, line: &Line, command: Option<CommandName>) -> Wait
    requires { command ≡ command_of line.now }
    ensures { result ≡ wait_of game.now line.now }
{
    match line {
        Line::TooLong => Wait::Nothing,
        Line::Command(line) => wait_of_command(game, line, command),
    }
}

/// Returns what a command line needs from the author.
fn wait_of_command(game: &Game, line: &CommandLine, command: Option<CommandName>) -> Wait
    requires { command ≡ named_command line.now.words }
    ensures { result ≡ wait_by (asked_by_words game.now line.now.words)
        (is_none (named_command line.now.words)) }
{
    let Some(command) = command else {
        return Wait::Answer;
    };
    if command == CommandName::Genmove {
        return wait_of_genmove(game, line);
    }
    Wait::Nothing
}

/// Returns what a `genmove` needs from the author.
fn wait_of_genmove(game: &Game, line: &CommandLine) -> Wait
    ensures { result
        ≡ wait_by (asked_by_command game.now command.Genmove line.now.words) false }
{
    let Some(colour) = colour_argument(line) else {
        return Wait::Nothing;
    };
    if is_full(game) {
        return Wait::Nothing;
    }
    Wait::Choice(colour)
}

/// Returns the id that the reply to the line repeats.
pub(crate) fn id_of(line: &Line) -> Option<u32>
    ensures value { result ≡ id_of line.now }
    ensures int { HasIntId line.now }
{
    match line {
        Line::TooLong => None,
        Line::Command(line) => line.id(),
    }
}
