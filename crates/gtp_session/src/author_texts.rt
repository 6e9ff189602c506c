//! The answers that depend on what an author has set.
ghost use Rattle.std.specs.Prelude.{◌≡◌, Some};
ghost use Rattle.gtp_session.specs.declared.commands.CommandName.TheVariants as command;
ghost use Rattle.gtp_session.specs.Commands.{command_of};
ghost use Rattle.gtp_session.specs.Steps.{StepsState, author_text, author_text_to};
ghost use Rattle.gtp_session.specs.private.AuthorTexts.{text_in};

use crate::commands::CommandName;
use crate::own_commands::OwnCommands;
use gtp_wire::{CommandLine, Line};

/// An answer that depends on what an author has set.
#[derive(Clone, Copy)]
pub(crate) enum AuthorText {
    /// The author's name for the engine.
    Name,
    /// The author's version of it.
    Version,
    /// Whether a word names a command of the table or a custom one.
    Known(bool),
    /// The names of the table's commands and of the custom ones.
    Commands,
}

/// Returns the answer to a line, which names this command, if it is one of these.
pub(crate) fn text_for(
    line: &Line,
    command: Option<CommandName>,
    commands: &OwnCommands,
) -> Option<AuthorText>
    requires { command ≡ command_of line.now }
    ensures { (s : StepsState) → s.commands ≡ commands.now →
        author_text_to s line.now ≡ text_in s result }
{
    match line {
        Line::TooLong => None,
        Line::Command(line) => text_by_command(command, line, commands),
    }
}

/// Returns the answer to a command line that names this command, if it is one of these.
fn text_by_command(
    command: Option<CommandName>,
    line: &CommandLine,
    commands: &OwnCommands,
) -> Option<AuthorText>
    ensures { (s : StepsState) → s.commands ≡ commands.now →
        author_text s command line.now.words ≡ text_in s result }
{
    match command? {
        CommandName::Name => Some(AuthorText::Name),
        CommandName::Version => Some(AuthorText::Version),
        CommandName::KnownCommand => known_word(line, commands),
        CommandName::ListCommands => Some(AuthorText::Commands),
        _ => None,
    }
}

/// Returns whether the first argument, if there is one, names a command.
fn known_word(line: &CommandLine, commands: &OwnCommands) -> Option<AuthorText>
    ensures { (s : StepsState) → s.commands ≡ commands.now →
        author_text s (Some command.KnownCommand) line.now.words ≡ text_in s result }
{
    Some(AuthorText::Known(commands.knows(line.word(1)?)))
}
