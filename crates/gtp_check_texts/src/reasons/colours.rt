//! Whether the colour that is written in full may make the difference.
ghost use Rattle.std.specs.Prelude.{◌≡◌};
ghost use Rattle.std.specs.List.{list_any};
ghost use Rattle.go_board.specs.Taken.{same_colour};
ghost use Rattle.gtp_check_texts.specs.reasons.Colours.{is_in_full, is_spelled_alike, may_be_spelling, shows_spelling};
ghost use Rattle.gtp_check_texts.specs.reasons.Colours.{spelling_line, with_letter};

use crate::texts::text_if;
use go_base::Colour;
use gtp_check_judge::{CheckCommand, Kind};
use gtp_check_talk::Said;
use gtp_wire::Command;

/// The note on a command whose colour is written in full, which may be the cause.
const SPELLING: &[u8] =
    b"# if it takes the same with b or w, this is the cause: a colour may be written in full, black or white\n";

/// Returns the note that the colour in full may be the cause, if such a command was refused after these were answered
/// correctly, and none of them shows that the engine reads the colour in full.
pub fn spelling_line(before: &[Said], command: &CheckCommand, kind: Kind) -> &'static [u8]
    ensures { result.now ≡ spelling_line before.now command.now kind }
{
    match kind {
        Kind::Refused | Kind::NoMove => text_if(may_be_spelling(before, command), SPELLING),
        _ => b"",
    }
}

/// Returns whether the colour in full may be the cause of a refusal.
fn may_be_spelling(before: &[Said], command: &CheckCommand) -> bool
    ensures { result ≡ may_be_spelling before.now command.now }
{
    is_in_full(command) && !is_read_before(before, command)
}

/// Returns whether a `play` or a `genmove` has its colour written in full.
fn is_in_full(command: &CheckCommand) -> bool
    ensures { result ≡ is_in_full command.now }
{
    matches!(
        command,
        CheckCommand::PlayInFull(_) | CheckCommand::GenmoveInFull(_)
    )
}

/// Returns whether one of these shows that the engine reads the colour of the command as it is written.
fn is_read_before(before: &[Said], command: &CheckCommand) -> bool
    ensures { result ≡ list_any (shows_spelling command.now) before.now }
{
    before.iter().any(|said| shows_spelling(command, said))
}

/// Returns whether this one shows it: its colour is written alike, and a correct engine accepts it.
fn shows_spelling(command: &CheckCommand, said: &Said) -> bool
    ensures { result ≡ shows_spelling command.now said.now }
{
    is_spelled_alike(command, &said.command) && !said.is_illegal
}

/// Returns whether both are a `play`, or both a `genmove`, with the same colour written in full.
fn is_spelled_alike(one: &CheckCommand, other: &CheckCommand) -> bool
    ensures { result ≡ is_spelled_alike one.now other.now }
{
    match (one, other) {
        (CheckCommand::PlayInFull(one), CheckCommand::PlayInFull(other)) => {
            is_same(one.colour, other.colour)
        }
        (CheckCommand::GenmoveInFull(one), CheckCommand::GenmoveInFull(other)) => {
            is_same(*one, *other)
        }
        _ => false,
    }
}

/// Returns whether two colours are the same.
pub(crate) fn is_same(one: Colour, other: Colour) -> bool
    ensures { result ≡ same_colour one other }
{
    one == other
}

/// Returns the command to explain: the same with the colour's letter, if the colour is written in full.
pub fn with_letter(command: CheckCommand) -> CheckCommand
    ensures { result ≡ with_letter command }
{
    match command {
        CheckCommand::PlayInFull(made) => CheckCommand::Match(Command::Play(made)),
        CheckCommand::GenmoveInFull(colour) => CheckCommand::Match(Command::Genmove(colour)),
        other => other,
    }
}
