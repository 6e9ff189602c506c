//! The lines of a conversation that a complaint shows: all, or those of its last game.
ghost use Rattle.std.specs.Prelude.{◌≡◌, ◌<◌, ◌++◌, OnOk};
ghost use Rattle.gtp_check_texts.specs.LastGame.{answered_lines, choice_at, choice_line, chosen_line, is_genmove};
ghost use Rattle.gtp_check_texts.specs.LastGame.{last_game_lines, left_out_line, lines_where, shows_in};

use crate::complaint::Complaint;
use crate::texts::add_all;
use go_base::Move;
use gtp_check_judge::CheckCommand;
use gtp_check_shortening::last_game::{LastGame, last_game, made_by};
use gtp_check_talk::{Said, said_at};
use gtp_wire::Command;
use std::alloc::{AllocError, Global};

/// How much of a conversation a complaint shows.
#[derive(Clone, Copy, Debug, PartialEq, Eq)]
pub enum Shown {
    /// All of it, with what the engine chose.
    Whole,
    /// Its last game alone, with what the engine chose.
    LastGame,
}

/// Appends the lines of the last game before the faulty command, after the number of earlier ones that are left out.
/// First come the lines that set what is in force when it begins.
pub(crate) fn add_last_game(
    alloc: Global,
    text: &mut Vec<u8>,
    complaint: &Complaint<'_>,
) -> Result<(), AllocError>
    ensures { OnOk result (text.new.items ≡ text.old.items ++ last_game_lines complaint.now) }
{
    let game = last_game(complaint.asked());
    add_left_out(alloc, text, game.left_out())?;
    add_lines(text, complaint, Some(&game))?;
    Ok(())
}

/// Appends how many lines are left out, if any are.
fn add_left_out(alloc: Global, text: &mut Vec<u8>, count: usize) -> Result<(), AllocError>
    ensures { OnOk result (text.new.items ≡ text.old.items ++ left_out_line count) }
{
    if count == 0 {
        return Ok(());
    }
    let number = count.to_string(alloc)?;
    add_all(
        text,
        &[
            b"# earlier lines left out: ",
            number.as_bytes(),
            b" (--trials 0 shows them); this block alone may not show the mistake\n",
        ],
    )
}

/// Appends the lines before the faulty command that are shown with this game, or all without one. After each `genmove`
/// comes what the engine chose.
pub(crate) fn add_lines(
    text: &mut Vec<u8>,
    complaint: &Complaint<'_>,
    game: Option<&LastGame>,
) -> Result<(), AllocError>
    ensures { OnOk result (text.new.items
        ≡ text.old.items ++ lines_where (shows_in game.entry) complaint.now) }
{
    for number in 0..complaint.answered {
        if shows_in(game, number) {
            add_answered(text, complaint, number)?;
        }
    }
    Ok(())
}

/// Returns whether the line of this number is shown with a game; without one each is.
fn shows_in(game: Option<&LastGame>, number: usize) -> bool
    ensures { result ≡ shows_in game.entry number }
{
    match game {
        Some(game) => game.shows(number),
        None => true,
    }
}

/// Appends the line of a command that was answered, and what the engine chose.
fn add_answered(
    text: &mut Vec<u8>,
    complaint: &Complaint<'_>,
    number: usize,
) -> Result<(), AllocError>
    requires { number < complaint.now.answered }
    ensures { OnOk result (text.new.items
        ≡ text.old.items ++ answered_lines complaint.now number) }
{
    text.extend_from_slice(complaint.line_of(number))?;
    let said = said_at(complaint.talk, number);
    let next = said_at(complaint.talk, number + 1);
    add_choice_at(text, said, next)
}

/// Appends what the engine chose, if this command was asked and then that one.
fn add_choice_at(
    text: &mut Vec<u8>,
    said: Option<Said>,
    next: Option<Said>,
) -> Result<(), AllocError>
    ensures { OnOk result (text.new.items ≡ text.old.items ++ choice_at said next) }
{
    match (said, next) {
        (Some(said), Some(next)) => add_choice(text, &said, &next),
        _ => Ok(()),
    }
}

/// Appends what the engine chose at a `genmove`, if this command was asked next.
fn add_choice(text: &mut Vec<u8>, said: &Said, next: &Said) -> Result<(), AllocError>
    ensures { OnOk result (text.new.items ≡ text.old.items ++ choice_line said.now next.now) }
{
    if !is_genmove(&said.command) {
        return Ok(());
    }
    add_chosen(text, made_by(said, next))
}

/// Appends the vertex of the move that an engine made, or that it made none.
fn add_chosen(text: &mut Vec<u8>, made: Option<Move>) -> Result<(), AllocError>
    ensures { OnOk result (text.new.items ≡ text.old.items ++ chosen_line made) }
{
    match made {
        Some(made) => add_all(text, &[b"# = ", &made.vertex.write(), b"\n"]),
        None => text.extend_from_slice(b"# = resign\n"),
    }
}

/// Returns whether a command asks the engine for a move.
fn is_genmove(command: &CheckCommand) -> bool
    ensures { result ≡ is_genmove command.now }
{
    matches!(
        command,
        CheckCommand::Match(Command::Genmove(_)) | CheckCommand::GenmoveInFull(_)
    )
}
