//! The commands of a trial, if a reply may have run on into the next one: with extra `name` commands, so that the fault
//! is read.
ghost use Rattle.std.specs.Prelude.{◌≡◌, ◌++◌, length, IfOk, OnOk};
ghost use Rattle.gtp_check_talk.specs.Dialogues.{wrong_of};
ghost use Rattle.gtp_check_app.specs.Trials.{asked_for, left_after, may_wait, most_between, needs_names};
ghost use Rattle.gtp_check_app.specs.Trials.{left_by, own_of, own_spaced, ran_on, spaced, with_names, with_names_before};

use gtp_check_judge::CheckCommand;
use gtp_check_talk::trial::Tried;
use gtp_check_texts::reasons::runs_on;
use gtp_wire::Command;
use std::alloc::{AllocError, Global};

/// How many commands are asked at most between two `name` and the next two: with these they are eight.
const MOST_BETWEEN: usize = 6;

/// Returns what to ask when these commands are tried instead of the conversation that was found: just them, or, if a
/// reply may have run on, also `name` wherever replies may be waited for.
pub(crate) fn asked_for(
    alloc: Global,
    found: &Tried,
    commands: &[CheckCommand],
) -> Result<Vec<CheckCommand>, AllocError>
    ensures { IfOk result (λ asked. asked.items ≡ asked_for (wrong_of found.now) commands.now) }
{
    if ran_on(found) {
        return with_names(alloc, commands);
    }
    let mut asked = Vec::new(alloc);
    asked.extend_from_slice(commands)?;
    Ok(asked)
}

/// Returns what is left of these commands after a trial of them that ended like the conversation that was found: those
/// that were answered correctly, and the last one.
pub(crate) fn left_by(
    alloc: Global,
    found: &Tried,
    commands: &[CheckCommand],
    tried: &Tried,
) -> Result<Vec<CheckCommand>, AllocError>
    ensures { IfOk result (λ left. left.items
        ≡ left_by (wrong_of found.now) commands.now (wrong_of tried.now)) }
{
    let last = commands.len().saturating_sub(1);
    let own = own_of(found, commands, tried.answered).min(last);
    let mut left = Vec::new(alloc);
    left.extend_from_slice(&commands[..own])?;
    left.extend_from_slice(&commands[last..])?;
    Ok(left)
}

/// How many of the first `count` commands that a trial asked are these commands, and not an extra `name`.
pub(crate) fn own_of(found: &Tried, commands: &[CheckCommand], count: usize) -> usize
    ensures { result ≡ own_of (wrong_of found.now) commands.now count }
{
    if ran_on(found) {
        own_spaced(commands, count)
    } else {
        count
    }
}

/// The same for a trial with two `name` between them.
fn own_spaced(commands: &[CheckCommand], count: usize) -> usize
    ensures { result ≡ own_spaced most_between commands.now count }
{
    let mut left = MOST_BETWEEN;
    let mut rest = count;
    for own in 0..commands.len() {
        let command = commands[own];
        let asked = asked_with(&command, left);
        if rest < asked {
            return own;
        }
        rest -= asked;
        left = left_after(&command, left);
    }
    commands.len()
}

/// How many commands are asked with this one: just it, or two `name` before it.
fn asked_with(command: &CheckCommand, left: usize) -> usize
    ensures { result ≡ length (with_names_before command.now left) }
{
    if needs_names(command, left) { 3 } else { 1 }
}

/// Returns whether a reply may have run on into the next one, when a conversation ended so.
fn ran_on(found: &Tried) -> bool
    ensures { result ≡ ran_on (wrong_of found.now) }
{
    let said = &found.said;
    runs_on(
        found.fault,
        found.answered,
        said.talk.len(),
        said.wrote.as_slice(),
    )
}

/// Returns the commands with two `name` wherever replies may be waited for.
fn with_names(alloc: Global, commands: &[CheckCommand]) -> Result<Vec<CheckCommand>, AllocError>
    ensures { IfOk result (λ all. all.items ≡ with_names commands.now) }
{
    let mut all = Vec::new(alloc);
    add_spaced(&mut all, commands)?;
    all.extend_from_slice(&[CheckCommand::Name, CheckCommand::Name])?;
    Ok(all)
}

/// Adds these commands, with two `name` between them wherever replies may be waited for.
fn add_spaced(all: &mut Vec<CheckCommand>, commands: &[CheckCommand]) -> Result<(), AllocError>
    ensures { OnOk result (all.new.items ≡ all.old.items ++ spaced most_between commands.now) }
{
    let mut left = MOST_BETWEEN;
    for command in commands {
        add_with_names(all, command, left)?;
        left = left_after(command, left);
    }
    Ok(())
}

/// Adds a command, after two `name` if it needs them.
fn add_with_names(
    all: &mut Vec<CheckCommand>,
    command: &CheckCommand,
    left: usize,
) -> Result<(), AllocError>
    ensures { OnOk result (all.new.items ≡ all.old.items ++ with_names_before command.now left) }
{
    if needs_names(command, left) {
        all.extend_from_slice(&[CheckCommand::Name, CheckCommand::Name])?;
    }
    all.extend_from_slice(&[*command])
}

/// Returns whether two `name` go before a command.
fn needs_names(command: &CheckCommand, left: usize) -> bool
    ensures { result ≡ needs_names command.now left }
{
    left < MOST_BETWEEN && (may_wait(command) || left == 0)
}

/// How many commands may be asked after this one before the next two `name`.
fn left_after(command: &CheckCommand, left: usize) -> usize
    ensures { result ≡ left_after command.now left }
{
    if needs_names(command, left) {
        MOST_BETWEEN - 1
    } else {
        left.saturating_sub(1)
    }
}

/// Returns whether a command may be one that is asked only when no reply is waited for.
fn may_wait(command: &CheckCommand) -> bool
    ensures { result ≡ may_wait command.now }
{
    matches!(
        command,
        CheckCommand::Match(Command::Boardsize(_) | Command::Genmove(_) | Command::Undo)
            | CheckCommand::FinalScore
            | CheckCommand::GenmoveInFull(_)
    )
}
