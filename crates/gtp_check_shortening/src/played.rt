//! What was done in a conversation.
ghost use Rattle.std.specs.Prelude.{◌≡◌, ◌++◌, IfOk, OnOk, option_map};
ghost use Rattle.gtp_wire.specs.declared.commands.Command.TheVariants as command;
ghost use Rattle.gtp_check_judge.specs.declared.asking.CheckCommand.TheVariants.{PlayInFull};
ghost use Rattle.gtp_check_shortening.specs.Played.{asked_as, done_before, done_by, played, said_as};

use go_base::Move;
use gtp_check_judge::CheckCommand;
use gtp_check_talk::Said;
use gtp_wire::Command;
use std::alloc::{AllocError, Global};

/// Returns what the commands of a conversation did: each `genmove` becomes the `play` of what the engine chose, and
/// commands that did nothing are left out, since the engine resigned, or refused an `undo` or a size. The last command
/// stays as it is.
///
/// # Errors
///
/// If memory can't be allocated.
pub fn played(alloc: Global, talk: &[Said]) -> Result<Vec<Said>, AllocError>
    ensures { IfOk result (λ all. all.items ≡ played talk.now) }
{
    let mut all = Vec::new(alloc);
    for index in 0..talk.len() {
        add_done(&mut all, &talk[index], talk.get(index + 1))?;
    }
    Ok(all)
}

/// Adds what a command did, if `next` was asked after it.
fn add_done(all: &mut Vec<Said>, said: &Said, next: Option<&Said>) -> Result<(), AllocError>
    ensures { OnOk result (all.new.items
        ≡ all.old.items ++ done_before said.now (option_map (λ one. one.now) next.entry)) }
{
    match next {
        None => all.extend_from_slice(&[*said]),
        Some(next) => add_as(all, said, asked_as(said, next)),
    }
}

/// Adds a command instead of the one that was asked, if there is one.
fn add_as(all: &mut Vec<Said>, said: &Said, command: Option<CheckCommand>) -> Result<(), AllocError>
    ensures { OnOk result (all.new.items ≡ all.old.items ++ said_as said.now command) }
{
    match command {
        Some(command) => all.extend_from_slice(&[Said { command, ..*said }]),
        None => Ok(()),
    }
}

/// Returns what a command did, if `next` was asked after it.
pub(crate) fn asked_as(said: &Said, next: &Said) -> Option<CheckCommand>
    ensures { result ≡ asked_as said.now.command said.now next.now }
{
    match &said.command {
        CheckCommand::Match(command) => match done_by(command, said, next) {
            Some(done) => Some(CheckCommand::Match(done)),
            None => None,
        },
        CheckCommand::GenmoveInFull(_) if said.moves < next.moves => chosen_in_full(next.last),
        CheckCommand::GenmoveInFull(_) => None,
        other => Some(*other),
    }
}

/// The same for a command of a match.
fn done_by(command: &Command, said: &Said, next: &Said) -> Option<Command>
    ensures { result ≡ done_by command.now said.now next.now }
{
    match command {
        Command::Genmove(_) if said.moves < next.moves => chosen(next.last),
        Command::Genmove(_) => None,
        Command::Undo => (next.moves < said.moves).then_some(Command::Undo),
        Command::Boardsize(size) => {
            (next.size == *size && next.moves == 0).then_some(Command::Boardsize(*size))
        }
        other => Some(*other),
    }
}

/// Returns the `play` of a move with the colour written in full, if there is a move.
fn chosen_in_full(made: Option<Move>) -> Option<CheckCommand>
    ensures { result ≡ option_map (λ move. PlayInFull move) made }
{
    match made {
        Some(made) => Some(CheckCommand::PlayInFull(made)),
        None => None,
    }
}

/// Returns the `play` of a move, if there is one.
fn chosen(made: Option<Move>) -> Option<Command>
    ensures { result ≡ option_map (λ move. command.Play move) made }
{
    match made {
        Some(made) => Some(Command::Play(made)),
        None => None,
    }
}
