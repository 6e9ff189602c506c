//! The parts of a conversation that are left out, one after the other.
ghost use Rattle.std.specs.Prelude.{◌≡◌, ◌≤◌, ◌<◌, length, IfOk, OnOk};
ghost use Rattle.std.specs.List.{prefix_len, remove_range};
ghost use Rattle.gtp_check_shortening.specs.Reduction.{before_last, ended_after, half_size, is_setup, part_end};
ghost use Rattle.gtp_check_shortening.specs.Reduction.{part_from, round_of, sets_game_up, setup_len};

use gtp_check_judge::CheckCommand;
use gtp_wire::Command;
use std::alloc::{AllocError, Global};

/// A part of a conversation: `size` commands from a place on, or those up to the last command if there are fewer. The
/// last command is never in it.
#[derive(Clone, Copy, Debug, PartialEq, Eq)]
pub struct Part {
    /// The number of its first command, counted from 0.
    pub place: usize,
    /// How many commands it has.
    pub size: usize,
}

/// Returns how many commands come before the last one.
pub fn before_last(commands: &[CheckCommand]) -> usize
    ensures { result ≡ before_last commands.now }
{
    commands.len().saturating_sub(1)
}

/// Returns where a part of a conversation ends.
pub fn part_end(commands: &[CheckCommand], part: Part) -> usize
    ensures { result ≡ part_end commands.now part }
{
    part.place
        .saturating_add(part.size)
        .min(before_last(commands))
}

/// Returns the first part to leave out: half of the conversation.
pub fn first_part(commands: &[CheckCommand]) -> Part
    ensures { result ≡ round_of (half_size (length commands.now) commands.now) commands.now }
{
    round_of(half_size(commands.len(), commands), commands)
}

/// Returns the next part to leave out, from this one on. After the last part of a round the next round begins.
pub fn part_from(commands: &[CheckCommand], part: Part) -> Part
    ensures { result ≡ part_from commands.now part }
{
    if part.place < before_last(commands) {
        part
    } else if part.size == 1 {
        Part { place: 0, size: 1 }
    } else {
        round_of(half_size(part.size, commands), commands)
    }
}

/// Returns the first part of a round in which parts have this size.
fn round_of(size: usize, commands: &[CheckCommand]) -> Part
    ensures { result ≡ round_of size commands.now }
{
    let place = if size == 1 { 0 } else { setup_len(commands) };
    Part { place, size }
}

/// Returns half the size of a part, or of what comes after the set-up if that is less.
fn half_size(size: usize, commands: &[CheckCommand]) -> usize
    ensures { result ≡ half_size size commands.now }
{
    let most = size.min(before_last(commands).saturating_sub(setup_len(commands)));
    (most - most / 2).max(1)
}

/// Returns how many commands at the beginning of a conversation set a game up, without the last command.
fn setup_len(commands: &[CheckCommand]) -> usize
    ensures { result ≡ setup_len commands.now }
{
    all_setup_len(commands).min(before_last(commands))
}

/// Returns how many commands at the beginning set a game up.
fn all_setup_len(commands: &[CheckCommand]) -> usize
    ensures { result ≡ prefix_len is_setup commands.now }
{
    commands
        .iter()
        .take_while(|command| is_setup(command))
        .count()
}

/// Returns whether a command sets a game up, or asks what the engine knows.
fn is_setup(command: &CheckCommand) -> bool
    ensures { result ≡ is_setup command.now }
{
    match command {
        CheckCommand::Match(command) => sets_game_up(command),
        CheckCommand::KnownCommand(_) => true,
        CheckCommand::FinalScore
        | CheckCommand::Name
        | CheckCommand::Version
        | CheckCommand::ListCommands
        | CheckCommand::PlayInFull(_)
        | CheckCommand::GenmoveInFull(_)
        | CheckCommand::Faulty(_)
        | CheckCommand::Required(_) => false,
    }
}

/// Returns whether a command of a match sets a game up.
fn sets_game_up(command: &Command) -> bool
    ensures { result ≡ sets_game_up command.now }
{
    match command {
        Command::Boardsize(_)
        | Command::Komi(_)
        | Command::ClearBoard
        | Command::FixedHandicap(_) => true,
        Command::Play(_) | Command::Genmove(_) | Command::Undo | Command::Quit => false,
    }
}

/// Returns the commands without those from one place up to another.
///
/// # Errors
///
/// If memory can't be allocated.
pub fn without(
    alloc: Global,
    commands: &[CheckCommand],
    from: usize,
    to: usize,
) -> Result<Vec<CheckCommand>, AllocError>
    requires ordered { from ≤ to }
    requires within { to ≤ length commands.now }
    ensures { IfOk result (λ left. left.items ≡ remove_range commands.now from to) }
{
    let mut left = Vec::new(alloc);
    left.extend_from_slice(&commands[..from])?;
    left.extend_from_slice(&commands[to..])?;
    Ok(left)
}

/// Removes the commands from one place up to another.
#[tactic(auto, using(crate::proofs::Leaving::take_moved))]
pub fn leave_out(commands: &mut Vec<CheckCommand>, from: usize, to: usize)
    requires ordered { from ≤ to }
    requires within { to ≤ length commands.old.items }
    ensures { commands.new.items ≡ remove_range commands.old.items from to }
{
    let count = commands.len();
    commands.copy_within(to..count, from);
    commands.truncate(from + (count - to));
}

/// Removes all commands between the first `answered` and the last one.
pub fn end_after(commands: &mut Vec<CheckCommand>, answered: usize)
    ensures { commands.new.items ≡ ended_after answered commands.old.items }
{
    let last = before_last(commands.as_slice());
    leave_out(commands, answered.min(last), last);
}
