//! Shorter conversations, which are tried instead of a long one.
ghost use Rattle.std.specs.Prelude.{◌≡◌, ◌≤◌, ◌+◌, ◌∷◌, ◌++◌, [], length, IfOk, OnOk};
ghost use Rattle.std.specs.List.{list_any};
ghost use Rattle.gtp_check_talk.specs.Said.{commands_of};
ghost use Rattle.gtp_check_shortening.specs.Shortening.{command_role, flat, games_as, games_in, last_such};
ghost use Rattle.gtp_check_shortening.specs.Shortening.{cut_of, games_of, last_games, listed};
ghost use Rattle.gtp_check_shortening.specs.Shortening.{match_role, needed_for, needs, role_of, settings, shortened};
ghost use Rattle.gtp_check_shortening.specs.Shortening.{set_up_if, shortenings, standing_before};
ghost use Rattle.gtp_check_shortening.specs.Shortening.{start_of, stays, taken_by, with_needed, is_clear, is_size, is_komi};

use crate::played::played;
use crate::standing::set_up;
use gtp_check_judge::{CheckCommand, Known};
use gtp_check_talk::Said;
use gtp_wire::Command;
use std::alloc::{AllocError, Global};

/// A conversation to try: commands, in their order.
pub type Commands = Vec<CheckCommand>;

/// A way to shorten a conversation to its last games.
#[derive(Clone, Copy, Debug, PartialEq, Eq)]
pub struct Shortening {
    /// How many games are kept.
    pub games: usize,
    /// Whether these games are kept whole. Else they are flat: without what was refused or undone, and without
    /// questions.
    pub is_whole: bool,
    /// How many of the last commands are kept, if not all. Of the moves before them those are kept whose stones are
    /// still on the board, and each `genmove` becomes the `play` of what the engine chose.
    pub kept: Option<usize>,
}

/// What a command does to a game.
#[derive(Clone, Copy, Debug, PartialEq, Eq)]
pub enum Role {
    /// Sets the size, and ends a game.
    Size,
    /// Sets komi.
    Komi,
    /// Begins a game.
    Clear,
    /// Places handicap stones.
    Stones,
    /// Makes a move.
    Move,
    /// Undoes a move.
    Undo,
    /// Changes nothing.
    Nothing,
}

/// Returns the shortenings to try, in this order.
pub fn shortenings() -> [Shortening; 8]
    ensures { result ≡ shortenings }
{
    [
        standing_before(1, false),
        standing_before(8, true),
        standing_before(64, false),
        standing_before(256, false),
        last_games(1, false),
        last_games(1, true),
        last_games(16, true),
        last_games(256, false),
    ]
}

/// Returns the shortening to the last games, with the moves as they were asked.
pub fn last_games(games: usize, is_whole: bool) -> Shortening
    ensures { result ≡ last_games games is_whole }
{
    Shortening {
        games,
        is_whole,
        kept: None,
    }
}

/// Returns the shortening to the last `kept` commands, flat or whole, on the board as it stood before them: with the
/// moves of the last game whose stones were still on the board then. A shorter last game is kept whole or flat.
pub fn standing_before(kept: usize, is_whole: bool) -> Shortening
    ensures { result ≡ standing_before kept is_whole }
{
    Shortening {
        games: 1,
        is_whole,
        kept: Some(kept),
    }
}

/// Returns the last games of a conversation, flat or whole, with what is in force before them. The last command is the
/// one that was answered wrongly. First come each `known_command` that they need. If only the last commands are kept,
/// the moves whose stones are still on the board set it up for them.
///
/// # Errors
///
/// If memory can't be allocated.
pub fn shortened(
    alloc: Global,
    talk: &[Said],
    shortening: Shortening,
) -> Result<Commands, AllocError>
    ensures { IfOk result (λ commands. commands.items ≡ shortened shortening talk.now) }
{
    if shortening.kept.is_some() {
        let done = played(alloc, talk)?;
        return last_of(alloc, done.as_slice(), shortening);
    }
    last_of(alloc, talk, shortening)
}

/// Returns the last games of a conversation.
fn last_of(alloc: Global, talk: &[Said], shortening: Shortening) -> Result<Commands, AllocError>
    ensures { IfOk result (λ commands. commands.items
        ≡ games_of shortening talk.now) }
{
    let start = start_of(talk, shortening.games);
    let cut = cut_of(shortening.kept, start, talk);
    let mut commands = settings(alloc, &talk[..start])?;
    let front = set_up_if(alloc, start, &talk[..cut])?;
    let games = games_as(alloc, shortening.is_whole, &talk[cut..])?;
    commands.extend_from_slice(front.as_slice())?;
    commands.extend_from_slice(games.as_slice())?;
    with_needed(alloc, commands.as_slice())
}

/// Returns where the part begins that is kept as it is: at the first of the games, which begins at `start`, or before
/// the last commands that are kept.
fn cut_of(kept: Option<usize>, start: usize, talk: &[Said]) -> usize
    requires { start ≤ length talk.now }
    ensures cut { result ≡ cut_of kept start talk.now }
    ensures after { start ≤ result }
    ensures within { result ≤ length talk.now }
{
    match kept {
        None => start,
        Some(kept) => talk.len().saturating_sub(kept).max(start),
    }
}

/// Returns the commands that set up the board as it stands after those from `start` on, if there are any.
fn set_up_if(alloc: Global, start: usize, talk: &[Said]) -> Result<Commands, AllocError>
    requires { start ≤ length talk.now }
    ensures { IfOk result (λ commands. commands.items ≡ set_up_if start talk.now) }
{
    if start < talk.len() {
        return set_up(alloc, start, talk);
    }
    Ok(Vec::new(alloc))
}

/// Returns how many games begin in a conversation.
fn games_in(talk: &[Said]) -> usize
    ensures { result ≡ games_in talk.now }
{
    talk.iter().filter(|said| is_clear(role_of(said))).count()
}

/// Returns how many commands come before the last `games` games.
pub(crate) fn start_of(talk: &[Said], games: usize) -> usize
    ensures start { result ≡ start_of games talk.now }
    ensures within { result ≤ length talk.now }
{
    let mut left = games_in(talk);
    for index in 0..talk.len() {
        if is_clear(role_of(&talk[index])) {
            left = left.saturating_sub(1);
        }
        if left < games {
            return index;
        }
    }
    talk.len()
}

/// Returns the commands that set what is in force after these: the size and komi.
fn settings(alloc: Global, talk: &[Said]) -> Result<Commands, AllocError>
    ensures { IfOk result (λ commands. commands.items ≡ settings talk.now) }
{
    let mut commands = Vec::new(alloc);
    add_if(&mut commands, last_size(talk))?;
    add_if(&mut commands, last_komi(talk))?;
    Ok(commands)
}

/// Returns the last command that sets the size.
fn last_size(talk: &[Said]) -> Option<CheckCommand>
    ensures { result ≡ last_such is_size talk.now }
{
    let mut last = None;
    for said in talk {
        if is_size(role_of(said)) {
            last = Some(said.command);
        }
    }
    last
}

/// Returns the last command that sets komi.
pub fn last_komi(talk: &[Said]) -> Option<CheckCommand>
    ensures { result ≡ last_such is_komi talk.now }
{
    let mut last = None;
    for said in talk {
        if is_komi(role_of(said)) {
            last = Some(said.command);
        }
    }
    last
}

/// Adds a command.
fn add(commands: &mut Commands, command: CheckCommand) -> Result<(), AllocError>
    ensures { OnOk result (commands.new.items ≡ commands.old.items ++ command ∷ []) }
{
    commands.extend_from_slice(&[command])
}

/// Adds a command, if there is one.
pub(crate) fn add_if(
    commands: &mut Commands,
    command: Option<CheckCommand>,
) -> Result<(), AllocError>
    ensures { OnOk result (commands.new.items ≡ commands.old.items ++ listed command) }
{
    match command {
        Some(command) => add(commands, command),
        None => Ok(()),
    }
}

/// Returns the commands of games, whole or flat.
fn games_as(alloc: Global, is_whole: bool, games: &[Said]) -> Result<Commands, AllocError>
    ensures { IfOk result (λ commands. commands.items ≡ games_as is_whole games.now) }
{
    if is_whole {
        return commands_of(alloc, games);
    }
    let before = games.len().saturating_sub(1);
    let mut commands = flat(alloc, &games[..before])?;
    let last = commands_of(alloc, &games[before..])?;
    commands.extend_from_slice(last.as_slice())?;
    Ok(commands)
}

/// Returns the commands of a conversation.
///
/// # Errors
///
/// If memory can't be allocated.
pub fn commands_of(alloc: Global, talk: &[Said]) -> Result<Commands, AllocError>
    ensures { IfOk result (λ commands. commands.items ≡ commands_of talk.now) }
{
    let mut commands = Vec::new(alloc);
    for said in talk {
        add(&mut commands, said.command)?;
    }
    Ok(commands)
}

/// Returns the commands that stay in flat games.
pub(crate) fn flat(alloc: Global, talk: &[Said]) -> Result<Commands, AllocError>
    ensures { IfOk result (λ commands. commands.items ≡ flat talk.now) }
{
    let mut commands = Vec::new(alloc);
    let mut taken_back: usize = 0;
    for done in 0..talk.len() {
        let said = talk[talk.len() - 1 - done];
        let role = role_of(&said);
        add_if(
            &mut commands,
            stays(role, taken_back).then_some(said.command),
        )?;
        taken_back = taken_by(role, taken_back);
    }
    commands.reverse();
    Ok(commands)
}

/// Returns whether a command of this role stays, when those after it undo this many moves.
pub(crate) fn stays(role: Role, after: usize) -> bool
    ensures { result ≡ stays role after }
{
    match role {
        Role::Move => after == 0,
        Role::Undo | Role::Nothing => false,
        Role::Size | Role::Komi | Role::Clear | Role::Stones => true,
    }
}

/// Returns how many moves that were made before it are undone.
pub(crate) fn taken_by(role: Role, after: usize) -> usize
    requires { after ≤ 9223372036854775807 }
    ensures taken { result ≡ taken_by role after }
    ensures few { result ≤ after + 1 }
{
    match role {
        Role::Move => after.saturating_sub(1),
        Role::Undo => after + 1,
        Role::Clear | Role::Size => 0,
        Role::Komi | Role::Stones | Role::Nothing => after,
    }
}

/// Returns these commands after each `known_command` that they need.
fn with_needed(alloc: Global, commands: &[CheckCommand]) -> Result<Commands, AllocError>
    ensures { IfOk result (λ all. all.items ≡ with_needed commands.now) }
{
    let mut all = Vec::new(alloc);
    add_needed(&mut all, commands, Known::FixedHandicap)?;
    add_needed(&mut all, commands, Known::Undo)?;
    add_needed(&mut all, commands, Known::FinalScore)?;
    all.extend_from_slice(commands)?;
    Ok(all)
}

/// Adds one of these `known_command`, if it is needed.
fn add_needed(all: &mut Commands, commands: &[CheckCommand], known: Known) -> Result<(), AllocError>
    ensures { OnOk result (all.new.items ≡ all.old.items ++ needed_for commands.now known) }
{
    let command = CheckCommand::KnownCommand(known);
    add_if(all, is_needed(commands, known).then_some(command))
}

/// Returns whether one of these commands needs it.
fn is_needed(commands: &[CheckCommand], known: Known) -> bool
    ensures { result ≡ list_any (λ command. needs command known) commands.now }
{
    commands.iter().any(|command| needs(command, known))
}

/// Returns whether a command may be asked only of an engine that was asked whether it knows this one.
fn needs(command: &CheckCommand, known: Known) -> bool
    ensures { result ≡ needs command.now known }
{
    match (command, known) {
        (CheckCommand::Match(Command::FixedHandicap(_)), Known::FixedHandicap) => true,
        (CheckCommand::Match(Command::Undo), Known::Undo) => true,
        (CheckCommand::FinalScore, Known::FinalScore) => true,
        _ => false,
    }
}

/// Returns what a command does to a game.
pub(crate) fn role_of(said: &Said) -> Role
    ensures { result ≡ role_of said.now }
{
    match said.command {
        CheckCommand::Match(command) => match_role(&command, said.is_illegal),
        CheckCommand::PlayInFull(made) => match_role(&Command::Play(made), said.is_illegal),
        CheckCommand::GenmoveInFull(_) => Role::Move,
        CheckCommand::FinalScore
        | CheckCommand::Name
        | CheckCommand::Version
        | CheckCommand::KnownCommand(_)
        | CheckCommand::ListCommands
        | CheckCommand::Faulty(_)
        | CheckCommand::Required(_) => Role::Nothing,
    }
}

/// The same for a command of a match; `is_refused` says whether it is a `play` that a correct engine refuses.
fn match_role(command: &Command, is_refused: bool) -> Role
    ensures { result ≡ match_role command.now is_refused }
{
    match command {
        Command::Boardsize(_) => Role::Size,
        Command::Komi(_) => Role::Komi,
        Command::ClearBoard => Role::Clear,
        Command::FixedHandicap(_) => Role::Stones,
        Command::Play(_) if is_refused => Role::Nothing,
        Command::Play(_) | Command::Genmove(_) => Role::Move,
        Command::Undo => Role::Undo,
        Command::Quit => Role::Nothing,
    }
}

/// Returns whether it begins a game.
fn is_clear(role: Role) -> bool
    ensures { result ≡ is_clear role }
{
    matches!(role, Role::Clear)
}

/// Returns whether it sets the size.
fn is_size(role: Role) -> bool
    ensures { result ≡ is_size role }
{
    matches!(role, Role::Size)
}

/// Returns whether it sets komi.
fn is_komi(role: Role) -> bool
    ensures { result ≡ is_komi role }
{
    matches!(role, Role::Komi)
}
