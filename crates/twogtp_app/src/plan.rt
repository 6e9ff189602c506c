//! The engines' commands and the task of a run, from its options.
ghost use Rattle.std.specs.Prelude.{IfOk, IfErr};
ghost use Rattle.twogtp_app.specs.Tasks.{AreCommandsOf, HasNoPlan, HaveWords, IsCommand, IsMistake, IsPlanOf, IsTaskOf};

use crate::failure::Mistake;
use crate::options::Options;
use crate::task::{Commands, Task};
use cli::failure::PlanError;
use go_base::{Komi, Size};
use gtp_match::Setup;
use std::alloc::{AllocError, Global};

/// What a run has to do, and with which engines.
#[derive(Drop)]
pub struct Plan<'a> {
    /// The commands that start the engines.
    pub commands: Commands<'a>,
    /// The games.
    pub task: Task,
}

/// The plan of the options.
///
/// # Errors
///
/// `OutOfMemory`, or the first usage error in this order: Black's command is empty, White's is, the text of the komi is
/// no komi, the size doesn't allow the handicap. A command of spaces alone is empty too.
pub fn plan_of<'a>(alloc: Global, options: &Options<'a>) -> Result<Plan<'a>, PlanError<Mistake>>
    ensures plan { IfOk result (IsPlanOf options.now) }
    ensures no_plan { IfErr result (HasNoPlan options.now) }
{
    let commands = commands_of(alloc, options)?;
    let task = task_of(options)?;
    Ok(Plan { commands, task })
}

/// The engines' commands. Black's is checked first.
fn commands_of<'a>(alloc: Global, options: &Options<'a>) -> Result<Commands<'a>, PlanError<Mistake>>
    ensures commands { IfOk result (AreCommandsOf options.now) }
    ensures no_plan { IfErr result (HasNoPlan options.now) }
{
    let black = words_of(alloc, options.black)?;
    if black.is_empty() {
        return Err(PlanError::BadWords(Mistake::NoBlackCommand));
    }
    let white = words_of(alloc, options.white)?;
    if white.is_empty() {
        return Err(PlanError::BadWords(Mistake::NoWhiteCommand));
    }
    Ok(Commands { black, white })
}

/// The task of options whose commands aren't empty. Komi is checked first. Other numbers can't be out of their limits
/// here, since the command line rejects them.
fn task_of(options: &Options<'_>) -> Result<Task, Mistake>
    ensures task { IfOk result (IsTaskOf options.now) }
    ensures mistake { IfErr result (λ mistake.
        HaveWords options.now → IsMistake options.now mistake) }
{
    let Some(komi) = Komi::read(options.komi.as_bytes()) else {
        return Err(Mistake::BadKomi);
    };
    let Some(size) = Size::new(options.size) else {
        return Err(Mistake::BadHandicap);
    };
    match Setup::new(
        size,
        komi,
        options.handicap,
        options.max_moves,
        options.restarts,
    ) {
        Ok(setup) => Ok(Task {
            setup,
            games: options.games,
            details: options.details,
        }),
        Err(_) => Err(Mistake::BadHandicap),
    }
}

/// The words of a command, split at runs of spaces.
fn words_of<'a>(alloc: Global, command: &'a str) -> Result<Vec<&'a str>, AllocError>
    ensures { IfOk result (λ found. IsCommand command.entry.now found.items) }
{
    command
        .split(' ')
        .filter(|word| !word.is_empty())
        .collect(alloc)
}
