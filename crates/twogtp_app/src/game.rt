//! A game between two processes.
ghost use Rattle.std.specs.Prelude.{◌≡◌, None, IfOk, OnErr};
ghost use Rattle.gtp_match.specs.declared.verdicts.Action.TheVariants as action;
ghost use Rattle.gtp_match.specs.Next.{next};
ghost use Rattle.twogtp_app.specs.Games.{GameEnds, known_of, run_of, run_state};
ghost use Rattle.twogtp_app.specs.Processes.{AreEnded, OtherStays};
ghost use Rattle.twogtp_app.specs.Turns.{Begins, IsRefused, TurnsEnd, engines_of, reporting, stage, state};
ghost use Rattle.twogtp_app.specs.Why.{ReportCanBeShown};
ghost use Rattle.twogtp_app.specs.private.Steps.{IsStep};

use crate::plan::Plan;
use crate::processes::Processes;
use crate::speaking::{hear, send};
use crate::task::Commands;
use crate::why::{SideTurn, TurnLoss, TurnReport};
use crate::why_writing::write_turn;
use byte_streams::WriteOnce;
use cli::failure::Failure;
use go_base::Side;
use gtp_match::{Action, Match, Verdict};
use gtp_process::{READ_ROOM, StartFault, Starter, Unstarted, end};
use std::alloc::AllocError;

/// The turn limit of a game. A turn is one start, one send or one read, not a move. No match within the limits of the
/// options reaches it.
const MOST_TURNS: u64 = 1_000_000_000_000;

/// A game in play. It is not `Drop`, so its processes have to be ended.
pub struct GameInPlay<S: Starter> {
    /// The match.
    pub game: Match,
    /// The processes of its sides.
    pub processes: Processes<S::Process>,
    /// The buffer for one read from a process.
    pub buffer: [u8; READ_ROOM],
}

/// What one round of a game's loop did.
#[derive(Drop)]
enum Step {
    /// A turn was taken.
    Taken(SideTurn),
    /// The match is over.
    Over(Verdict),
}

/// Plays one game of a plan, writes its text, and returns its verdict. It sends `quit` only after the text is written
/// and flushed. Each process that it started is ended, also after a failure.
///
/// # Errors
///
/// `OutOfMemory` if memory ran out at the start of a process, `TooManyTurns`, or `Write` if the text or a line of
/// `--why` couldn't be written.
pub fn play_game<O: WriteOnce, E: WriteOnce, S: Starter>(
    plan: &Plan<'_>,
    number: u32,
    output: &mut O,
    errors: &mut E,
    starter: &mut S,
) -> Result<Verdict, Failure>
    ensures { let run = run_of plan.now (known_of S.Process.Process O.WriteOnce E.WriteOnce) in
        GameEnds run number (run_state output.old errors.old (S.asked starter.old))
        (run_state output.new errors.new (S.asked starter.new)) result }
{
    let mut played = GameInPlay {
        game: Match::new(plan.task.setup),
        processes: Processes::none(),
        buffer: [0u8; READ_ROOM],
    };
    match played.take_turns(plan, number, errors, starter) {
        Ok(verdict) => {
            let written = played.write(&plan.task, number, verdict, output)?;
            Ok(written.close())
        }
        Err(failure) => {
            played.end();
            Err(failure)
        }
    }
}

impl<S: Starter> GameInPlay<S> {
    /// Takes turns until the match is over, and returns its verdict. With `--why` the lines about a turn are written
    /// right after it, under the game's number.
    fn take_turns<E: WriteOnce>(
        &mut self,
        plan: &Plan<'_>,
        number: u32,
        errors: &mut E,
        starter: &mut S,
    ) -> Result<Verdict, Failure>
        ensures { let first = state self.old.game self.old.processes (S.asked starter.old) in
            let last = state self.new.game self.new.processes (S.asked starter.new) in
            TurnsEnd (engines_of plan.now.commands S.Process.Process)
            (reporting E.WriteOnce plan.now.task.details.why number)
            (stage first errors.old) (stage last errors.new) result }
    {
        for _turn in 0..MOST_TURNS {
            match self.take_turn(&plan.commands, starter)? {
                Step::Taken(turn) => write_turn(plan.task.details.why, number, &turn, errors)?,
                Step::Over(verdict) => return Ok(verdict),
            }
        }
        Err(Failure::TooManyTurns)
    }

    /// Takes the next turn, and ends the process of the side whose turn it was if that side is down then.
    fn take_turn(&mut self, commands: &Commands<'_>, starter: &mut S) -> Result<Step, AllocError>
        ensures step { let before = state self.old.game self.old.processes (S.asked starter.old) in
            let after = state self.new.game self.new.processes (S.asked starter.new) in
            IfOk result (IsStep (engines_of commands.now S.Process.Process) before after) }
        ensures refused { OnErr result (IsRefused commands.now
            (state self.old.game self.old.processes (S.asked starter.old))
            (state self.new.game self.new.processes (S.asked starter.new))) }
    {
        let (side, report) = match self.game.next() {
            Action::Start(side) => (side, self.start(side, commands, starter)?),
            Action::Send(side) => {
                let process = self.processes.process_mut(side);
                (side, send(&mut self.game, side, process))
            }
            Action::Wait(side) => {
                let process = self.processes.process_mut(side);
                (side, hear(&mut self.game, side, process, &mut self.buffer))
            }
            Action::Done(verdict) => return Ok(Step::Over(verdict)),
        };
        let ending = self.processes.end_if_down(&self.game, side);
        Ok(Step::Taken(SideTurn {
            side,
            report,
            ending,
        }))
    }

    /// Starts a side's process. One that can't be started counts as a start that failed.
    fn start(
        &mut self,
        side: Side,
        commands: &Commands<'_>,
        starter: &mut S,
    ) -> Result<TurnReport, AllocError>
        requires { next self.old.game ≡ action.Start side }
        ensures begins { let before = state self.old.game self.old.processes (S.asked starter.old) in
            let after = state self.new.game self.new.processes (S.asked starter.new) in
            IfOk result (λ report.
            Begins (engines_of commands.now S.Process.Process) side before after report.loss
            × (report.retake ≡ None)) }
        ensures shown { IfOk result ReportCanBeShown }
        ensures rests { OtherStays side self.old.processes self.new.processes }
        ensures refused { OnErr result (IsRefused commands.now
            (state self.old.game self.old.processes (S.asked starter.old))
            (state self.new.game self.new.processes (S.asked starter.new))) }
    {
        match starter.start(commands.of(side)) {
            Ok(process) => {
                self.game.started(side);
                end(self.processes.replace(side, process));
                Ok(TurnReport::only_loss(None))
            }
            Err(StartFault::NotStarted(reason)) => {
                self.game.started(side);
                self.game.lost(side);
                let unstarted = Unstarted::new(commands.of(side), reason);
                Ok(TurnReport::only_loss(Some(TurnLoss::NotStarted(unstarted))))
            }
            Err(StartFault::OutOfMemory) => Err(AllocError),
        }
    }

    /// Ends the processes at once.
    pub fn end(self)
        ensures { AreEnded S.Process.Process self.processes }
    {
        let GameInPlay {
            game: _,
            processes,
            buffer: _,
        } = self;
        processes.end();
    }
}
