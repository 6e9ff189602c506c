//! The trial of a shorter conversation with a new engine.
ghost use Rattle.std.specs.Prelude.{◌≡◌, ◌<◌, ◌≤◌, ◌↔◌, ◌⊎◌, true, false, [], length, take, slice_get};
ghost use Rattle.std.specs.Prelude.{IsTrue, IfOk, IfNone, IfSome, OnOk, OnErr, option_map};
ghost use Rattle.gtp_process.specs.Starts.{program_line};
ghost use Rattle.gtp_check_judge.specs.Check.{with_exam};
ghost use Rattle.gtp_check_judge.specs.Exam.{HasRoomFor};
ghost use Rattle.gtp_check_course.specs.Course.{IsLeftOut};
ghost use Rattle.gtp_check_talk.specs.Dialogues.{AsksAll, AsksFirst, AsksForMore, EndsLike, EndsSparing, IsTrial, dialogue};
ghost use Rattle.gtp_check_talk.specs.Dialogues.{IsFull, IsHeldBack, standing, trial_of, wrong_command, wrong_of};
ghost use Rattle.gtp_check_talk.specs.Dialogues.{wrong_purpose, wrong_talk};
ghost use Rattle.gtp_check_talk.specs.private.Asking.{AreAsked};

use crate::engine::{Ended, Engine, Room};
use crate::fault::Fault;
use crate::notes::Notes;
use crate::said::{Purpose, Said};
use gtp_check_course::{Lesson, Unasked};
use gtp_check_judge::{CheckCommand, Examiner};
use gtp_process::{Process, StartFault, Starter};
use std::alloc::{AllocError, Global};

/// A conversation that ended with something wrong.
#[derive(Drop)]
pub struct Tried {
    /// What is wrong.
    pub fault: Fault,
    /// How many commands were answered.
    pub answered: usize,
    /// The conversation.
    pub said: Ended,
}

impl Tried {
    /// Returns what was asked, up to the command that was answered wrongly.
    pub fn conversation(&self) -> &[Said]
        ensures { result.now ≡ wrong_talk (wrong_of self.now) }
    {
        let count = self.answered.saturating_add(1).min(self.said.talk.len());
        &self.said.talk[..count]
    }

    /// Returns the command that was answered wrongly.
    fn command(&self) -> Option<CheckCommand>
        ensures { result ≡ wrong_command (wrong_of self.now) }
    {
        match self.said.talk.get(self.answered) {
            Some(said) => Some(said.command),
            None => None,
        }
    }

    /// Returns the lesson and part that it was asked for.
    pub fn purpose(&self) -> Purpose
        ensures { result ≡ wrong_purpose (wrong_of self.now) }
    {
        match self.said.talk.get(self.answered) {
            Some(said) => said.purpose,
            None => Purpose {
                lesson: Lesson::Start,
                part: 0,
            },
        }
    }

    /// Returns whether another conversation ended with the same command and the same fault.
    pub fn ends_like(&self, other: &Tried) -> bool
        ensures { IsTrue result ↔ EndsLike (wrong_of self.now) (wrong_of other.now) }
    {
        self.fault == other.fault && self.command() == other.command()
    }
}

/// A conversation to try.
#[derive(Clone, Copy)]
pub struct Trial<'t> {
    /// The allocator.
    pub alloc: Global,
    /// The engine's program and its arguments.
    pub words: &'t [&'t str],
    /// The commands, in their order.
    pub commands: &'t [CheckCommand],
    /// The lesson and part that each of them is asked for.
    pub purpose: Purpose,
    /// What isn't asked.
    pub unasked: Unasked,
}

/// Starts a new engine, asks it the commands of a trial, and ends it. Returns what is wrong with it, if anything, and
/// nothing if it can't be started. If a command may not be asked, or is left out, the trial is over.
///
/// # Errors
///
/// If memory can't be allocated.
pub fn try_commands<S: Starter>(
    trial: &Trial<'_>,
    starter: &mut S,
    examiner: &mut Examiner,
    room: &mut Room,
    notes: &mut Notes,
) -> Result<Option<Tried>, AllocError>
    requires { examiner.old.starts < examiner.old.most_starts }
    ensures tried { IfOk result (λ tried. IsTrial S.Process.Process (trial_of trial.now)
        (standing examiner.old (S.asked starter.old) notes.old) (option_map wrong_of tried)
        (standing examiner.new (S.asked starter.new) notes.new)) }
    ensures refused { OnErr result (AsksForMore (program_line trial.now.words.now)
        (S.asked starter.old) (S.asked starter.new)) }
{
    let process = match starter.start(trial.words) {
        Ok(process) => process,
        Err(StartFault::OutOfMemory) => return Err(AllocError),
        Err(StartFault::NotStarted(_)) => return Ok(None),
    };
    examiner.started();
    let mut engine = Engine::new(trial.alloc, process);
    let found = ask_all(trial, &mut engine, examiner, room, notes);
    let answered = engine.answered(examiner);
    examiner.lost();
    let said = engine.end();
    match found? {
        Some(fault) => Ok(Some(Tried {
            fault,
            answered,
            said,
        })),
        None => Ok(None),
    }
}

/// Asks the engine, which is up, the commands of a trial, one after the other: until something is wrong, or until it
/// has answered all up to one that may not be asked or is left out.
///
/// Each turn of the loop makes progress: a command is answered, or more of a reply is read, which has 8,192 bytes at
/// most, or what waits is sent.
fn ask_all<P: Process>(
    trial: &Trial<'_>,
    engine: &mut Engine<P>,
    examiner: &mut Examiner,
    room: &mut Room,
    notes: &mut Notes,
) -> Result<Option<Fault>, AllocError>
    requires up { examiner.old.exam.up ≡ true }
    ensures ends { IfOk result (λ fault. EndsSparing P.Process trial.now.unasked
        (dialogue engine.old examiner.old.exam notes.old) fault
        (dialogue engine.new examiner.new.exam notes.new)) }
    ensures check { examiner.new ≡ with_exam examiner.old examiner.new.exam }
    ensures first { engine.old.talk.items ≡ [] → OnOk result
        (AsksFirst trial.now.purpose trial.now.commands.now engine.new.talk.items) }
    ensures all { engine.old.talk.items ≡ [] → IfOk result (λ fault. IfNone fault
        (AsksAll (trial_of trial.now) (dialogue engine.new examiner.new.exam notes.new))) }
{
    let mut rest = trial.commands;
    loop {
        let asked = ask_some(trial, rest, engine, examiner, notes)?;
        rest = rest.split_at(asked).1;
        if engine.owes_nothing(examiner) {
            return Ok(None);
        }
        if let Some(fault) = engine.exchange(examiner, room, notes) {
            return Ok(Some(fault));
        }
    }
}

/// Asks the engine the first of these commands of a trial, as many as may be asked at once. Returns how many.
fn ask_some<P: Process>(
    trial: &Trial<'_>,
    commands: &[CheckCommand],
    engine: &mut Engine<P>,
    examiner: &mut Examiner,
    notes: &mut Notes,
) -> Result<usize, AllocError>
    ensures asks { IfOk result (λ count. AreAsked (trial_of trial.now)
        (dialogue engine.old examiner.old.exam notes.old) (take count commands.now)
        (dialogue engine.new examiner.new.exam notes.new)) }
    ensures few { IfOk result (λ count. count ≤ length commands.now) }
    ensures most { IfOk result (λ count. IfSome (slice_get commands.now count) (λ next.
        IsFull engine.new.talk.items engine.new.waiting.items
        ⊎ IsHeldBack trial.now.unasked examiner.new.exam next)) }
    ensures check { examiner.new ≡ with_exam examiner.old examiner.new.exam }
{
    let purpose = trial.purpose;
    for index in 0..commands.len() {
        let command = commands[index];
        if !engine.has_room() || is_held_back(examiner, &command, trial.unasked) {
            return Ok(index);
        }
        engine.ask(examiner, command, purpose, notes)?;
    }
    Ok(commands.len())
}

/// Returns whether a command may not be asked of the engine now, or is left out.
fn is_held_back(examiner: &Examiner, command: &CheckCommand, unasked: Unasked) -> bool
    ensures is { result ≡ true → IsHeldBack unasked examiner.now.exam command.now }
    ensures may { result ≡ false → HasRoomFor examiner.now.exam command.now }
    ensures wanted { result ≡ false → ¬ IsLeftOut unasked examiner.now.exam.game command.now }
{
    !examiner.has_room(command) || unasked.leaves_out(examiner.game(), *command)
}
