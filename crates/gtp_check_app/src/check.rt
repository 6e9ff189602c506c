//! A check: it sends an engine the commands of the course, and writes what is wrong with the replies.
ghost use Rattle.std.specs.Prelude.{◌≡◌, ◌+◌, ◌<◌, ◌≤◌, ◌⊎◌, true, false, None, IfOk, IfErr, IfSome, IsSome};
ghost use Rattle.std.specs.Prelude.{length, OnOk};
ghost use Rattle.arrayvec.specs.ArrayVec.{array_vec_len};
ghost use Rattle.gtp_wire.specs.declared.commands.TheConstants.{MOST_COMMAND_BYTES};
ghost use Rattle.gtp_process.specs.Endings.{IsEnded};
ghost use Rattle.gtp_process.specs.Quitting.{QuitsIfAny};
ghost use Rattle.gtp_check_judge.specs.Exam.{HasRoomFor};
ghost use Rattle.gtp_check_app.specs.Checks.{AreLastLines, IsClosed, IsEnding, missed_from, status_in};
ghost use Rattle.gtp_check_app.specs.Sequence.{HasStopped, StopsIn, TurnsAreOver, known_of, point};
ghost use Rattle.gtp_check_app.specs.Turns.{AsksEngine, IsHeardOut, MayStart, before_all, is_first_due, moment};
ghost use Rattle.gtp_check_app.specs.Turns.{process_of, purpose_in, state_of, without_engine};
ghost use Rattle.gtp_check_app.specs.private.Steps.{Begins, EndsTurn, FirstIsFlushed, FirstStops, Gathers};
ghost use Rattle.gtp_check_app.specs.private.Steps.{IsPaired, IsRefused, Settles, StopsAfter};
ghost use Rattle.gtp_check_talk.specs.Dialogues.{MayFollow, ends_in_pieces};
ghost use Rattle.gtp_check_talk.specs.declared.engine.TheConstants.{LINES_ROOM};

use crate::closing::{close, end_now, quit};
use crate::progress::clear;
use crate::status::{is_earned, status_of};
use crate::streams::Streams;
use crate::tally::Tally;
use crate::unjudged::is_blamed;
use byte_streams::{WriteOnce, write_text};
use cli::failure::Failure;
use gtp_check_course::{Action, Course, Lesson, Lessons, Plan};
use gtp_check_judge::{CheckCommand, Examiner};
use gtp_check_talk::engine::{Engine, Room};
use gtp_check_talk::notes::Notes;
use gtp_check_talk::{Fault, Purpose};
use gtp_check_texts::summary::{Ending, Over, first_line, last_lines};
use gtp_process::{Process, StartFault, Starter, Unstarted};
use std::alloc::{AllocError, Global};

/// How many turns a check has at most. No check within the limits takes so many.
const MOST_TURNS: u64 = 1_000_000_000_000;

/// How many steps of the course one turn takes at most.
const MOST_STEPS: u32 = 64;

/// How often engines are started at most. That is more often than for the course, after each of a thousand findings,
/// and for a thousand trials of each.
const MOST_STARTS: u32 = 2_000_000;

/// The check is over after this many starts in a row without a correct reply.
const MOST_UNANSWERED_STARTS: u32 = 3;

/// A running check. It is not `Drop`: its process has to be ended.
pub struct Check<S: Starter> {
    /// The allocator.
    pub alloc: Global,
    /// The examiner, which knows the correct replies and counts the starts.
    pub examiner: Examiner,
    /// The course, which knows what comes next.
    pub course: Course,
    /// The engine, if one is running.
    pub engine: Option<Engine<S::Process>>,
    /// What is noted of correct replies.
    pub notes: Notes,
    /// What was found.
    pub tally: Tally,
    /// The buffers for what is read.
    pub room: Room,
}

/// What comes next in a turn.
#[derive(Clone, Copy, Debug, PartialEq, Eq)]
enum Next {
    /// Start an engine.
    Start,
    /// Send `quit` to the engine, end it, and start a new one.
    Restart,
    /// End the engine at once, and start a new one.
    Kill,
    /// Send the commands that wait, and read the engine.
    Exchange,
    /// Nothing: each lesson was asked.
    Over,
}

impl<S: Starter> Check<S> {
    /// The check of a plan, before the first start.
    pub fn new(alloc: Global, plan: &Plan<'_>) -> Self
        ensures first { state_of result ≡ before_all plan.now }
        ensures down { result.examiner.exam.up ≡ false }
    {
        Check {
            alloc,
            examiner: Examiner::new(plan.rule, MOST_STARTS),
            course: Course::new(
                copied(&plan.lessons),
                plan.scene_size,
                plan.seed,
                plan.unasked,
            ),
            engine: None,
            notes: Notes::new(),
            tally: Tally::new(plan.restarts),
            room: Room::new(),
        }
    }

    /// Takes turns until the check is over, and returns why it is.
    ///
    /// # Errors
    ///
    /// If memory can't be allocated, the output can't be written, or the check takes too many turns.
    pub fn take_turns<O: WriteOnce, E: WriteOnce>(
        &mut self,
        plan: &Plan<'_>,
        streams: &mut Streams<O, E>,
        starter: &mut S,
    ) -> Result<Over, Failure>
        requires { IsPaired (state_of self.old) }
        ensures over { IfOk result (λ over.
            TurnsAreOver (known_of S.Process.Process O.WriteOnce E.WriteOnce) plan.now
            (point (state_of self.old) (S.asked starter.old) streams.old) over
            (point (state_of self.new) (S.asked starter.new) streams.new)) }
        ensures stopped { IfErr result (λ why.
            HasStopped (known_of S.Process.Process O.WriteOnce E.WriteOnce) plan.now
            (point (state_of self.old) (S.asked starter.old) streams.old)
            (process_of self.new.engine) (S.asked starter.new) streams.new why) }
    {
        for _turn in 0..MOST_TURNS {
            if let Some(over) = self.take_turn(plan, streams, starter)? {
                return Ok(over);
            }
        }
        Err(Failure::TooManyTurns)
    }

    /// Takes the next steps of the course, up to a reply that has to come first.
    fn take_turn<O: WriteOnce, E: WriteOnce>(
        &mut self,
        plan: &Plan<'_>,
        streams: &mut Streams<O, E>,
        starter: &mut S,
    ) -> Result<Option<Over>, Failure>
        requires { IsPaired (state_of self.old) }
        ensures turn { IfOk result (λ over.
            EndsTurn (known_of S.Process.Process O.WriteOnce E.WriteOnce) plan.now
            (point (state_of self.old) (S.asked starter.old) streams.old) over
            (point (state_of self.new) (S.asked starter.new) streams.new)) }
        ensures stops { IfErr result (λ why.
            StopsIn (known_of S.Process.Process O.WriteOnce E.WriteOnce) plan.now
            (point (state_of self.old) (S.asked starter.old) streams.old)
            (process_of self.new.engine) (S.asked starter.new) streams.new why) }
        ensures paired { OnOk result (IsPaired (state_of self.new)) }
    {
        match self.gather(plan.singly)? {
            Next::Start => self.start(plan, starter),
            Next::Restart => {
                self.restart();
                Ok(None)
            }
            Next::Kill => {
                self.kill();
                Ok(None)
            }
            Next::Over => Ok(Some(Over::Done)),
            Next::Exchange => {
                self.show_waiting(plan, &mut streams.errors);
                let fault = self.exchange();
                self.settle(fault, plan, streams, starter)?;
                Ok(None)
            }
        }
    }

    /// Asks the engine what comes next, as much as may be asked before it replies.
    fn gather(&mut self, singly: bool) -> Result<Next, AllocError>
        requires paired { IsPaired (state_of self.old) }
        ensures gathers { IfOk result (λ next.
            Gathers singly (state_of self.old) next (state_of self.new)) }
        ensures paired { IsPaired (state_of self.new) }
        ensures process { process_of self.new.engine ≡ process_of self.old.engine }
    {
        for _step in 0..MOST_STEPS {
            if !self.has_room(singly) {
                return Ok(Next::Exchange);
            }
            let purpose = self.purpose();
            match self.course.next(&self.examiner) {
                Action::Start => return Ok(Next::Start),
                Action::Restart => return Ok(Next::Restart),
                Action::Kill => return Ok(Next::Kill),
                Action::Ask(command) => self.ask(command, purpose)?,
                Action::Wait => return Ok(Next::Exchange),
                Action::Skip => {}
                Action::Done => {
                    return Ok(if self.is_owed() {
                        Next::Exchange
                    } else {
                        Next::Over
                    });
                }
            }
        }
        Ok(Next::Exchange)
    }

    /// Returns whether another command may be asked before the engine is read.
    fn has_room(&self, singly: bool) -> bool
        ensures room { result ≡ true → IfSome self.now.engine (λ engine.
            array_vec_len engine.waiting + MOST_COMMAND_BYTES ≤ LINES_ROOM) }
        ensures follows { result ≡ true → IfSome self.now.engine (λ engine.
            MayFollow engine.talk.items engine.waiting.items) }
        ensures alone { result ≡ true → IsSome self.now.engine → singly ≡ true
            → length self.now.examiner.exam.unanswered ≡ 0 }
        ensures full { result ≡ false → IsSome self.now.engine }
        ensures why { result ≡ false → IfSome self.now.engine (λ engine.
            ((LINES_ROOM < array_vec_len engine.waiting + MOST_COMMAND_BYTES)
            ⊎ ((ends_in_pieces engine.talk.items ≡ true) × (0 < length engine.waiting.items)))
            ⊎ ((singly ≡ true) × (0 < length self.now.examiner.exam.unanswered))) }
    {
        match &self.engine {
            Some(engine) => engine.has_room() && !(singly && self.examiner.unanswered() > 0),
            None => true,
        }
    }

    /// Returns whether a running engine owes a reply.
    fn is_owed(&self) -> bool
        ensures owed { result ≡ true → self.now.examiner.exam.up ≡ true }
        ensures some { result ≡ true → 0 < length self.now.examiner.exam.unanswered }
        ensures not_owed { result ≡ false → (self.now.examiner.exam.up ≡ false)
            ⊎ (length self.now.examiner.exam.unanswered ≡ 0) }
    {
        self.examiner.is_up() && self.examiner.unanswered() > 0
    }

    /// The lesson and part that the next command is asked for.
    pub fn purpose(&self) -> Purpose
        ensures { result ≡ purpose_in self.now.course }
    {
        purpose_in(&self.course)
    }

    /// Asks the engine a command.
    fn ask(&mut self, command: CheckCommand, purpose: Purpose) -> Result<(), AllocError>
        requires may { HasRoomFor self.old.examiner.exam command }
        requires there { IsSome self.old.engine }
        requires room { IfSome self.old.engine (λ engine.
            array_vec_len engine.waiting + MOST_COMMAND_BYTES ≤ LINES_ROOM) }
        requires follows { IfSome self.old.engine (λ engine.
            MayFollow engine.talk.items engine.waiting.items) }
        ensures asks { OnOk result
            (AsksEngine purpose (state_of self.old) command (state_of self.new)) }
        ensures there { IsSome self.new.engine }
        ensures process { process_of self.new.engine ≡ process_of self.old.engine }
    {
        match &mut self.engine {
            Some(engine) => engine.ask(&mut self.examiner, command, purpose, &mut self.notes),
            None => Ok(()),
        }
    }

    /// Sends the commands that wait, and reads the engine.
    fn exchange(&mut self) -> Option<Fault>
        requires { IsSome self.old.engine }
        ensures heard { IsHeardOut S.Process.Process (state_of self.old) result (state_of self.new) }
        ensures there { IsSome self.new.engine }
    {
        match &mut self.engine {
            Some(engine) => { engine.exchange(&mut self.examiner, &mut self.room, &mut self.notes) }
            None => None,
        }
    }

    /// Returns whether the engine may be started again.
    fn may_start(&self) -> bool
        ensures yes { result ≡ true → MayStart self.now.examiner self.now.tally }
        ensures no { result ≡ false → MayStart self.now.examiner self.now.tally → ⊥ }
    {
        self.examiner.may_start() && self.tally.may_start()
    }

    /// Writes what an exchange gave: the first line, if it is due, and what is wrong. A move that isn't judged is
    /// only counted.
    fn settle<O: WriteOnce, E: WriteOnce>(
        &mut self,
        fault: Option<Fault>,
        plan: &Plan<'_>,
        streams: &mut Streams<O, E>,
        starter: &mut S,
    ) -> Result<(), Failure>
        requires { IsSome self.old.engine }
        ensures flushed { OnOk result
            (Settles (known_of S.Process.Process O.WriteOnce E.WriteOnce) plan.now
            (point (state_of self.old) (S.asked starter.old) streams.old) fault
            (point (state_of self.new) (S.asked starter.new) streams.new)) }
        ensures stops { IfErr result (λ why.
            StopsAfter (known_of S.Process.Process O.WriteOnce E.WriteOnce) plan.now
            (point (state_of self.old) (S.asked starter.old) streams.old) fault
            (process_of self.new.engine) (S.asked starter.new) streams.new why) }
        ensures paired { OnOk result (IsPaired (state_of self.new)) }
    {
        let is_wrong = is_blamed(plan.unasked, fault);
        self.write_first(is_wrong, plan, streams)?;
        let Some(fault) = fault else {
            return Ok(());
        };
        if !is_wrong {
            self.pass_over();
            return Ok(());
        }
        self.complain(fault, plan, streams, starter)
    }

    /// Starts an engine, if one may be started.
    #[inline(never)]
    fn start(&mut self, plan: &Plan<'_>, starter: &mut S) -> Result<Option<Over>, Failure>
        ensures begins { IfOk result (λ over. Begins S.Process.Process plan.now
            (moment (state_of self.old) (S.asked starter.old)) over
            (moment (state_of self.new) (S.asked starter.new))) }
        ensures refused { IfErr result (λ why. IsRefused plan.now
            (moment (state_of self.old) (S.asked starter.old)) why
            (moment (state_of self.new) (S.asked starter.new))) }
    {
        if self.notes.unanswered_starts >= MOST_UNANSWERED_STARTS {
            return Ok(Some(Over::NoRightAnswer));
        }
        if !self.may_start() {
            return Ok(Some(Over::NoMoreStarts));
        }
        match starter.start(plan.words.as_slice()) {
            Ok(process) => {
                self.examiner.started();
                self.notes.start();
                self.tally.start();
                let engine = Engine::new(self.alloc, process);
                quit(self.engine.replace(engine), &mut self.room);
                Ok(None)
            }
            Err(StartFault::OutOfMemory) => Err(Failure::OutOfMemory),
            Err(StartFault::NotStarted(reason)) => {
                let unstarted = Unstarted::new(plan.words.as_slice(), reason);
                Ok(Some(Over::NotStarted(unstarted)))
            }
        }
    }

    /// Sends `quit` to the engine, which owes nothing, and ends it.
    #[inline(never)]
    fn restart(&mut self)
        ensures quits { QuitsIfAny S.Process.Process (process_of self.old.engine) }
        ensures leads { state_of self.new ≡ without_engine (state_of self.old) }
    {
        self.examiner.lost();
        quit(self.engine.take(), &mut self.room);
    }

    /// Ends the engine, which owes nothing, without `quit`.
    #[inline(never)]
    fn kill(&mut self)
        ensures ends { IsEnded S.Process.Process (process_of self.old.engine) }
        ensures leads { state_of self.new ≡ without_engine (state_of self.old) }
    {
        self.examiner.lost();
        end_now(self.engine.take());
    }

    /// Returns whether the first line is due: once the version is known, or something is wrong.
    fn is_first_due(&self, is_wrong: bool) -> bool
        ensures { result ≡ is_first_due self.now.tally self.now.notes is_wrong }
    {
        !self.tally.has_first_line && (is_wrong || self.notes.version.is_some())
    }

    /// Writes the first line once the version is known, or something is wrong.
    #[inline(never)]
    fn write_first<O: WriteOnce, E: WriteOnce>(
        &mut self,
        is_wrong: bool,
        plan: &Plan<'_>,
        streams: &mut Streams<O, E>,
    ) -> Result<(), Failure>
        ensures flushed { OnOk result
            (FirstIsFlushed (known_of S.Process.Process O.WriteOnce E.WriteOnce) plan.now
            (state_of self.old) is_wrong streams.old (state_of self.new) streams.new) }
        ensures stops { IfErr result (λ why.
            FirstStops (known_of S.Process.Process O.WriteOnce E.WriteOnce) plan.now
            (state_of self.old) is_wrong streams.old (state_of self.new) streams.new why) }
        ensures engine { self.new.engine ≡ self.old.engine }
    {
        if !self.is_first_due(is_wrong) {
            return Ok(());
        }
        let line = first_line(self.alloc, plan, &self.notes)?;
        self.tally.has_first_line = true;
        clear(plan.shows_progress, &mut streams.errors);
        write_text(&mut streams.output, line.as_slice())?;
        Ok(())
    }

    /// Returns the status of a check that is over.
    pub fn status(&self, plan: &Plan<'_>) -> u8
        ensures { result ≡ status_in plan.now (state_of self.now) }
    {
        let missed = missed_from(plan, self.course.place().lesson);
        let is_earned = is_earned(&plan.lessons, missed, &self.notes.answered);
        status_of(self.tally.complaints, is_earned)
    }

    /// Returns how often engines were started.
    pub fn starts(&self) -> u32
        ensures { result ≡ self.now.examiner.starts }
    {
        self.examiner.starts()
    }

    /// Ends the engine at once.
    pub fn end_at_once(self)
        ensures { IsEnded S.Process.Process (process_of self.engine) }
    {
        let Check {
            alloc: _,
            examiner: _,
            course: _,
            engine,
            notes: _,
            tally: _,
            room: _,
        } = self;
        end_now(engine);
    }

    /// Ends the engine, and returns the last lines. An engine that owes nothing is sent `quit` first, any other is
    /// ended at once.
    pub fn end(self, plan: &Plan<'_>, over: &Over) -> Result<Vec<u8>, AllocError>
        ensures closed { IsClosed S.Process.Process (state_of self) }
        ensures text { IfOk result (λ text.
            AreLastLines plan.now (state_of self) over.now text.items) }
    {
        let lines = last_lines(self.alloc, plan, &self.notes, &self.ending(plan, over));
        let Check {
            alloc: _,
            examiner,
            course: _,
            engine,
            notes: _,
            tally: _,
            mut room,
        } = self;
        close(engine, examiner.unanswered() == 0, &mut room);
        lines
    }

    /// What the last lines report, if the check is over for this reason.
    fn ending<'c>(&'c self, plan: &'c Plan<'_>, over: &'c Over) -> Ending<'c>
        ensures { IsEnding plan.now (state_of self.now) over.now result }
    {
        Ending {
            over,
            missed: missed_from(plan, self.course.place().lesson),
            hidden: self.tally.hidden.as_slice(),
            starts: self.examiner.starts(),
            complaints: self.tally.complaints,
            unjudged: self.tally.unjudged,
        }
    }
}

/// Returns the lessons that should have been asked and weren't, or not to their end, when the course is in this one.
fn missed_from<'c>(plan: &'c Plan<'_>, lesson: usize) -> &'c [Lesson]
    ensures { result.now ≡ missed_from plan.now lesson }
{
    let done = lesson.min(plan.lessons.len());
    &plan.lessons[done..]
}

/// The lesson and part that the course asks next.
pub fn purpose_in(course: &Course) -> Purpose
    ensures { result ≡ purpose_in course.now }
{
    Purpose {
        lesson: course.lesson().unwrap_or(Lesson::Restarts),
        part: course.place().part,
    }
}

/// Copies lessons.
fn copied(lessons: &Lessons) -> Lessons
    ensures { result.items ≡ lessons.now.items }
{
    let mut copy = Lessons::new();
    // All fit.
    let _ = copy.try_extend_from_slice(lessons);
    copy
}
