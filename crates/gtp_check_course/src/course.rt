//! The course.
ghost use Rattle.std.specs.Prelude.{◌≡◌, ◌<◌, ◌≤◌, ◌↔◌, true, false, slice_get, IsSome, IfSome};
ghost use Rattle.go_board.specs.Game.{GameRecord, IsLegal};
ghost use Rattle.gtp_check_course.specs.Asking.{HasTaken};
ghost use Rattle.gtp_check_course.specs.declared.actions.Action.TheVariants.{Done, Skip, Start};
ghost use Rattle.gtp_check_judge.specs.declared.asking.CheckCommand.TheVariants.{Name};

use crate::actions::{Action, Question};
use crate::boards::{Board, board_of};
use crate::draws::Draws;
use crate::lessons::{Lesson, Lessons};
use crate::openings::Opening;
use crate::places::Place;
use crate::stretches::Stretch;
use crate::unasked::Unasked;
use go_base::{Move, Size};
use go_board::Game;
use gtp_check_judge::{Board as Known, CheckCommand, Examiner, Skill};
use gtp_wire::Command;
use std::marker::Model;

/// After this many findings in one lesson the next one begins.
const MOST_FINDINGS: u32 = 10;

/// After this many losses of the engine in one lesson the next one begins.
const MOST_LOSSES: u32 = 3;

/// Undoes the last move.
const UNDO: CheckCommand = CheckCommand::Match(Command::Undo);

/// The commands that one engine is asked, one after the other.
///
/// Which command comes next depends only on the lesson, the place in it, the size of scenes, the game, the seed and what
/// isn't asked.
#[derive(Drop)]
pub struct Course {
    lessons: Lessons,
    place: Place,
    opening: Opening,
    findings: u32,
    losses: u32,
    scene_size: Option<Size>,
    seed: u32,
    unasked: Unasked,
}

impl Model for Course {
    ghost use Rattle.gtp_check_course.specs.Course.{Course, IsIn};

    ghost Value = { Course };

    ghost view = { λ c. record {
      lessons = c.lessons.items;
      place = c.place;
      opening = c.opening;
      findings = c.findings;
      losses = c.losses;
      scene_size = c.scene_size;
      seed = c.seed;
      unasked = c.unasked;
    } };

    ghost invariant = { λ c. IsIn c.lessons.items c.place };
}

impl Course {
    ghost use Rattle.gtp_check_course.specs.Lessons.{stretches_of};
    ghost use Rattle.gtp_check_course.specs.Stretches.{steps_if};
    ghost use Rattle.gtp_check_course.specs.Places.{most_steps};
    ghost use Rattle.gtp_check_course.specs.Boards.{IsBoard};
    ghost use Rattle.gtp_check_judge.specs.Exam.{HasRoomFor};
    ghost use Rattle.gtp_check_course.specs.Asking.{IsStep, IsTurn, Renews, Kills, Opens, Poses, Probes, Sees};
    ghost use Rattle.gtp_check_course.specs.Asking.{Finds, Freshens, Tries, call, draws_of, lesson_of};
    ghost use Rattle.gtp_check_course.specs.Openings.{opened};
    ghost use Rattle.gtp_check_course.specs.Course.{IsLeftOut};
    ghost use Rattle.gtp_check_course.specs.Course.{begun, GoesTo, GoesOn, IsOver, IsRunning, Leaves};
    ghost use Rattle.gtp_check_course.specs.Course.{step_over, part_over, with_finding};

    /// Returns a course of these lessons, with this random seed. Scenes are asked on boards of the given size, which is
    /// at least 5. Without one they are asked on the smallest size from 5 that the engine accepts, which the first
    /// lesson with scenes finds. A command that `unasked` leaves out isn't asked.
    pub fn new(lessons: Lessons, scene_size: Option<Size>, seed: u32, unasked: Unasked) -> Course
        ensures { result ≡ begun lessons.items scene_size seed unasked }
    {
        Course {
            lessons,
            place: Place::first(),
            opening: Opening::Name,
            findings: 0,
            losses: 0,
            scene_size,
            seed,
            unasked,
        }
    }

    /// Returns what to do next. If that is to ask a command, call `ask` of the examiner before the next call.
    ///
    /// After each start the course asks the name, the version, and whether the engine has `fixed_handicap`, `undo` and
    /// `final_score`, in this order. Then it asks what the tables of the lesson say for its step. A random choice is a
    /// move on a legal point, a pass if there is none, or a probe of a point of the board; only the seed and the step
    /// decide it. A probe that is legal is asked only if the engine has `undo`, which is asked next. So the examiner
    /// allows each command that is asked.
    ///
    /// A step is passed over only if it asks nothing, if its command may not be asked although nothing is unanswered,
    /// if it is left out, or if it is a legal probe and the engine lacks `undo`. The course leaves a part whose size the
    /// engine refused. The engine is ended and started again at the beginning of each lesson but the first, if a step
    /// says so, or if no more ids are left, and only once it owes no reply. After ten findings in a lesson, or three
    /// losses of the engine, the next lesson begins.
    pub fn next(&mut self, examiner: &Examiner) -> Action
        ensures goes { GoesTo self.old examiner.now.exam result self.new }
        ensures over { IsOver self.old → result ≡ Done }
        ensures starts { IfSome (lesson_of self.old) (λ lesson. examiner.now.exam.up ≡ false
            → result ≡ Start) }
        ensures rests { IfSome (lesson_of self.old) (λ lesson. examiner.now.exam.up ≡ true
            → (HasRoomFor examiner.now.exam Name → ⊥)
            → Renews lesson self.old examiner.now.exam result self.new) }
        ensures turns { IfSome (lesson_of self.old) (λ lesson. HasRoomFor examiner.now.exam Name
            → IsTurn lesson self.old examiner.now.exam result self.new) }
    {
        let Some(lesson) = self.lesson() else {
            return Action::Done;
        };
        if !examiner.is_up() {
            self.opening = Opening::Name;
            return Action::Start;
        }
        if !examiner.has_room(&CheckCommand::Name) {
            return self.renew(lesson, examiner);
        }
        if let Some((command, after)) = self.opening.next() {
            return self.ask_opening(command, after, lesson, examiner);
        }
        if self.place.undoing {
            return self.ask(UNDO, lesson, examiner);
        }
        match self.question(lesson, examiner.game()) {
            Question::Ask(command) => self.ask(command, lesson, examiner),
            Question::Probe(made) => self.probe(made, lesson, examiner),
            Question::Size(size) => self.note_size(size, lesson, examiner),
            Question::Found(size) => self.note_found(size, lesson, examiner),
            Question::Fresh => self.freshen(lesson, examiner),
            Question::Restart => self.renew(lesson, examiner),
            Question::Kill => self.kill(lesson, examiner),
            Question::Nothing => self.skip(lesson),
        }
    }

    /// Leaves the rest of the part, because something was found in it, which may be a loss of the engine.
    pub fn leave(&mut self, is_loss: bool)
        ensures leaves { Leaves self.old self.new }
        ensures found { IfSome (lesson_of self.old) (λ lesson. self.new
            ≡ part_over lesson (with_finding is_loss self.old)) }
    {
        if let Some(lesson) = self.lesson() {
            self.note_finding(is_loss);
            self.end_part(lesson);
        }
    }

    /// Leaves the rest of the part, in which nothing was found.
    pub fn pass_on(&mut self)
        ensures leaves { Leaves self.old self.new }
        ensures next { IfSome (lesson_of self.old) (λ lesson. self.new ≡ part_over lesson self.old) }
    {
        if let Some(lesson) = self.lesson() {
            self.end_part(lesson);
        }
    }

    /// Notes that something was found in an earlier part of the lesson, which may be a loss of the engine. It counts
    /// like a finding in this part.
    pub fn note_finding(&mut self, is_loss: bool)
        ensures { self.new ≡ with_finding is_loss self.old }
    {
        self.findings = self.findings.saturating_add(1).min(MOST_FINDINGS);
        if is_loss {
            self.losses = self.losses.saturating_add(1).min(MOST_LOSSES);
        }
    }

    /// Returns the lesson that the course is in, if it isn't over.
    pub fn lesson(&self) -> Option<Lesson>
        ensures lesson { result ≡ slice_get self.now.lessons self.now.place.lesson }
        ensures running { IsSome result ↔ IsRunning self.now }
    {
        self.lessons.get(self.place.lesson).copied()
    }

    /// Returns where the course is.
    pub fn place(&self) -> Place
        ensures { result ≡ self.now.place }
    {
        self.place
    }

    /// Returns what this step does.
    fn question(&self, lesson: Lesson, game: &Game) -> Question
        ensures { IsStep lesson self.now game.now result }
    {
        match self.stretch(lesson) {
            Some(stretch) => {
                let board = self.board(lesson);
                stretch.question(self.place.step, &board, game, self.draws(lesson))
            }
            None => Question::Nothing,
        }
    }

    /// Returns the stretch that the course is in.
    fn stretch(&self, lesson: Lesson) -> Option<Stretch>
        ensures { result
            ≡ slice_get (stretches_of lesson self.now.place.part) self.now.place.stretch }
    {
        let stretches = lesson.stretches(self.place.part);
        stretches.get(self.place.stretch).copied()
    }

    /// Returns how many steps that has.
    fn steps(&self, lesson: Lesson) -> u32
        ensures steps { result ≡ steps_if
            (slice_get (stretches_of lesson self.now.place.part) self.now.place.stretch) }
        ensures few { result ≤ most_steps }
    {
        match self.stretch(lesson) {
            Some(stretch) => stretch.steps(),
            None => 0,
        }
    }

    /// Returns what this part is asked on.
    fn board(&self, lesson: Lesson) -> Board
        ensures { IsBoard lesson self.now.place.part self.now.scene_size result }
    {
        board_of(lesson, self.place.part, self.scene_size)
    }

    /// Returns the random choices of this step, which has a generator of its own, by its number among all lessons.
    fn draws(&self, lesson: Lesson) -> Draws
        ensures { result ≡ draws_of lesson self.now }
    {
        let place = Place {
            lesson: lesson.number(),
            ..self.place
        };
        Draws {
            seed: self.seed,
            number: place.number(),
        }
    }

    /// Asks a command of the opening.
    fn ask_opening(
        &mut self,
        command: CheckCommand,
        after: Opening,
        lesson: Lesson,
        examiner: &Examiner,
    ) -> Action
        requires running { IsRunning self.old }
        requires later { opened self.old.opening < opened after }
        requires kept { (unasked : Unasked) (game : GameRecord) → ¬ IsLeftOut unasked game command }
        ensures goes { GoesTo self.old examiner.now.exam result self.new }
        ensures opens { Opens (call lesson self.old examiner.now.exam) command after result self.new }
    {
        if !examiner.has_room(&command) {
            return self.renew(lesson, examiner);
        }
        self.opening = after;
        Action::Ask(command)
    }

    /// Returns whether a command is left out.
    fn leaves_out(&self, command: CheckCommand, examiner: &Examiner) -> bool
        ensures is { result ≡ true → IsLeftOut self.now.unasked examiner.now.exam.game command }
        ensures only { IsLeftOut self.now.unasked examiner.now.exam.game command → result ≡ true }
    {
        self.unasked.leaves_out(examiner.game(), command)
    }

    /// Asks the engine a command, if it may be asked. The step is passed over if the command may not be asked in this
    /// game, or is left out.
    fn ask(&mut self, command: CheckCommand, lesson: Lesson, examiner: &Examiner) -> Action
        requires { IsRunning self.old }
        ensures goes { GoesTo self.old examiner.now.exam result self.new }
        ensures poses { Poses (call lesson self.old examiner.now.exam) command result self.new }
    {
        if examiner.has_room(&command) {
            if self.leaves_out(command, examiner) {
                return self.skip(lesson);
            }
            self.go_on(lesson);
            return Action::Ask(command);
        }
        if examiner.unanswered() > 0 {
            return Action::Wait;
        }
        self.skip(lesson)
    }

    /// Asks a move on any point. If that is legal, it is undone next, as long as the engine has `undo`.
    fn probe(&mut self, made: Move, lesson: Lesson, examiner: &Examiner) -> Action
        requires running { IsRunning self.old }
        requires fresh { self.old.place.undoing ≡ false }
        ensures goes { GoesTo self.old examiner.now.exam result self.new }
        ensures probes { Probes (call lesson self.old examiner.now.exam) made result self.new }
    {
        if examiner.game().legal(made.colour, made.vertex) {
            self.try_move(made, lesson, examiner)
        } else {
            self.ask(CheckCommand::Match(Command::Play(made)), lesson, examiner)
        }
    }

    /// Asks a legal move, which is undone next, as long as the engine has `undo`.
    fn try_move(&mut self, made: Move, lesson: Lesson, examiner: &Examiner) -> Action
        requires running { IsRunning self.old }
        requires fresh { self.old.place.undoing ≡ false }
        requires legal { IsLegal examiner.now.exam.game made.colour made.vertex }
        ensures goes { GoesTo self.old examiner.now.exam result self.new }
        ensures tries { Tries (call lesson self.old examiner.now.exam) made result self.new }
    {
        let command = CheckCommand::Match(Command::Play(made));
        if examiner.skills().undo == Skill::Has && examiner.has_room(&command) {
            self.place = self.place.undo();
            return Action::Ask(command);
        }
        if examiner.unanswered() > 0 {
            return Action::Wait;
        }
        self.skip(lesson)
    }

    /// Looks whether the engine accepted a size, and leaves the part if it didn't.
    fn note_size(&mut self, size: Size, lesson: Lesson, examiner: &Examiner) -> Action
        requires { IsRunning self.old }
        ensures skips { result ≡ Skip }
        ensures goes_on { GoesOn self.old self.new }
        ensures sees { Sees (call lesson self.old examiner.now.exam) size result self.new }
    {
        if !has_taken(size, examiner) {
            self.end_part(lesson);
            return Action::Skip;
        }
        self.skip(lesson)
    }

    /// Looks whether the engine accepted a size, which becomes the size of scenes if it did.
    fn note_found(&mut self, size: Size, lesson: Lesson, examiner: &Examiner) -> Action
        requires { IsRunning self.old }
        ensures skips { result ≡ Skip }
        ensures goes_on { GoesOn self.old self.new }
        ensures finds { Finds (call lesson self.old examiner.now.exam) size result self.new }
    {
        if has_taken(size, examiner) {
            self.scene_size = Some(size);
        }
        self.skip(lesson)
    }

    /// Restarts the engine after a `quit`, once it owes no reply.
    fn renew(&mut self, lesson: Lesson, examiner: &Examiner) -> Action
        requires { IsRunning self.old }
        ensures goes { GoesTo self.old examiner.now.exam result self.new }
        ensures renews { Renews lesson self.old examiner.now.exam result self.new }
    {
        if examiner.unanswered() > 0 {
            return Action::Wait;
        }
        self.go_on(lesson);
        Action::Restart
    }

    /// Restarts the engine after a `quit`, once it owes no reply, where a lesson begins after another one. So an engine
    /// is asked the same in a lesson, whichever were asked before.
    fn freshen(&mut self, lesson: Lesson, examiner: &Examiner) -> Action
        requires { IsRunning self.old }
        ensures goes { GoesTo self.old examiner.now.exam result self.new }
        ensures freshens { Freshens (call lesson self.old examiner.now.exam) result self.new }
    {
        if self.place.lesson > 0 && self.place.part == 0 {
            return self.renew(lesson, examiner);
        }
        self.skip(lesson)
    }

    /// Restarts the engine without a `quit`, once it owes no reply.
    fn kill(&mut self, lesson: Lesson, examiner: &Examiner) -> Action
        requires { IsRunning self.old }
        ensures goes { GoesTo self.old examiner.now.exam result self.new }
        ensures kills { Kills lesson self.old examiner.now.exam result self.new }
    {
        if examiner.unanswered() > 0 {
            return Action::Wait;
        }
        self.go_on(lesson);
        Action::Kill
    }

    /// Passes over a step that asks nothing.
    fn skip(&mut self, lesson: Lesson) -> Action
        requires { IsRunning self.old }
        ensures skips { result ≡ Skip }
        ensures exact { self.new ≡ step_over lesson self.old }
        ensures goes_on { GoesOn self.old self.new }
    {
        self.go_on(lesson);
        Action::Skip
    }

    /// Goes on with the next step.
    fn go_on(&mut self, lesson: Lesson)
        requires { IsRunning self.old }
        ensures exact { self.new ≡ step_over lesson self.old }
        ensures goes_on { GoesOn self.old self.new }
    {
        if self.place.step + 1 < self.steps(lesson) {
            self.place = self.place.next_step();
        } else if self.place.stretch + 1 < lesson.stretches(self.place.part).len() {
            self.place = self.place.next_stretch();
        } else {
            self.end_part(lesson);
        }
    }

    /// Goes on with the next part, or with the next lesson: after the last part, and after too many findings or losses.
    fn end_part(&mut self, lesson: Lesson)
        requires { IsRunning self.old }
        ensures exact { self.new ≡ part_over lesson self.old }
        ensures goes_on { GoesOn self.old self.new }
    {
        let is_enough = self.findings >= MOST_FINDINGS || self.losses >= MOST_LOSSES;
        if self.place.part + 1 < lesson.parts() && !is_enough {
            self.place = self.place.next_part();
        } else {
            self.findings = 0;
            self.losses = 0;
            self.place = self.place.next_lesson();
        }
    }
}

/// Returns whether the engine has accepted this size.
fn has_taken(size: Size, examiner: &Examiner) -> bool
    ensures is { result ≡ true → HasTaken examiner.now.exam size }
    ensures only { HasTaken examiner.now.exam size → result ≡ true }
{
    examiner.board() != Known::Unknown && examiner.game().size() == size
}
