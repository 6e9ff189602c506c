//! What is noted of correct replies.
ghost use Rattle.std.specs.Prelude.{◌≡◌};
ghost use Rattle.gtp_check_talk.specs.Notes.{asks_for_move, beginning_of, counted, is_move, is_refused, lacks};
ghost use Rattle.gtp_check_talk.specs.Notes.{noted, noted_in, noted_of, nothing_noted, started, with_answer};
ghost use Rattle.gtp_check_talk.specs.Notes.{with_lacks};
ghost use Rattle.gtp_check_talk.specs.Notes.{is_accepted, accepted_by, undos_after, with_lesson, with_match};
ghost use Rattle.gtp_check_talk.specs.Notes.{with_most_undos};
ghost use Rattle.gtp_check_talk.specs.Notes.{with_refusal, with_size, with_accepted};

use crate::among::is_among;
use arrayvec::ArrayVec;
use go_base::{Size, push};
use gtp_check_course::{Lesson, Lessons};
use gtp_check_judge::{CheckCommand, Heard, Refusal, Skill, Skills};
use gtp_wire::{Command, MOST_SHOWN, Reply};

/// The beginning of what an engine wrote: 80 bytes at most.
pub type Beginning = ArrayVec<u8, MOST_SHOWN>;

/// What is noted of the correct replies of an engine, over all its starts.
#[derive(Drop)]
pub struct Notes {
    /// The beginning of its name, once it has answered.
    pub name: Option<Beginning>,
    /// The beginning of its version.
    pub version: Option<Beginning>,
    /// The sizes that it refused before it accepted any board of them, each once.
    pub refused: ArrayVec<u32, 25>,
    /// The sizes that it accepted, each once.
    pub accepted: ArrayVec<u32, 25>,
    /// How many moves in a row it has undone up to now.
    pub in_a_row: u32,
    /// How many moves in a row it had undone when it first refused to undo the next.
    pub most_undos: Option<u32>,
    /// Whether it said that it lacks `fixed_handicap`.
    pub lacks_handicap: bool,
    /// Whether it said that it lacks `undo`.
    pub lacks_undo: bool,
    /// Whether it said that it lacks `final_score`.
    pub lacks_score: bool,
    /// Whether it gave a correct reply since it was started.
    pub has_answered: bool,
    /// How often in a row it was started and gave no correct reply.
    pub unanswered_starts: u32,
    /// How many commands were asked.
    pub commands: u32,
    /// The lessons in which a `play` or a `genmove` was answered correctly, each once.
    pub answered: Lessons,
}

impl Notes {
    /// The notes before the first start.
    pub fn new() -> Notes
        ensures { result ≡ nothing_noted }
    {
        Notes {
            name: None,
            version: None,
            refused: ArrayVec::new(),
            accepted: ArrayVec::new(),
            in_a_row: 0,
            most_undos: None,
            lacks_handicap: false,
            lacks_undo: false,
            lacks_score: false,
            has_answered: false,
            unanswered_starts: 0,
            commands: 0,
            answered: Lessons::new(),
        }
    }

    /// Notes a start of the engine.
    pub fn start(&mut self)
        ensures { self.new ≡ started self.old }
    {
        self.has_answered = false;
        self.unanswered_starts = self.unanswered_starts.saturating_add(1);
        self.in_a_row = 0;
    }

    /// Counts a command that was asked.
    pub fn count(&mut self)
        ensures { self.new ≡ counted self.old }
    {
        self.commands = self.commands.saturating_add(1);
    }

    /// Notes what was heard without a finding, when the oldest command was asked in this lesson. The reply is read only
    /// if that command was answered.
    pub fn take(&mut self, heard: &Heard, lesson: Lesson, reply: &Reply, skills: Skills)
        ensures { self.new ≡ noted_in lesson heard.now.answered
            (noted self.old heard.now.answered heard.now.refused reply.now skills) }
    {
        let Some(asked) = heard.answered else {
            return;
        };
        self.answer(&asked.command, reply, skills);
        self.take_refusal(&heard.refused);
        if asks_for_move(&asked.command) {
            self.take_lesson(lesson);
        }
    }

    /// Notes that a move of a lesson was answered correctly.
    fn take_lesson(&mut self, lesson: Lesson)
        ensures { self.new ≡ with_lesson lesson self.old }
    {
        if !is_among(&self.answered, lesson) {
            // All lessons fit.
            let _ = self.answered.try_push(lesson);
        }
    }

    /// Notes what it refused and may refuse, if anything.
    fn take_refusal(&mut self, refused: &Option<Refusal>)
        ensures { self.new ≡ with_refusal self.old refused.now }
    {
        match refused {
            Some(Refusal::Size(size)) => self.refuse(*size),
            Some(Refusal::Undo) => self.refuse_undo(),
            None => {}
        }
    }

    /// Notes a correct reply to a command.
    fn answer(&mut self, command: &CheckCommand, reply: &Reply, skills: Skills)
        ensures { self.new ≡ noted_of command.now reply.now skills (with_answer self.old) }
    {
        self.has_answered = true;
        self.unanswered_starts = 0;
        match command {
            CheckCommand::Name => self.name = Some(beginning_of(reply)),
            CheckCommand::Version => self.version = Some(beginning_of(reply)),
            CheckCommand::KnownCommand(_) => self.take_skills(skills),
            CheckCommand::Match(command) => self.take_match(command, reply.ok),
            CheckCommand::PlayInFull(made) => self.take_match(&Command::Play(*made), reply.ok),
            CheckCommand::GenmoveInFull(colour) => {
                self.take_match(&Command::Genmove(*colour), reply.ok);
            }
            CheckCommand::FinalScore
            | CheckCommand::ListCommands
            | CheckCommand::Faulty(_)
            | CheckCommand::Required(_) => {}
        }
    }

    /// Notes a correct reply to a command of a match, a success or a failure.
    fn take_match(&mut self, command: &Command, ok: bool)
        ensures { self.new ≡ with_match self.old command.now ok }
    {
        self.in_a_row = undos_after(self.in_a_row, command, ok);
        self.take_size(accepted_by(command, ok));
    }

    /// Notes that it accepted a board of this size, if there is one.
    fn take_size(&mut self, size: Option<Size>)
        ensures { self.new ≡ with_accepted self.old size }
    {
        if let Some(size) = size {
            let lines = size.get();
            if !self.is_accepted(lines) {
                // There are 25 sizes.
                let _ = self.accepted.try_push(lines);
            }
        }
    }

    /// Notes what the engine said that it lacks.
    fn take_skills(&mut self, skills: Skills)
        ensures { self.new ≡ with_lacks self.old skills }
    {
        self.lacks_handicap = self.lacks_handicap || lacks(skills.fixed_handicap);
        self.lacks_undo = self.lacks_undo || lacks(skills.undo);
        self.lacks_score = self.lacks_score || lacks(skills.final_score);
    }

    /// Notes that it refused a size, unless it accepted it before.
    fn refuse(&mut self, size: Size)
        ensures { self.new ≡ with_size self.old size }
    {
        let lines = size.get();
        if !(self.is_refused(lines) || self.is_accepted(lines)) {
            // There are 25 sizes.
            let _ = self.refused.try_push(lines);
        }
    }

    /// Notes that it refused to undo another move.
    fn refuse_undo(&mut self)
        ensures { self.new ≡ with_most_undos self.old }
    {
        if self.most_undos.is_none() {
            self.most_undos = Some(self.in_a_row);
        }
    }

    /// Returns whether it accepted a size before.
    fn is_accepted(&self, lines: u32) -> bool
        ensures { result ≡ is_accepted self.now lines }
    {
        self.accepted.iter().any(|known| *known == lines)
    }

    /// Returns whether it refused a size before.
    fn is_refused(&self, lines: u32) -> bool
        ensures { result ≡ is_refused self.now lines }
    {
        self.refused.iter().any(|known| *known == lines)
    }
}

/// Returns how many moves in a row were undone, after this reply to a command of a match.
fn undos_after(count: u32, command: &Command, ok: bool) -> u32
    ensures { result ≡ undos_after count command.now ok }
{
    match command {
        Command::Undo if ok => count.saturating_add(1),
        Command::Undo => count,
        Command::Boardsize(_)
        | Command::Komi(_)
        | Command::ClearBoard
        | Command::FixedHandicap(_)
        | Command::Play(_)
        | Command::Genmove(_)
        | Command::Quit => { if ok { 0 } else { count } }
    }
}

/// Returns the board size that was accepted with this reply, if one was.
fn accepted_by(command: &Command, ok: bool) -> Option<Size>
    ensures { result ≡ accepted_by command.now ok }
{
    match command {
        Command::Boardsize(size) if ok => Some(*size),
        _ => None,
    }
}

/// Returns whether a command asks for a move: a `play` or a `genmove`.
fn asks_for_move(command: &CheckCommand) -> bool
    ensures { result ≡ asks_for_move command.now }
{
    match command {
        CheckCommand::Match(command) => is_move(command),
        CheckCommand::PlayInFull(_) | CheckCommand::GenmoveInFull(_) => true,
        CheckCommand::FinalScore
        | CheckCommand::Name
        | CheckCommand::Version
        | CheckCommand::KnownCommand(_)
        | CheckCommand::ListCommands
        | CheckCommand::Faulty(_)
        | CheckCommand::Required(_) => false,
    }
}

/// The same for a command of a match.
fn is_move(command: &Command) -> bool
    ensures { result ≡ is_move command.now }
{
    match command {
        Command::Play(_) | Command::Genmove(_) => true,
        Command::Boardsize(_)
        | Command::Komi(_)
        | Command::ClearBoard
        | Command::FixedHandicap(_)
        | Command::Undo
        | Command::Quit => false,
    }
}

/// Returns whether an engine said that it lacks a command.
fn lacks(skill: Skill) -> bool
    ensures { result ≡ lacks skill }
{
    match skill {
        Skill::Lacks => true,
        Skill::Unasked | Skill::Has => false,
    }
}

/// Returns the beginning of the text of a reply; of a failure it is empty.
fn beginning_of(reply: &Reply) -> Beginning
    ensures { result.items ≡ beginning_of reply.now }
{
    let mut text = ArrayVec::new();
    if reply.ok {
        push(&mut text, &reply.text[..MOST_SHOWN.min(reply.text.len())]);
    }
    text
}
