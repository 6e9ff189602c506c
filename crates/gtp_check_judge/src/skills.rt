//! Which of the commands that it may lack an engine has.
ghost use Rattle.std.specs.Prelude.{◌≡◌, true, IfSome};
ghost use Rattle.gtp_wire.specs.Words.{reply_words};
ghost use Rattle.gtp_check_judge.specs.declared.skills.Skill.TheVariants.{Has};
ghost use Rattle.gtp_check_judge.specs.Skills.{skill_of, needed_skill, none_asked, said_of, with_skill, are_false};
ghost use Rattle.gtp_check_judge.specs.Skills.{said_skill, learned};

use crate::asking::{CheckCommand, Known};
use gtp_wire::{Command, Reply, first_word};

/// Whether an engine has a command that it may lack.
#[derive(Clone, Copy, Debug, PartialEq, Eq)]
pub enum Skill {
    /// It wasn't asked, or hasn't answered.
    Unasked,
    /// It didn't say that it lacks the command.
    Has,
    /// It said that it lacks the command.
    Lacks,
}

/// What an engine said of the commands that it may lack.
#[derive(Clone, Copy, Debug, PartialEq, Eq)]
pub struct Skills {
    /// Of `fixed_handicap`.
    pub fixed_handicap: Skill,
    /// Of `undo`.
    pub undo: Skill,
    /// Of `final_score`.
    pub final_score: Skill,
}

/// Before any `known_command`.
pub(crate) fn none_asked() -> Skills
    ensures { result ≡ none_asked }
{
    Skills {
        fixed_handicap: Skill::Unasked,
        undo: Skill::Unasked,
        final_score: Skill::Unasked,
    }
}

/// Returns whether the engine has what a command needs.
pub(crate) fn has_needed(skills: &Skills, command: &CheckCommand) -> bool
    ensures may { result ≡ true
        → IfSome (needed_skill command.now) (λ known. said_of skills.now known ≡ Has) }
    ensures only { IfSome (needed_skill command.now) (λ known. said_of skills.now known ≡ Has)
        → result ≡ true }
{
    match needed_skill(command) {
        None => true,
        Some(known) => is_had(said_of(skills, known)),
    }
}

/// Returns whether the engine has it.
fn is_had(skill: Skill) -> bool
    ensures may { result ≡ true → skill ≡ Has }
    ensures only { skill ≡ Has → result ≡ true }
{
    match skill {
        Skill::Has => true,
        Skill::Unasked | Skill::Lacks => false,
    }
}

/// Returns which of the commands that an engine may lack this is, if any.
fn needed_skill(command: &CheckCommand) -> Option<Known>
    ensures { result ≡ needed_skill command.now }
{
    match command {
        CheckCommand::Match(command) => skill_of(command),
        CheckCommand::FinalScore => Some(Known::FinalScore),
        CheckCommand::Name
        | CheckCommand::Version
        | CheckCommand::KnownCommand(_)
        | CheckCommand::ListCommands
        | CheckCommand::PlayInFull(_)
        | CheckCommand::GenmoveInFull(_)
        | CheckCommand::Faulty(_)
        | CheckCommand::Required(_) => None,
    }
}

/// The same for a command of a match.
fn skill_of(command: &Command) -> Option<Known>
    ensures { result ≡ skill_of command.now }
{
    match command {
        Command::FixedHandicap(_) => Some(Known::FixedHandicap),
        Command::Undo => Some(Known::Undo),
        Command::Boardsize(_)
        | Command::Komi(_)
        | Command::ClearBoard
        | Command::Play(_)
        | Command::Genmove(_)
        | Command::Quit => None,
    }
}

/// Returns what the engine said of a command.
fn said_of(skills: &Skills, known: Known) -> Skill
    ensures { result ≡ said_of skills.now known }
{
    match known {
        Known::FixedHandicap => skills.fixed_handicap,
        Known::Undo => skills.undo,
        Known::FinalScore => skills.final_score,
    }
}

/// Returns what is known of the engine after this reply to a command.
pub(crate) fn learned(skills: &Skills, command: &CheckCommand, reply: &Reply) -> Skills
    ensures { result ≡ learned skills.now command.now reply.now }
{
    match command {
        CheckCommand::KnownCommand(known) => {
            with_skill(skills, *known, said_skill(reply.ok, &reply.text))
        }
        CheckCommand::Match(_)
        | CheckCommand::FinalScore
        | CheckCommand::Name
        | CheckCommand::Version
        | CheckCommand::ListCommands
        | CheckCommand::PlayInFull(_)
        | CheckCommand::GenmoveInFull(_)
        | CheckCommand::Faulty(_)
        | CheckCommand::Required(_) => *skills,
    }
}

/// Returns the same skills with this one changed.
fn with_skill(skills: &Skills, known: Known, now: Skill) -> Skills
    ensures { result ≡ with_skill skills.now known now }
{
    let Skills {
        fixed_handicap,
        undo,
        final_score,
    } = *skills;
    match known {
        Known::FixedHandicap => Skills {
            fixed_handicap: now,
            undo,
            final_score,
        },
        Known::Undo => Skills {
            fixed_handicap,
            undo: now,
            final_score,
        },
        Known::FinalScore => Skills {
            fixed_handicap,
            undo,
            final_score: now,
        },
    }
}

/// Returns what a reply to `known_command` says.
fn said_skill(ok: bool, text: &[u8]) -> Skill
    ensures { result ≡ said_skill ok text.now }
{
    if ok && is_false(text) {
        Skill::Lacks
    } else {
        Skill::Has
    }
}

/// Returns whether a text is the one word `false`.
fn is_false(text: &[u8]) -> bool
    ensures { result ≡ are_false (reply_words text.now) }
{
    let Some((word, rest)) = first_word(text) else {
        return false;
    };
    if first_word(rest).is_some() {
        return false;
    }
    word == b"false".as_slice()
}
