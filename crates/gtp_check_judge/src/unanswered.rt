//! The commands that were asked and aren't answered yet.
ghost use Rattle.std.specs.Prelude.{◌≡◌, ◌<◌, ◌≤◌, [], ◌∷◌, ◌++◌, length, drop};
ghost use Rattle.gtp_check_judge.specs.Judging.{most_unanswered, oldest, awaits};

use crate::asking::CheckCommand;
use crate::dues::{Due, is_open};
use arrayvec::ArrayVec;
use std::marker::Model;

/// How many commands are unanswered at most.
pub const MOST_UNANSWERED: usize = 8;

/// A command that was asked, its id, and what is due to it.
#[derive(Clone, Copy, Debug, PartialEq, Eq)]
pub struct Asked {
    /// The number of the command, counted from 1 since the engine was started.
    pub id: u32,
    /// The command.
    pub command: CheckCommand,
    /// What is due to it.
    pub due: Due,
}

impl Default for Asked {
    ghost use Rattle.std.specs.Prelude.{◌≡◌};
    ghost use Rattle.gtp_check_judge.specs.declared.asking.CheckCommand.{CheckCommand};
    ghost use Rattle.gtp_check_judge.specs.declared.dues.Due.{Due};

    ghost is_default = { λ asked. asked
        ≡ record { id = 0; command = CheckCommand.Name; due = Due.Succeeds } };

    fn default() -> Asked {
        Asked {
            id: 0,
            command: CheckCommand::Name,
            due: Due::Succeeds,
        }
    }
}

/// The unanswered commands, the oldest first.
#[derive(Drop)]
pub struct Unanswered {
    list: ArrayVec<Asked, MOST_UNANSWERED>,
    /// Whether one of them has to be answered before another is asked.
    has_awaited: bool,
}

impl Model for Unanswered {
    ghost use Rattle.std.specs.Prelude.{List, ◌≡◌};
    ghost use Rattle.gtp_check_judge.specs.Judging.{awaits};
    ghost use Rattle.gtp_check_judge.specs.declared.unanswered.Asked.{Asked};

    ghost Value = { List Asked };

    ghost view = { λ o. o.list.items };

    ghost invariant = { λ o. o.has_awaited ≡ awaits o.list.items };
}

impl Unanswered {
    /// Returns a list without commands.
    pub fn new() -> Unanswered
        ensures { result ≡ [] }
    {
        Unanswered {
            list: ArrayVec::new(),
            has_awaited: false,
        }
    }

    /// Returns how many there are.
    pub fn len(&self) -> usize
        ensures len { result ≡ length self.now }
        ensures few { result ≤ most_unanswered }
    {
        self.list.len()
    }

    /// Returns the oldest, if any.
    pub fn oldest(&self) -> Option<Asked>
        ensures { result ≡ oldest self.now }
    {
        self.list.first().copied()
    }

    /// Adds a command at the end.
    pub fn push(&mut self, id: u32, command: CheckCommand, due: Due)
        requires { length self.old < most_unanswered }
        ensures { self.new ≡ self.old ++ record { id = id; command = command; due = due } ∷ [] }
    {
        self.has_awaited = self.has_awaited || is_open(&due);
        self.list.push(Asked { id, command, due });
    }

    /// Removes the oldest, if any.
    pub fn drop_oldest(&mut self)
        ensures { self.new ≡ drop 1 self.old }
    {
        if !self.list.is_empty() {
            self.list.remove(0);
            self.has_awaited = self.has_awaited && any_awaited(&self.list);
        }
    }

    /// Returns whether one of them has to be answered before another is asked: a `genmove`, a `boardsize`, an `undo`
    /// that may fail, or a `final_score`.
    pub fn awaits(&self) -> bool
        ensures { result ≡ awaits self.now }
    {
        self.has_awaited
    }
}

/// Returns whether one of these commands has to be answered before another is asked.
fn any_awaited(list: &[Asked]) -> bool
    ensures { result ≡ awaits list.now }
{
    list.iter().any(|asked| is_open(&asked.due))
}
