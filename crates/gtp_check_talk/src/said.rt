//! What an engine was asked since it was started.
ghost use Rattle.std.specs.Prelude.{◌≡◌, slice_get};
ghost use Rattle.gtp_check_talk.specs.Said.{is_same_lesson, is_same_purpose};

use go_base::{Move, Size};
use gtp_check_course::Lesson;
use gtp_check_judge::CheckCommand;

/// The lesson and part that a command is asked for.
#[derive(Clone, Copy, Debug, PartialEq, Eq)]
pub struct Purpose {
    /// The lesson.
    pub lesson: Lesson,
    /// The part of it, counted from 0.
    pub part: u32,
}

impl Purpose {
    /// Returns whether it is the same lesson and the same part of it.
    pub fn is_same(self, other: Purpose) -> bool
        ensures { result ≡ is_same_purpose self other }
    {
        self.is_same_lesson(other) && self.part == other.part
    }

    /// Returns whether it is the same lesson, in any part.
    pub fn is_same_lesson(self, other: Purpose) -> bool
        ensures { result ≡ is_same_lesson self other }
    {
        self.lesson.number() == other.lesson.number()
    }
}

/// A command that was asked.
#[derive(Clone, Copy, Debug)]
pub struct Said {
    /// The command.
    pub command: CheckCommand,
    /// What it was asked for.
    pub purpose: Purpose,
    /// Whether it is a `play` that isn't legal, which a correct engine refuses.
    pub is_illegal: bool,
    /// The board size of a correct engine when it was asked.
    pub size: Size,
    /// How many moves its game had then.
    pub moves: usize,
    /// The last of them.
    pub last: Option<Move>,
    /// Where its line ends in the text of all that was asked.
    pub end: usize,
}

/// Returns the command with this number, counted from 0, if there is one.
pub fn said_at(talk: &[Said], number: usize) -> Option<Said>
    ensures { result ≡ slice_get talk.now number }
{
    match talk.get(number) {
        Some(said) => Some(*said),
        None => None,
    }
}
