//! Command lines.
ghost use Rattle.std.specs.Prelude.{◌≡◌, ◌≤◌, slice_get, IfSome};
ghost use Rattle.std.specs.List.{slice_split};
ghost use Rattle.std.specs.Option.{option_copied};
ghost use Rattle.go_base.specs.Int.{most_int};
ghost use Rattle.gtp_wire.specs.Bytes.{is_space};
ghost use Rattle.gtp_wire.specs.private.LineReading.{IsLineText, id_of_words};
ghost use Rattle.gtp_wire.specs.Words.{words, command_of};

use arrayvec::ArrayVec;
use go_base::{push, read_int};
use std::marker::Model;

/// The most bytes that the words of a line have, the id's word included, joined by single spaces.
pub(crate) const MOST_LINE_BYTES: usize = 1000;

/// The capacity for the words of a line, plus a space and a byte that show that the line is longer.
pub(crate) const LINE_ROOM: usize = MOST_LINE_BYTES + 2;

/// A command line: its id, if its first word is an integer, and the words after it, of which the first is the command's
/// name.
///
/// All its words, the id included, have at most 1,000 bytes when they are joined by single spaces.
#[derive(Debug, Drop)]
pub struct CommandLine {
    id: Option<u32>,
    text: ArrayVec<u8, LINE_ROOM>,
}

impl Model for CommandLine {
    ghost use Rattle.std.specs.Prelude.{drop, is_some, if◌then◌else◌};
    ghost use Rattle.gtp_wire.specs.private.LineReading.{HoldsCommand};
    ghost use Rattle.gtp_wire.specs.Words.{CommandWords, words};

    ghost Value = { CommandWords };

    ghost view = { λ c.
        record { id = c.id; words = drop (if is_some c.id then 1 else 0) (words c.text.items) } };

    ghost invariant = { λ c. HoldsCommand c.id c.text.items };
}

impl CommandLine {
    /// Makes a command line of words joined by single spaces.
    pub(crate) fn of_text(line: &[u8]) -> Self
        requires { IsLineText line.now }
        ensures { result ≡ command_of (words line.now) }
    {
        let mut text = ArrayVec::new();
        push(&mut text, line);
        CommandLine {
            id: first_int(line),
            text,
        }
    }

    /// Replaces this command line by that of words joined by single spaces.
    pub(crate) fn put(&mut self, text: &[u8])
        requires { IsLineText text.now }
        ensures { self.new ≡ command_of (words text.now) }
    {
        self.id = first_int(text);
        self.text.clear();
        push(&mut self.text, text);
    }

    /// The id, if the line has one: an integer of the protocol, at most 2,147,483,647.
    pub fn id(&self) -> Option<u32>
        ensures value { result ≡ self.now.id }
        ensures int { IfSome result (λ n. n ≤ most_int) }
    {
        self.id
    }

    /// The word with this number, counted from 0 after the id: word 0 is the command's name. Returns `None` if there is
    /// no such word.
    ///
    /// A line that consists of an id has no word 0.
    pub fn word(&self, number: usize) -> Option<&[u8]>
        ensures { option_copied result ≡ slice_get self.now.words number }
    {
        if self.id.is_none() {
            return part(&self.text, number);
        }
        part(&self.text, number.checked_add(1)?)
    }
}

/// The integer that the first word spells, if it is one.
fn first_int(text: &[u8]) -> Option<u32>
    ensures value { result ≡ id_of_words (slice_split is_space text.now) }
    ensures int { IfSome result (λ n. n ≤ most_int) }
{
    read_int(part(text, 0)?)
}

/// The part with this number, counted from 0, when the text is split at each space.
fn part(text: &[u8], number: usize) -> Option<&[u8]>
    ensures { option_copied result ≡ slice_get (slice_split is_space text.now) number }
{
    text.split(|byte| *byte == b' ').nth(number)
}
