//! The policy that reads its choices from a book.
ghost use Rattle.std.specs.Prelude.{◌≡◌, length, slice_get};
ghost use Rattle.gtp_session.specs.Book.{entry_of, book_of};
ghost use Rattle.gtp_session.specs.private.Lawful.{lawful_entry};
ghost use Rattle.gtp_session.specs.Policies.{book_may};

use crate::policy::{Choice, Policy};
use arrayvec::ArrayVec;
use go_base::{Colour, Vertex};
use go_board::Game;
use std::marker::Model;

/// The most entries of a book: as many as a record has moves.
pub const MOST_ENTRIES: usize = 2000;

/// An entry of a book.
#[derive(Clone, Copy, Debug, PartialEq, Eq)]
pub enum Entry {
    /// To pass.
    Empty,
    /// To resign.
    Resign,
    /// To play on a point or to pass, if that is legal, otherwise to pass.
    Play(Vertex),
}

impl Entry {
    /// Reads an entry: a vertex, `resign` in small or capital letters, or nothing. Returns `None` for any other text.
    pub fn read(text: &[u8]) -> Option<Entry>
        ensures { result ≡ entry_of text.now }
    {
        if text.is_empty() {
            return Some(Entry::Empty);
        }
        let entry = match Choice::read(text)? {
            Choice::Resign => Entry::Resign,
            Choice::Play(vertex) => Entry::Play(vertex),
        };
        Some(entry)
    }
}

impl Default for Entry {
    ghost use Rattle.gtp_session.specs.declared.book.Entry.{Entry};

    ghost is_default = { λ entry. entry ≡ Entry.Empty };

    /// An empty entry.
    fn default() -> Entry {
        Entry::Empty
    }
}

/// Chooses by the entry whose number is that of the record's moves, counted from 0.
///
/// If that entry is missing, empty, or a vertex that isn't legal, the policy passes.
#[derive(Drop)]
pub struct Book {
    entries: ArrayVec<Entry, MOST_ENTRIES>,
}

impl Model for Book {
    ghost use Rattle.std.specs.Prelude.{List};
    ghost use Rattle.gtp_session.specs.declared.book.Entry.{Entry};

    ghost Value = { List Entry };

    ghost view = { λ b. b.entries.items };
}

impl Book {
    /// Reads a book: entries separated by commas. The empty text is a book of one empty entry.
    ///
    /// Returns `None` if an entry can't be read, and for more than 2,000 entries.
    pub fn read(text: &[u8]) -> Option<Book>
        ensures { result ≡ book_of text.now }
    {
        let mut entries = ArrayVec::new();
        for part in text.split(|byte| *byte == b',') {
            let entry = Entry::read(part)?;
            if entries.is_full() {
                return None;
            }
            entries.push(entry);
        }
        Some(Book { entries })
    }
}

impl Policy for Book {
    ghost may = { book_may };

    fn choose(&mut self, game: &Game, colour: Colour) -> Choice {
        match self.entries.as_slice().get(game.moves().len()) {
            Some(Entry::Resign) => Choice::Resign,
            Some(Entry::Play(vertex)) if game.legal(colour, *vertex) => Choice::Play(*vertex),
            _ => Choice::Play(Vertex::Pass),
        }
    }

    ghost lawful = { λ old game colour choice new e.
        lawful_entry game colour (slice_get old (length game.moves)) choice e.0 };
}
