//! Command lines and their reader.
ghost use Rattle.std.specs.Prelude.{◌≡◌, ◌≢◌, ℕ, List, [], ◌∷◌, ◌++◌, false};
ghost use Rattle.std.specs.Option.{option_to_list};
ghost use Rattle.gtp_wire.specs.declared.lines.Line.TheVariants.{Command};
ghost use Rattle.gtp_wire.specs.Words.{words, command_of};
ghost use Rattle.go_base.specs.Bytes.{newline, hash};
ghost use Rattle.gtp_wire.specs.private.LineReading.{IsKind, IsLineText};

use super::command_line::{CommandLine, LINE_ROOM, MOST_LINE_BYTES};
use arrayvec::ArrayVec;
use std::marker::Model;

/// A line with at least one word: a command, or a line that is too long to be read.
#[derive(Debug, Drop)]
pub enum Line {
    /// A command line.
    Command(CommandLine),
    /// A line whose words, the id included, have more than 1,000 bytes when they are joined by single spaces.
    TooLong,
}

impl Line {
    /// Replaces this line by the command line of words joined by single spaces.
    fn put_command(&mut self, text: &[u8])
        requires { IsLineText text.now }
        ensures { self.new ≡ Command (command_of (words text.now)) }
    {
        match self {
            Line::Command(command) => command.put(text),
            Line::TooLong => *self = Line::Command(CommandLine::of_text(text)),
        }
    }
}

/// What a line reader did with a chunk of its input.
#[derive(Debug, Drop)]
pub struct LineFed {
    /// How many bytes of the chunk it used.
    pub used: usize,
    /// The line that the last of these bytes ended, if it did.
    pub line: Option<Line>,
}

/// What a line reader did with a chunk of its input, when it writes the line elsewhere.
#[derive(Clone, Copy, Debug, PartialEq, Eq, Drop)]
pub struct LineRead {
    /// How many bytes of the chunk it used.
    pub used: usize,
    /// Whether the last of these bytes ended a line.
    pub found: bool,
}

/// How far a line has been read: in or after a word (or before all words), after a space that ended a word, or in a
/// comment.
#[derive(Clone, Copy, Debug, PartialEq, Eq)]
enum Stage {
    Word,
    Gap,
    Comment,
}

/// What a byte that doesn't end the line is: a space, a control character, the start of a comment, or part of a word.
#[derive(Clone, Copy, PartialEq, Eq)]
enum Kind {
    Space,
    Removed,
    Hash,
    Other,
}

/// The kind of a byte that isn't a newline.
fn kind_of(byte: u8) -> Kind
    requires { byte ≢ newline }
    ensures { IsKind byte result }
{
    match byte {
        b'\t' | b' ' => Kind::Space,
        b'#' => Kind::Hash,
        _ => {
            if byte.is_ascii_control() {
                Kind::Removed
            } else {
                Kind::Other
            }
        }
    }
}

/// Reads command lines from bytes in any chunks.
///
/// Contracts see a reader as a text without a complete line. With any further text after it, it gives the same lines as
/// what the reader was fed since the last line.
#[derive(Debug, Drop)]
pub struct LineReader {
    held: ArrayVec<u8, LINE_ROOM>,
    stage: Stage,
}

impl Model for LineReader {
    ghost use Rattle.std.specs.Prelude.{List, ℕ, ◌++◌};
    ghost use Rattle.gtp_wire.specs.private.LineReading.{ending, HoldsLine};

    ghost Value = { List ℕ };

    ghost view = { λ r. r.held.items ++ ending r.stage };

    ghost invariant = { λ r. HoldsLine r.held.items r.stage };
}

impl Default for LineReader {
    ghost is_default = { λ r. r ≡ [] };

    fn default() -> Self {
        LineReader::new()
    }
}

impl LineReader {
    ghost use Rattle.gtp_wire.specs.Lines.{lines, line_if, Finds, ReadsLine};

    /// A reader that was fed nothing.
    pub fn new() -> Self
        ensures { result ≡ [] }
    {
        LineReader {
            held: ArrayVec::new(),
            stage: Stage::Word,
        }
    }

    /// Reads the next chunk up to and including the newline that ends the first line with a word, or all of it if there
    /// is none. Returns how many bytes it used, and the line. It holds back no complete line, and uses no byte after
    /// that newline.
    ///
    /// Lines without a word (blank lines and comments) are skipped. A line that is too long is reported at its newline.
    /// A line takes about 1 kB: `feed_into` writes it in place.
    pub fn feed(&mut self, input: &[u8]) -> LineFed
        ensures { ReadsLine self.old input.now result.used result.line self.new }
    {
        let mut line = Line::TooLong;
        let LineRead { used, found } = self.feed_into(input, &mut line);
        LineFed {
            used,
            line: if found { Some(line) } else { None },
        }
    }

    /// Reads the next chunk as `feed` does, and writes a line that it ends to `line`.
    pub fn feed_into(&mut self, input: &[u8], line: &mut Line) -> LineRead
        ensures reads { ReadsLine self.old input.now result.used
            (line_if result.found line.new) self.new }
        // If no line is found, `line` stays as it was.
        ensures unchanged { result.found ≡ false → line.new ≡ line.old }
    {
        // A look: what the invariant says holds of every reader.
        let _ = &self.held;
        for (i, byte) in input.iter().enumerate() {
            if *byte != b'\n' {
                self.take_byte(*byte);
                continue;
            }
            if self.end_line(line) {
                return LineRead {
                    used: i + 1,
                    found: true,
                };
            }
        }
        LineRead {
            used: input.len(),
            found: false,
        }
    }

    /// Reads a byte that isn't a newline.
    fn take_byte(&mut self, byte: u8)
        requires { byte ≢ newline }
        ensures { Finds self.old (byte ∷ []) [] self.new }
    {
        match kind_of(byte) {
            Kind::Removed => self.skip(byte),
            Kind::Space => self.take_space(byte),
            Kind::Hash => self.take_hash(),
            Kind::Other => self.take_word_byte(byte),
        }
    }

    /// Skips a control character, which changes nothing.
    fn skip(&self, byte: u8)
        requires { IsKind byte Kind.Removed }
        ensures { Finds self.now (byte ∷ []) [] self.now }
    {
        // A look: what the invariant says holds of every reader.
        let _ = &self.held;
    }

    /// Reads a space, which ends a word.
    fn take_space(&mut self, byte: u8)
        requires { IsKind byte Kind.Space }
        ensures { Finds self.old (byte ∷ []) [] self.new }
    {
        if self.held.is_empty() {
            return;
        }
        if self.held.len() > MOST_LINE_BYTES {
            return;
        }
        match self.stage {
            Stage::Word => self.stage = Stage::Gap,
            Stage::Gap | Stage::Comment => {}
        }
    }

    /// Reads `#`, which starts a comment.
    fn take_hash(&mut self)
        ensures { Finds self.old (hash ∷ []) [] self.new }
    {
        // A look: what the invariant says holds of every reader.
        let _ = &self.held;
        self.stage = Stage::Comment;
    }

    /// Reads any other byte. It belongs to a word, unless it is in a comment or the line is too long already.
    fn take_word_byte(&mut self, byte: u8)
        requires { IsKind byte Kind.Other }
        ensures { Finds self.old (byte ∷ []) [] self.new }
    {
        if self.held.len() > MOST_LINE_BYTES {
            return;
        }
        match self.stage {
            Stage::Word => self.held.push(byte),
            Stage::Gap => {
                self.held.push(b' ');
                self.held.push(byte);
                self.stage = Stage::Word;
            }
            Stage::Comment => {}
        }
    }

    /// Ends the line at a newline, and writes it to `line` if it has a word. Returns whether it has one.
    fn end_line(&mut self, line: &mut Line) -> bool
        ensures step { (z : List ℕ) → lines (self.old ++ newline ∷ z)
            ≡ option_to_list (line_if result line.new) ++ lines z }
        ensures unchanged { result ≡ false → line.new ≡ line.old }
        ensures new { self.new ≡ [] }
    {
        self.stage = Stage::Word;
        if self.held.is_empty() {
            return false;
        }
        let is_short = self.held.len() <= MOST_LINE_BYTES;
        if is_short {
            line.put_command(&self.held);
        } else {
            *line = Line::TooLong;
        }
        self.held.clear();
        true
    }
}
