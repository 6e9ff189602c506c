//! The calls of a reader of command lines.
ghost use Rattle.std.specs.Prelude.{◌≡◌, IfOk, IfErr};
ghost use Rattle.gtp_wire.specs.declared.lines.Line.TheVariants as line;
ghost use Rattle.vintsaky_calls.specs.declared.causes.Cause.TheVariants as cause;
ghost use Rattle.vintsaky_calls.specs.Lines.{fresh_lines, FeedCall, IdCall, WordCall};

use crate::causes::Cause;
use crate::texts::put;
use gtp_wire::{CommandLine, Line, LineRead, LineReader};

/// A reader of command lines, and the line that it read last.
#[derive(Drop)]
pub struct Lines {
    /// What it has received and not read yet.
    pub reader: LineReader,
    /// The line that was read last. Before the first it is one that is too long.
    pub line: Line,
}

impl Lines {
    /// A reader that has received nothing.
    pub fn new() -> Lines
        ensures { result ≡ fresh_lines }
    {
        Lines {
            reader: LineReader::new(),
            line: Line::TooLong,
        }
    }
}

/// Implements `vintsaky_lines_feed`.
pub fn feed(lines: &mut Lines, bytes: &[u8], used: &mut usize) -> u32
    ensures { FeedCall bytes.now lines.old lines.new used.new result }
{
    let LineRead { used: count, found } = lines.reader.feed_into(bytes, &mut lines.line);
    *used = count;
    if !found {
        return 0;
    }
    match &lines.line {
        Line::Command(_words) => 1,
        Line::TooLong => 2,
    }
}

/// The command line that was read last.
fn command_of(read: &Line) -> Result<&CommandLine, Cause>
    ensures some { IfOk result (λ words. read.now ≡ line.Command words.now) }
    ensures none { IfErr result (λ why. (why ≡ cause.NoLine) × (read.now ≡ line.TooLong)) }
{
    match read {
        Line::Command(words) => Ok(words),
        Line::TooLong => Err(Cause::NoLine),
    }
}

/// Implements `vintsaky_lines_id`.
pub fn id(lines: &Lines, id: &mut u32) -> Result<(), Cause>
    ensures { IdCall lines.now.line id.old id.new result }
{
    let line = command_of(&lines.line)?;
    *id = line.id().ok_or(Cause::NoId)?;
    Ok(())
}

/// Implements `vintsaky_lines_word`.
pub fn word(lines: &Lines, number: usize, text: &mut [u8], count: &mut usize) -> Result<(), Cause>
    ensures { WordCall lines.now.line number text.old text.new count.old count.new result }
{
    let line = command_of(&lines.line)?;
    let word = line.word(number).ok_or(Cause::NoWord)?;
    *count = put(word, text);
    Ok(())
}
