//! Writing whole texts.
ghost use Rattle.std.specs.Prelude.{OnOk, OnErr};
ghost use Rattle.byte_streams.specs.Writing.{BreaksAt, IsFlushed, WritesOrBreaks};

use crate::calls::WriteOnce;
use crate::streams::Broken;

/// Writes the whole text and flushes it. Each write is given all that is left.
///
/// # Errors
///
/// `Broken` if a write fails or writes nothing, or the flush fails. Then no further call is made.
pub fn write_text<W: WriteOnce>(writer: &mut W, text: &[u8]) -> Result<(), Broken>
    ensures whole { OnOk result (IsFlushed W.WriteOnce text.now writer.old writer.new) }
    ensures broke { OnErr result (BreaksAt W.WriteOnce text.now writer.old writer.new) }
{
    let mut done = 0;
    while done < text.len() {
        match writer.write_once(&text[done..]) {
            Ok(0) => return Err(Broken),
            Ok(count) => done += count,
            Err(_) => return Err(Broken),
        }
    }
    match writer.flush_once() {
        Ok(()) => Ok(()),
        Err(_) => Err(Broken),
    }
}

/// Writes the whole text and flushes it. A failure of the writer is ignored.
pub fn write_or_break<W: WriteOnce>(writer: &mut W, text: &[u8])
    ensures { WritesOrBreaks W.WriteOnce text.now writer.old writer.new }
{
    match write_text(writer, text) {
        Ok(()) | Err(Broken) => {}
    }
}
