//! Readers and writers that count their calls.
ghost use Rattle.std.specs.Prelude.{◌≡◌, ◌<◌, length, false, Some, None, IfOk, OnOk, OnErr};
ghost use Rattle.std.specs.Io.{ReadsAtMost, WritesAtMost};
ghost use Rattle.std.specs.Io.KnownBytes.{ReadConsumes, WriteAppends, Keeps};
ghost use Rattle.byte_streams.specs.Calls.{IsOneRead, IsOneWrite, IsOneFlush};
ghost use Rattle.byte_streams.specs.Streams.{Source, Sink, TookWhole, TookPart};
ghost use Rattle.byte_streams.specs.Counts.{raised, failures_after, ends_after, bytes_moved, moved_by_flush};
ghost use Rattle.byte_streams.specs.Counts.{waiting_after_write, waiting_after_flush};

use crate::calls::{ReadOnce, WriteOnce};
use std::marker::Model;
use thiserror::Error;

/// A read, a write or a flush failed.
#[derive(Clone, Copy, Debug, PartialEq, Eq, Drop, Error)]
#[error("broken stream")]
pub struct Broken;

/// A reader that counts its reads, those that reached the end of the input, and those that failed, and remembers how
/// many bytes the last one gave. A count that has reached 2^64 - 1 stays there.
pub trait Incoming {
    // The bytes that reads will give from here on, if they are known; how many reads were made, how many of them gave
    // no byte, and how many failed; and how many bytes the last one gave.
    ghost shown: { Self → Source };

    /// Reads into the front of the buffer, and returns how many bytes it read. `Ok(0)` for a buffer that isn't empty
    /// means the end of the input.
    ///
    /// # Errors
    ///
    /// `Broken` at any failure of the reader.
    fn read(&mut self, buffer: &mut [u8]) -> Result<usize, Broken>
        ensures bound { ReadsAtMost result buffer.new }
        ensures bytes { ReadConsumes (shown self.old).gives (shown self.new).gives
            result buffer.new }
        ensures reads { (shown self.new).reads ≡ raised (shown self.old).reads 1 }
        ensures ends { (shown self.new).ends ≡ ends_after (shown self.old).ends result }
        ensures failures { (shown self.new).failures
            ≡ failures_after (shown self.old).failures result }
        ensures last { (shown self.new).last ≡ bytes_moved result };
}

/// A writer that counts the calls that failed, and remembers whether the last one did and whether written bytes still
/// wait for a flush.
pub trait Outgoing {
    // The bytes that the writer holds, if they are known; how many writes and flushes failed; how many bytes the last
    // call wrote; and whether a written byte waits for a flush.
    ghost shown: { Self → Sink };

    /// Writes from the front of the text, and returns how many bytes were written: at least one, unless the text is
    /// empty. They wait for a flush.
    ///
    /// # Errors
    ///
    /// `Broken` at any failure of the writer, and if it writes no byte of a text that isn't empty.
    fn write(&mut self, text: &[u8]) -> Result<usize, Broken>
        ensures bound { WritesAtMost result text.now }
        ensures progress { IfOk result (λ count. 0 < length text.now → 0 < count) }
        ensures bytes { WriteAppends (shown self.old).holds (shown self.new).holds
            result text.now }
        ensures failures { (shown self.new).failures
            ≡ failures_after (shown self.old).failures result }
        ensures last { (shown self.new).last ≡ bytes_moved result }
        ensures waiting { (shown self.new).waiting
            ≡ waiting_after_write (shown self.old).waiting result };

    /// Flushes what was written. If the flush fails, the bytes still wait.
    ///
    /// # Errors
    ///
    /// `Broken` at any failure of the writer.
    fn flush(&mut self) -> Result<(), Broken>
        ensures bytes { Keeps (shown self.old).holds (shown self.new).holds }
        ensures failures { (shown self.new).failures
            ≡ failures_after (shown self.old).failures result }
        ensures last { (shown self.new).last ≡ moved_by_flush result }
        ensures waiting { (shown self.new).waiting
            ≡ waiting_after_flush (shown self.old).waiting result };
}

/// Writes the whole text and flushes it.
///
/// # Errors
///
/// `Broken` if a write or the flush failed. The writer has then taken some prefix of the text, perhaps all of it.
pub fn send<W: Outgoing>(writer: &mut W, text: &[u8]) -> Result<(), Broken>
    ensures sent { OnOk result (TookWhole text.now (W.shown writer.old) (W.shown writer.new)) }
    ensures broke { OnErr result (TookPart text.now (W.shown writer.old) (W.shown writer.new)) }
{
    let mut done = 0;
    while done < text.len() {
        let count = writer.write(&text[done..])?;
        done += count;
    }
    writer.flush()
}

/// Any reader or writer of the standard library, with its counts: its reads, those that reached the end of the input,
/// the calls that failed, what the last call did, and whether written bytes wait for a flush. A write that writes no
/// byte of a text that isn't empty counts as failed.
#[derive(Drop)]
pub struct Counted<T> {
    pub(crate) inner: T,
    pub(crate) reads: u64,
    pub(crate) ends: u64,
    pub(crate) failures: u64,
    /// How many bytes the last call read or wrote; `None` if it failed. Only contracts use it, to say that no call
    /// follows a failed one.
    pub(crate) last: Option<usize>,
    pub(crate) waiting: bool,
}

impl<T> Model for Counted<T> {
    ghost use Rattle.byte_streams.specs.Counts.{Tally};

    ghost Value = { Tally T };

    ghost view = { λ c.
        record {
          inner = c.inner;
          reads = c.reads;
          ends = c.ends;
          failures = c.failures;
          last = c.last;
          waiting = c.waiting;
        } };
}

impl<T> Counted<T> {
    /// Starts with all counts at 0 and nothing waiting for a flush.
    pub fn new(inner: T) -> Self
        ensures { result ≡ record {
          inner = inner;
          reads = 0;
          ends = 0;
          failures = 0;
          last = Some 0;
          waiting = false;
        } }
    {
        Counted {
            inner,
            reads: 0,
            ends: 0,
            failures: 0,
            last: Some(0),
            waiting: false,
        }
    }

    /// Counts a failed call.
    fn fail(&mut self) -> Broken
        ensures { self.new
            ≡ record self.old { failures = raised self.old.failures 1; last = None } }
    {
        self.failures = self.failures.saturating_add(1);
        self.last = None;
        Broken
    }
}

impl<T: ReadOnce> Incoming for Counted<T> {
    ghost shown = { λ c.
        record {
          gives = T.gives c.inner;
          reads = c.reads;
          ends = c.ends;
          failures = c.failures;
          last = c.last;
        } };

    /// Makes one read of the inner reader, with the whole buffer, and fails exactly if that read fails.
    fn read(&mut self, buffer: &mut [u8]) -> Result<usize, Broken>
        ensures bound { ReadsAtMost result buffer.new }
        ensures bytes { ReadConsumes (T.gives self.old.inner) (T.gives self.new.inner)
            result buffer.new }
        ensures reads { self.new.reads ≡ raised self.old.reads 1 }
        ensures ends { self.new.ends ≡ ends_after self.old.ends result }
        ensures failures { self.new.failures ≡ failures_after self.old.failures result }
        ensures last { self.new.last ≡ bytes_moved result }
        ensures call { IsOneRead T.ReadOnce.calls buffer.new result self.old.inner
            self.new.inner }
    {
        self.reads = self.reads.saturating_add(1);
        match self.inner.read_once(buffer) {
            Ok(count) => {
                if count == 0 {
                    self.ends = self.ends.saturating_add(1);
                }
                self.last = Some(count);
                Ok(count)
            }
            Err(_) => Err(self.fail()),
        }
    }
}

impl<T: WriteOnce> Outgoing for Counted<T> {
    ghost shown = { λ c.
        record {
          holds = T.holds c.inner;
          failures = c.failures;
          last = c.last;
          waiting = c.waiting;
        } };

    /// Makes one write to the inner writer, with the whole text, and fails exactly if that write fails or writes no
    /// byte of a text that isn't empty.
    fn write(&mut self, text: &[u8]) -> Result<usize, Broken>
        ensures bound { WritesAtMost result text.now }
        ensures progress { IfOk result (λ count. 0 < length text.now → 0 < count) }
        ensures bytes { WriteAppends (T.holds self.old.inner) (T.holds self.new.inner)
            result text.now }
        ensures failures { self.new.failures ≡ failures_after self.old.failures result }
        ensures last { self.new.last ≡ bytes_moved result }
        ensures waiting { self.new.waiting ≡ waiting_after_write self.old.waiting result }
        ensures call { IsOneWrite T.WriteOnce.calls text.now result self.old.inner
            self.new.inner }
    {
        match self.inner.write_once(text) {
            Ok(count) if count > 0 || text.is_empty() => {
                self.waiting = self.waiting || count > 0;
                self.last = Some(count);
                Ok(count)
            }
            _ => Err(self.fail()),
        }
    }

    /// Makes one flush of the inner writer, and fails exactly if that flush fails.
    fn flush(&mut self) -> Result<(), Broken>
        ensures bytes { Keeps (T.holds self.old.inner) (T.holds self.new.inner) }
        ensures failures { self.new.failures ≡ failures_after self.old.failures result }
        ensures last { self.new.last ≡ moved_by_flush result }
        ensures waiting { self.new.waiting ≡ waiting_after_flush self.old.waiting result }
        ensures call { IsOneFlush T.WriteOnce.calls result self.old.inner self.new.inner }
    {
        match self.inner.flush_once() {
            Ok(()) => {
                self.waiting = false;
                self.last = Some(0);
                Ok(())
            }
            Err(_) => Err(self.fail()),
        }
    }
}
