//! Readers and writers over memory, for tests.
ghost use Rattle.std.specs.Prelude.{Some};

use arrayvec::ArrayVec;
use std::cell::Cell;
use std::io;
use std::io::{ErrorKind, Read, Write};
use std::rc::Rc;

/// What an engine has written.
pub type Written = ArrayVec<u8, 16384>;

/// Gives a text in chunks of these sizes, and then the rest, and fails the read of one number.
#[derive(Drop)]
pub struct Pieces<'a> {
    pub rest: &'a [u8],
    pub sizes: &'a [usize],
    pub turn: usize,
    pub failing: Option<usize>,
}

impl Read for Pieces<'_> {
    ghost remaining = { λ r. Some r.rest.now };

    fn read(&mut self, buf: &mut [u8]) -> io::Result<usize> {
        let turn = self.turn;
        self.turn = turn.saturating_add(1);
        if self.failing == Some(turn) {
            return Err(io::Error::from(ErrorKind::BrokenPipe));
        }
        let size = self.sizes.get(turn).copied().unwrap_or(usize::MAX).max(1);
        let count = size.min(buf.len()).min(self.rest.len());
        let (front, rest) = self.rest.split_at(count);
        buf[..count].copy_from_slice(front);
        self.rest = rest;
        Ok(count)
    }
}

/// Takes nothing in its first `stuck` writes, without an error. After that it takes at most `step` bytes a write, and
/// fails once it has taken `room` bytes, and at each flush after the first `flushes`.
#[derive(Drop)]
pub struct Limited<'a> {
    pub taken: &'a mut Written,
    pub room: usize,
    pub step: usize,
    pub stuck: usize,
    pub flushes: usize,
}

impl Write for Limited<'_> {
    ghost contents = { λ w. Some w.taken.now.items };

    fn write(&mut self, buf: &[u8]) -> io::Result<usize> {
        if self.stuck > 0 {
            self.stuck -= 1;
            return Ok(0);
        }
        let free = self.room.min(self.taken.remaining_capacity());
        let count = self.step.min(free).min(buf.len());
        if count == 0 && !buf.is_empty() {
            return Err(io::Error::from(ErrorKind::BrokenPipe));
        }
        match self.taken.try_extend_from_slice(&buf[..count]) {
            Ok(()) => {
                self.room -= count;
                Ok(count)
            }
            Err(_) => Err(io::Error::from(ErrorKind::BrokenPipe)),
        }
    }

    fn flush(&mut self) -> io::Result<()> {
        if self.flushes == 0 {
            return Err(io::Error::from(ErrorKind::BrokenPipe));
        }
        self.flushes -= 1;
        Ok(())
    }
}

/// Takes each text whole, counts the writes, and fails one that comes before the reply that it took was flushed. Counts
/// the replies that were taken whole, and reports their number at each flush.
#[derive(Drop)]
pub struct Reporting {
    pub writes: Rc<Cell<u32>>,
    pub whole: bool,
    pub replies: u32,
    pub last: u8,
    pub flushed: Rc<Cell<u32>>,
}

impl Write for Reporting {
    fn write(&mut self, buf: &[u8]) -> io::Result<usize> {
        if self.whole {
            return Err(io::Error::from(ErrorKind::BrokenPipe));
        }
        self.whole = buf.ends_with(b"\n\n");
        self.writes.set(self.writes.get().saturating_add(1));
        let mut last = self.last;
        let mut replies = self.replies;
        for &byte in buf {
            if byte == 10 && last == 10 {
                replies = replies.saturating_add(1);
            }
            last = byte;
        }
        self.last = last;
        self.replies = replies;
        Ok(buf.len())
    }

    fn flush(&mut self) -> io::Result<()> {
        self.whole = false;
        self.flushed.set(self.replies);
        Ok(())
    }
}

/// Gives one line a read, and fails a read that comes before the replies to the lines before it were flushed.
#[derive(Drop)]
pub struct Waiting<'a> {
    pub lines: &'a [&'a [u8]],
    pub next: usize,
    pub flushed: Rc<Cell<u32>>,
}

impl Read for Waiting<'_> {
    fn read(&mut self, buf: &mut [u8]) -> io::Result<usize> {
        let next = self.next;
        if (self.flushed.get() as usize) < next {
            return Err(io::Error::from(ErrorKind::BrokenPipe));
        }
        if next >= self.lines.len() {
            return Ok(0);
        }
        let line = self.lines[next];
        let count = line.len().min(buf.len());
        buf[..count].copy_from_slice(&line[..count]);
        self.next = next + 1;
        Ok(count)
    }
}
