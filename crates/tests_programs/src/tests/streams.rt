//! Streams in memory, and a log of what was done with the engines of a run.
use crate::asserts::some;
use std::cell::Cell;
use std::io;
use std::io::{ErrorKind, Read, Write};
use std::process::Abort;
use std::rc::Rc;

/// A reader of these bytes. Without any bytes each read fails.
#[derive(Clone, Copy, Drop)]
pub struct Source<'a> {
    pub bytes: Option<&'a [u8]>,
}

impl Read for Source<'_> {
    fn read(&mut self, buf: &mut [u8]) -> io::Result<usize> {
        match &mut self.bytes {
            Some(left) => left.read(buf),
            None => Err(io::Error::from(ErrorKind::BrokenPipe)),
        }
    }
}

/// The size of a stream that takes all that these tests write.
pub const WIDE: usize = 20_000;

/// What was done with the engines, as the starter, each engine and the test see it.
#[derive(Drop)]
pub struct Counts {
    /// How many were started, ended, and sent `quit`.
    pub started: Cell<usize>,
    pub ended: Cell<usize>,
    pub quits: Cell<usize>,
    /// How many writes went through, and how many calls were interrupted.
    pub writes: Cell<usize>,
    pub interrupted: Cell<usize>,
    /// How many bytes a stream had taken when it was last flushed, and the sums of these numbers at each start and at
    /// each `quit`.
    pub flushed: Cell<usize>,
    pub flushed_by_starts: Cell<usize>,
    pub flushed_by_quits: Cell<usize>,
}

/// Nothing was done yet.
pub fn new_counts<R: Abort + AllocGlobal>(rt: &R) -> Rc<Counts> {
    let counts = Counts {
        started: Cell::new(0),
        ended: Cell::new(0),
        quits: Cell::new(0),
        writes: Cell::new(0),
        interrupted: Cell::new(0),
        flushed: Cell::new(0),
        flushed_by_starts: Cell::new(0),
        flushed_by_quits: Cell::new(0),
    };
    some(rt, Rc::new(rt.alloc(), counts).ok())
}

/// A stream that takes `room` bytes and fails a write when it is full.
#[derive(Drop)]
pub struct Narrow {
    pub taken: Vec<u8>,
    pub room: usize,
    pub counts: Rc<Counts>,
}

/// A stream that takes this many bytes.
pub fn narrow_stream<R: Abort + AllocGlobal>(rt: &R, room: usize, counts: &Rc<Counts>) -> Narrow {
    Narrow {
        taken: Vec::new(rt.alloc()),
        room,
        counts: some(rt, counts.clone().ok()),
    }
}

impl Write for Narrow {
    fn write(&mut self, buf: &[u8]) -> io::Result<usize> {
        let count = buf.len().min(self.room);
        if count == 0 {
            return Err(io::Error::from(ErrorKind::BrokenPipe));
        }
        self.taken.extend_from_slice(&buf[..count])?;
        self.room = self.room.saturating_sub(count);
        Ok(count)
    }

    fn flush(&mut self) -> io::Result<()> {
        self.counts.flushed.set(self.taken.len());
        Ok(())
    }
}
