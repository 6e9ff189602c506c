//! Streams that fail, and how their calls are counted.
use crate::calls::{CallFault, call_fault_of};
use crate::equal::assert_equal;
use crate::streams::{Broken, Counted, Incoming, Outgoing, send};
use crate::writing::write_text;
use std::io;
use std::io::{ErrorKind, Read, Write};

/// Takes at most two bytes per write, and none in the write with one given number. It fails each flush if it is closed.
#[derive(Drop)]
struct Narrow {
    taken: Vec<u8>,
    writes: usize,
    stuck: Option<usize>,
    flushes: usize,
    closed: bool,
}

impl Write for Narrow {
    fn write(&mut self, buf: &[u8]) -> io::Result<usize> {
        let turn = self.writes;
        self.writes = turn.saturating_add(1);
        if self.stuck == Some(turn) {
            return Ok(0);
        }
        let count = buf.len().min(2);
        self.taken.extend_from_slice(&buf[..count])?;
        Ok(count)
    }

    fn flush(&mut self) -> io::Result<()> {
        self.flushes = self.flushes.saturating_add(1);
        if self.closed {
            return Err(io::Error::from(ErrorKind::BrokenPipe));
        }
        Ok(())
    }
}

/// Its first read is interrupted, and the next ones find the end of the input.
#[derive(Drop)]
struct Interrupted {
    first: bool,
}

impl Read for Interrupted {
    fn read(&mut self, _buf: &mut [u8]) -> io::Result<usize> {
        if self.first {
            self.first = false;
            return Err(io::Error::from(ErrorKind::Interrupted));
        }
        Ok(0)
    }
}

#[test]
fn a_text_is_written_whole_by_narrow_writes(rt: HostRuntime) {
    let mut narrow = Narrow {
        taken: Vec::new(rt.alloc()),
        writes: 0,
        stuck: None,
        flushes: 0,
        closed: false,
    };
    assert_equal(&rt, write_text(&mut narrow, b"black"), Ok(()));
    assert_equal(&rt, narrow.taken.as_slice(), b"black".as_slice());
    assert_equal(&rt, (narrow.writes, narrow.flushes), (3, 1));
    narrow.closed = true;
    assert_equal(&rt, write_text(&mut narrow, b"!"), Err(Broken));
    assert_equal(&rt, narrow.taken.as_slice(), b"black!".as_slice());
}

#[test]
fn no_call_follows_a_write_that_took_nothing(rt: HostRuntime) {
    let mut narrow = Narrow {
        taken: Vec::new(rt.alloc()),
        writes: 0,
        stuck: Some(1),
        flushes: 0,
        closed: false,
    };
    assert_equal(&rt, write_text(&mut narrow, b"black"), Err(Broken));
    assert_equal(&rt, narrow.taken.as_slice(), b"bl".as_slice());
    assert_equal(&rt, (narrow.writes, narrow.flushes), (2, 0));
}

#[test]
fn writes_that_take_nothing_are_counted_as_failed(rt: HostRuntime) {
    let mut writer = Counted::new(Narrow {
        taken: Vec::new(rt.alloc()),
        writes: 0,
        stuck: Some(1),
        flushes: 0,
        closed: false,
    });
    assert_equal(&rt, send(&mut writer, b"white"), Err(Broken));
    assert_equal(&rt, (writer.failures, writer.waiting), (1, true));
    assert_equal(&rt, writer.flush(), Ok(()));
    assert_equal(&rt, (writer.failures, writer.waiting), (1, false));
}

#[test]
fn an_interrupted_read_fails_and_the_next_is_made(rt: HostRuntime) {
    let mut reader = Counted::new(Interrupted { first: true });
    let mut buffer = [0; 4];
    assert_equal(&rt, reader.read(&mut buffer), Err(Broken));
    assert_equal(&rt, reader.read(&mut buffer), Ok(0));
    assert_equal(&rt, (reader.reads, reader.ends, reader.failures), (2, 1, 1));
    assert_equal(
        &rt,
        call_fault_of(ErrorKind::Interrupted),
        CallFault::Interrupted,
    );
    assert_equal(&rt, call_fault_of(ErrorKind::TimedOut), CallFault::Other);
}
