//! A conversation with an engine in memory: the example code of CALLING.md.
ghost use Rattle.std.specs.Prelude.{⊤, None};

use crate::asserts::assert_equal_for;
use byte_streams::CallFault;
use gtp_process::{Ending, Process, READ_ROOM, quit_and_end, read_some, write_whole};
use gtp_wire::{Reply, ReplyReader};

/// Sends `name`, and reads until the reply is whole. `None` where none comes, or what comes is no reply.
fn ask_name<P: Process>(engine: &mut P, reply: &mut Reply) -> Option<()> {
    write_whole(engine, b"name\n").ok()?;
    let mut reader = ReplyReader::new();
    let mut buffer = [0u8; READ_ROOM];
    for _read in 0..8193u32 {
        let count = read_some(engine, &mut buffer).ok()?;
        match reader.feed_into(&buffer[..count], reply).got {
            None if count > 0 => {}
            got => return got?.ok(),
        }
    }
    None
}

/// An engine in memory, which writes one text, a byte a read, whatever it is sent.
struct Canned {
    text: &'static [u8],
    read: usize,
}

impl Process for Canned {
    ghost taken = { λ _. None };

    ghost given = { λ _. None };

    ghost fails = { λ _ _ _. ⊤ };

    ghost succeeds = { λ _ _. ⊤ };

    ghost runs_out = { λ _ _. ⊤ };

    ghost leaves = { λ _ _. ⊤ };

    ghost flushed = { λ _. ⊤ };

    fn read(&mut self, buffer: &mut [u8]) -> Result<usize, CallFault> {
        match (self.text.get(self.read), buffer) {
            (Some(byte), [first, ..]) => {
                *first = *byte;
                self.read += 1;
                Ok(1)
            }
            _ => Ok(0),
        }
    }

    fn write(&mut self, text: &[u8]) -> Result<usize, CallFault> {
        Ok(text.len())
    }

    fn flush(&mut self) -> Result<(), CallFault> {
        Ok(())
    }

    fn let_run_first(&self) {}

    fn let_read(&self) {}

    fn end(self) -> Ending {
        let Canned { text: _, read: _ } = self;
        Ending::Status(0)
    }
}

#[test]
fn an_engine_is_asked_its_name(rt: HostRuntime) {
    let cases: [(&'static [u8], &[u8], bool); 3] = [
        (b"= My engine\n\n=\n\n", b"My engine", true),
        (b"= My eng", b"", false),
        (b"Welcome!\n", b"", false),
    ];
    for (text, name, answers) in cases {
        let mut engine = Canned { text, read: 0 };
        let mut reply = Reply::new();
        let asked = ask_name(&mut engine, &mut reply);
        quit_and_end(Some(engine), &mut [0u8; READ_ROOM]);
        assert_equal_for(&rt, text, asked.is_some(), answers);
        assert_equal_for(&rt, text, reply.text.as_slice(), name);
    }
}
