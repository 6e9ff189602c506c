//! How to send a process `quit`, and end it after its answer.
ghost use Rattle.gtp_process.specs.Quitting.{IsAwaited, IsSentQuit, QuitsIfAny};

use crate::pipes::{CutOff, READ_ROOM, read_some, write_whole};
use crate::starter::Process;
use gtp_wire::{Command, Reply, ReplyReader, write_command};

/// The most reads for a reply to `quit`. Each read returns at least a byte, and within 8,193 bytes a reply reader has
/// returned a reply or a fault, since a reply has at most 8,192.
const MOST_QUIT_READS: u32 = 8193;

/// Sends a process, if there is one, `quit`, waits for its answer, and ends it. The wait ends with a reply, a fault of
/// the reply, the end of the output, or a broken pipe.
pub fn quit_and_end<P: Process>(process: Option<P>, buffer: &mut [u8; READ_ROOM])
    ensures { QuitsIfAny P.Process process }
{
    if let Some(mut process) = process {
        quit(&mut process, buffer);
        let _ = process.end();
    }
}

/// Sends `quit`, and waits for the reply.
fn quit<P: Process>(process: &mut P, buffer: &mut [u8; READ_ROOM])
    ensures { IsSentQuit P.Process process.old process.new }
{
    let text = write_command(None, &Command::Quit);
    match write_whole(process, text.as_slice()) {
        Ok(()) => wait_for_reply(process, buffer),
        Err(CutOff) => {}
    }
}

/// Waits for a reply, a fault of the reply, or the end of the stream.
fn wait_for_reply<P: Process>(process: &mut P, buffer: &mut [u8; READ_ROOM])
    ensures { IsAwaited P.Process process.old process.new }
{
    let mut reader = ReplyReader::new();
    let mut reply = Reply::new();
    for _read in 0..MOST_QUIT_READS {
        match read_some(process, buffer) {
            Ok(0) => return,
            Err(CutOff) => return,
            Ok(count) => {
                if reader.feed_into(&buffer[..count], &mut reply).got.is_some() {
                    return;
                }
            }
        }
    }
}
