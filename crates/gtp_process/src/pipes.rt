//! Calls of a process's pipes, which are retried if they are interrupted.
ghost use Rattle.std.specs.Prelude.{◌≡◌, ◌≤◌, ◌<◌, length, IfOk, OnOk, OnErr};
ghost use Rattle.std.specs.Io.KnownBytes.{Appends, WriteAppends, Keeps};
ghost use Rattle.gtp_process.specs.Pipes.{IsCutOff, IsUnbroken, OutputEnded};
ghost use Rattle.byte_streams.specs.Parts.{TakesPart};

use crate::starter::Process;
use byte_streams::CallFault;

/// The buffer size for an engine's replies: one read returns at most as many bytes.
pub const READ_ROOM: usize = 4096;

/// The most tries of one call, if each is interrupted.
const MOST_TRIES: u32 = 1_000_000_000;

/// A process is cut off: a write took no bytes, a pipe is broken, or a call was interrupted too often.
#[derive(Clone, Copy, Debug, PartialEq, Eq, Drop)]
pub struct CutOff;

/// Waits for bytes, writes them into the front of the buffer, at most as many as it holds, and returns how many. If the
/// buffer isn't empty, `Ok(0)` is the end of the stream.
///
/// # Errors
///
/// `CutOff` if the read fails other than by an interruption, or is interrupted 1,000,000,000 times in a row.
pub fn read_some<P: Process>(process: &mut P, buffer: &mut [u8]) -> Result<usize, CutOff>
    ensures bound { IfOk result (λ n. n ≤ length buffer.new) }
    ensures len { length buffer.new ≡ length buffer.old }
    ensures gives { WriteAppends (P.given process.old) (P.given process.new) result buffer.new }
    ensures taken { Keeps (P.taken process.old) (P.taken process.new) }
    ensures unbroken { IfOk result (λ n. 0 < n →
        IsUnbroken P.fails P.succeeds process.old process.new) }
    ensures ended { IfOk result (λ n. n ≡ 0 → 0 < length buffer.new →
        OutputEnded P.fails P.succeeds P.runs_out process.old process.new) }
    ensures failed { OnErr result (IsCutOff P.fails P.succeeds process.old process.new) }
{
    for _try in 0..MOST_TRIES {
        match process.read(buffer) {
            Ok(count) => return Ok(count),
            Err(CallFault::Interrupted) => {}
            Err(CallFault::Other) => return Err(CutOff),
        }
    }
    Err(CutOff)
}

/// Sends the whole text, and flushes it.
///
/// # Errors
///
/// `CutOff` if a write takes no bytes, or if a write or the flush fails other than by an interruption, or is
/// interrupted 1,000,000,000 times in a row.
pub fn write_whole<P: Process>(process: &mut P, text: &[u8]) -> Result<(), CutOff>
    ensures takes { OnOk result (Appends (P.taken process.old) (P.taken process.new) text.now) }
    ensures part { OnErr result
        (TakesPart text.now (P.taken process.old) (P.taken process.new)) }
    ensures unbroken { OnOk result (IsUnbroken P.fails P.succeeds process.old process.new) }
    ensures flushed { OnOk result (P.flushed process.new) }
    ensures given { Keeps (P.given process.old) (P.given process.new) }
    ensures failed { OnErr result (IsCutOff P.fails P.succeeds process.old process.new) }
{
    let mut done = 0;
    while done < text.len() {
        let count = write_some(process, &text[done..])?;
        if count == 0 {
            return Err(CutOff);
        }
        done += count;
    }
    flush(process)
}

/// Sends bytes from the front of the text, and returns how many.
fn write_some<P: Process>(process: &mut P, text: &[u8]) -> Result<usize, CutOff>
    ensures bound { IfOk result (λ n. n ≤ length text.now) }
    ensures takes { WriteAppends (P.taken process.old) (P.taken process.new) result text.now }
    ensures given { Keeps (P.given process.old) (P.given process.new) }
    ensures unbroken { IfOk result (λ n. 0 < n →
        IsUnbroken P.fails P.succeeds process.old process.new) }
    ensures none { IfOk result (λ n. n ≡ 0 → 0 < length text.now →
        IsCutOff P.fails P.succeeds process.old process.new) }
    ensures failed { OnErr result (IsCutOff P.fails P.succeeds process.old process.new) }
{
    for _try in 0..MOST_TRIES {
        match process.write(text) {
            Ok(count) => return Ok(count),
            Err(CallFault::Interrupted) => {}
            Err(CallFault::Other) => return Err(CutOff),
        }
    }
    Err(CutOff)
}

/// Flushes what was sent.
fn flush<P: Process>(process: &mut P) -> Result<(), CutOff>
    ensures unbroken { OnOk result (IsUnbroken P.fails P.succeeds process.old process.new) }
    ensures flushed { OnOk result (P.flushed process.new) }
    ensures taken { Keeps (P.taken process.old) (P.taken process.new) }
    ensures given { Keeps (P.given process.old) (P.given process.new) }
    ensures failed { OnErr result (IsCutOff P.fails P.succeeds process.old process.new) }
{
    for _try in 0..MOST_TRIES {
        match process.flush() {
            Ok(()) => return Ok(()),
            Err(CallFault::Interrupted) => {}
            Err(CallFault::Other) => return Err(CutOff),
        }
    }
    Err(CutOff)
}
