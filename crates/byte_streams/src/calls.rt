//! One call of a reader or a writer, and what it did.
//!
//! The contracts of the standard library say which bytes a call reads or writes. They don't say that it was a single
//! call, that it failed, or that it flushed what was written. Here a reader or a writer names what its calls do, as a
//! relation between its state before a call, the call with its result, and its state afterwards. So a function that
//! uses it can promise which calls it makes. Readers and writers of the standard library get a relation that says
//! nothing.
ghost use Rattle.std.specs.Prelude.{ℕ, List, Option, ◌≡◌, ◌≢◌, length, Ok, IfOk, IfErr, IsErrOf};
ghost use Rattle.std.specs.IoError.{error_kind};
ghost use Rattle.std.specs.Io.{ReadsAtMost, WritesAtMost};
ghost use Rattle.std.specs.Io.KnownBytes.{ReadConsumes, WriteAppends, Keeps};
ghost use Rattle.byte_streams.specs.Calls.{Call, Reads, Writes, Flushes, given_bytes};

use std::io::{self, ErrorKind, Read, Write};
use thiserror::Error;

/// Why one call of a reader or a writer failed.
#[derive(Clone, Copy, Debug, PartialEq, Eq, Drop, Error)]
pub enum CallFault {
    /// A signal interrupted the call before it did anything. The call can be tried again.
    #[error("interrupted")]
    Interrupted,
    /// Any other failure.
    #[error("broken stream")]
    Other,
}

/// The fault for an error of this kind.
pub(crate) fn call_fault_of(kind: ErrorKind) -> CallFault
    ensures interrupted { kind ≡ ErrorKind.Interrupted → result ≡ CallFault.Interrupted }
    ensures other { kind ≢ ErrorKind.Interrupted → result ≡ CallFault.Other }
{
    match kind {
        ErrorKind::Interrupted => CallFault::Interrupted,
        _ => CallFault::Other,
    }
}

/// Turns the result of a standard library call into its value, or into the fault of the call.
///
/// # Errors
///
/// The fault, if the call failed.
pub fn outcome_of<T>(called: io::Result<T>) -> Result<T, CallFault>
    ensures done { IfOk called (λ value. result ≡ Ok value) }
    ensures interrupted { IfErr called (λ error. error_kind error ≡ ErrorKind.Interrupted
        → IsErrOf result CallFault.Interrupted) }
    ensures other { IfErr called (λ error. error_kind error ≢ ErrorKind.Interrupted
        → IsErrOf result CallFault.Other) }
{
    match called {
        Ok(value) => Ok(value),
        Err(error) => Err(call_fault_of(error.kind())),
    }
}

/// A reader that names what each of its reads does.
pub trait ReadOnce {
    // The bytes that reads will give from here on, if they are known.
    ghost gives: { Self → Option (List ℕ) };

    // Whether this call, with this result, can lead from the first state to the second.
    ghost calls: { Self → Call → Self → Type 0 };

    /// Makes one read into the front of the buffer, and returns how many bytes it read.
    ///
    /// # Errors
    ///
    /// The fault, if the read failed.
    fn read_once(&mut self, buffer: &mut [u8]) -> Result<usize, CallFault>
        ensures bound { ReadsAtMost result buffer.new }
        ensures bytes { ReadConsumes (gives self.old) (gives self.new) result buffer.new }
        ensures call { calls self.old
            (Reads (length buffer.new) (given_bytes buffer.new result)) self.new };
}

/// A writer that names what each of its writes and flushes does.
pub trait WriteOnce {
    // The bytes that the writer holds, if they are known.
    ghost holds: { Self → Option (List ℕ) };

    // Whether this call, with this result, can lead from the first state to the second.
    ghost calls: { Self → Call → Self → Type 0 };

    /// Makes one write from the front of the text, and returns how many bytes were written.
    ///
    /// # Errors
    ///
    /// The fault, if the write failed.
    fn write_once(&mut self, text: &[u8]) -> Result<usize, CallFault>
        ensures bound { WritesAtMost result text.now }
        ensures bytes { WriteAppends (holds self.old) (holds self.new) result text.now }
        ensures call { calls self.old (Writes text.now result) self.new };

    /// Makes one flush.
    ///
    /// # Errors
    ///
    /// The fault, if the flush failed.
    fn flush_once(&mut self) -> Result<(), CallFault>
        ensures bytes { Keeps (holds self.old) (holds self.new) }
        ensures call { calls self.old (Flushes result) self.new };
}

impl<T: Read> ReadOnce for T {
    ghost gives = { λ r. T.remaining r };

    ghost calls = { λ old call new. Unit {0} };

    fn read_once(&mut self, buffer: &mut [u8]) -> Result<usize, CallFault> {
        outcome_of(self.read(buffer))
    }
}

impl<T: Write> WriteOnce for T {
    ghost holds = { λ w. T.contents w };

    ghost calls = { λ old call new. Unit {0} };

    fn write_once(&mut self, text: &[u8]) -> Result<usize, CallFault> {
        outcome_of(self.write(text))
    }

    fn flush_once(&mut self) -> Result<(), CallFault> {
        outcome_of(self.flush())
    }
}
