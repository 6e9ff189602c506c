//! The usage errors and failures that the program reports itself, each in one line.
ghost use Rattle.std.specs.Prelude.{◌≡◌, ◌≢◌, ◌≤◌, length};
ghost use Rattle.gtp_engine_app.specs.Status.{ReportsFailure, failure_text, status_for};

use byte_streams::{WriteOnce, write_or_break};
use cli::line::error_line;
use gtp_session::serve::ServeFault;
use std::io::ErrorKind;

/// The program's name in error lines.
pub const NAME: &[u8] = b"gtp_engine";

/// Why the program ends before its conversation does, unless `clap` reports it.
#[derive(Clone, Copy, Debug, PartialEq, Eq, Drop)]
pub enum Failure {
    /// An argument isn't UTF-8.
    BadArgument,
    /// The value of `--book` is no book.
    BadBook,
    /// The value of `--fault` is no fault.
    BadFault,
    /// Memory ran out while the arguments were collected, the options read, or the help or another answer to them
    /// built.
    OutOfMemory,
    /// The conversation stopped before its end, or the help or the version couldn't be written.
    Serve(ServeFault),
    /// A standard stream is closed, and the null device that would take its place can't be opened.
    NoNullDevice,
}

impl Failure {
    /// Why the arguments couldn't be collected, by the kind of the I/O error.
    pub fn of_arguments(kind: ErrorKind) -> Self
        ensures memory { kind ≡ ErrorKind.OutOfMemory → result ≡ Failure.OutOfMemory }
        ensures other { kind ≢ ErrorKind.OutOfMemory → result ≡ Failure.BadArgument }
    {
        match kind {
            ErrorKind::OutOfMemory => Failure::OutOfMemory,
            _ => Failure::BadArgument,
        }
    }

    /// The exit status: 2 for a usage error, 3 for any other failure.
    pub fn status(self) -> u8
        ensures { result ≡ status_for self }
    {
        match self {
            Failure::BadArgument | Failure::BadBook | Failure::BadFault => 2,
            Failure::OutOfMemory | Failure::Serve(_) | Failure::NoNullDevice => 3,
        }
    }

    /// The text of its line, without the program's name.
    fn text(self) -> &'static [u8]
        ensures text { result.now ≡ failure_text self }
        ensures short { length result.now ≤ 100 }
    {
        match self {
            Failure::BadArgument => b"bad argument",
            Failure::BadBook => b"bad book",
            Failure::BadFault => b"bad fault",
            Failure::OutOfMemory => b"out of memory",
            Failure::Serve(ServeFault::Read) => b"read fault",
            Failure::Serve(ServeFault::Write) => b"write fault",
            Failure::Serve(ServeFault::TooManyReads) => b"too many reads",
            Failure::NoNullDevice => b"a standard stream is closed, and /dev/null can't be opened",
        }
    }
}

/// Reports the failure in one line, and returns the exit status, which is the same if the line can't be written.
pub fn report<E: WriteOnce>(failure: Failure, errors: &mut E) -> u8
    ensures status { result ≡ status_for failure }
    ensures reported { ReportsFailure E.WriteOnce failure errors.old errors.new }
{
    write_or_break(errors, error_line(NAME, failure.text()).as_slice());
    failure.status()
}
