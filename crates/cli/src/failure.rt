//! The lines in which a program reports usage errors and failures.
ghost use Rattle.std.specs.Prelude.{◌≡◌, ◌≢◌, ◌≤◌, ℕ, List, codes, length};
ghost use Rattle.cli.specs.declared.failure.Failure.TheVariants as the_failure;
ghost use Rattle.cli.specs.declared.failure.PlanError.TheVariants as plan_error;
ghost use Rattle.cli.specs.Failures.{IsReported, ReportsFailure, failure_text, plan_error_status, plan_error_text};
ghost use Rattle.cli.specs.Status.{own_failure, usage_failure};

use crate::line::error_line;
use byte_streams::{Broken, WriteOnce, write_or_break};
use std::alloc::AllocError;
use std::io::ErrorKind;

/// Why a program can't go on.
#[derive(Clone, Copy, Debug, PartialEq, Eq, Drop)]
pub enum Failure {
    /// The output could not be written.
    Write,
    /// The system gave no memory.
    OutOfMemory,
    /// The program took more turns than any run within its limits can take.
    TooManyTurns,
    /// A standard stream is closed, and the null device that would take its place can't be opened.
    NoNullDevice,
}

impl Failure {
    /// Writes the failure to `errors`, as one line that begins with the program's name, and returns the status 3. The
    /// status is the same if that line can't be written.
    pub fn report<E: WriteOnce>(self, name: &[u8], errors: &mut E) -> u8
        requires name { length name.now ≤ 20 }
        ensures status { result ≡ own_failure }
        ensures written { ReportsFailure E.WriteOnce name.now self errors.old errors.new }
    {
        write_or_break(errors, error_line(name, self.text()).as_slice());
        3
    }

    /// The text of the failure.
    fn text(self) -> &'static [u8]
        ensures text { result.now ≡ failure_text self }
        ensures short { length result.now ≤ 100 }
    {
        match self {
            Failure::Write => b"write fault",
            Failure::OutOfMemory => b"out of memory",
            Failure::TooManyTurns => b"too many turns",
            Failure::NoNullDevice => b"a standard stream is closed, and /dev/null can't be opened",
        }
    }
}

impl From<AllocError> for Failure {
    ghost from_gives = { λ _ failure. failure ≡ the_failure.OutOfMemory };

    fn from(_error: AllocError) -> Failure {
        Failure::OutOfMemory
    }
}

impl From<Broken> for Failure {
    ghost from_gives = { λ _ failure. failure ≡ the_failure.Write };

    fn from(_error: Broken) -> Failure {
        Failure::Write
    }
}

/// A usage error for which `clap` has no text.
pub trait MistakeText {
    // The text of the usage error.
    ghost called: { Self → List ℕ };

    /// Returns the text of the usage error, at most 100 bytes.
    fn text(&self) -> &'static [u8]
        ensures text { result.now ≡ called self.now }
        ensures short { length result.now ≤ 100 };
}

/// Why a program can't make a plan of its arguments.
#[derive(Clone, Copy, Debug, PartialEq, Eq, Drop)]
pub enum PlanError<M> {
    /// The arguments have this usage error.
    BadWords(M),
    /// The system gave no memory.
    OutOfMemory,
}

impl<M: MistakeText> PlanError<M> {
    /// Writes the error to `errors`, as one line that begins with the program's name, and returns the status: 2 for a
    /// usage error, 3 if there was no memory. The status is the same if that line can't be written.
    pub fn report<E: WriteOnce>(&self, name: &[u8], errors: &mut E) -> u8
        requires name { length name.now ≤ 20 }
        ensures status { result ≡ plan_error_status self.now }
        ensures written { IsReported E.WriteOnce name.now
            (plan_error_text M.MistakeText.called self.now) errors.old errors.new }
    {
        match self {
            PlanError::BadWords(mistake) => report_mistake(name, mistake.text(), errors),
            PlanError::OutOfMemory => Failure::OutOfMemory.report(name, errors),
        }
    }
}

/// Reports that the arguments can't be collected, by the kind of the error, and returns the status: 3 if there was no
/// memory, else 2, since an argument isn't UTF-8.
pub fn report_arguments<E: WriteOnce>(name: &[u8], kind: ErrorKind, errors: &mut E) -> u8
    requires name { length name.now ≤ 20 }
    ensures memory { kind ≡ ErrorKind.OutOfMemory → (result ≡ own_failure)
        × ReportsFailure E.WriteOnce name.now the_failure.OutOfMemory errors.old errors.new }
    ensures other { kind ≢ ErrorKind.OutOfMemory → (result ≡ usage_failure)
        × IsReported E.WriteOnce name.now (codes "bad argument") errors.old errors.new }
{
    match kind {
        ErrorKind::OutOfMemory => Failure::OutOfMemory.report(name, errors),
        _ => report_mistake(name, b"bad argument", errors),
    }
}

/// Reports a usage error with this text, and returns the status 2.
fn report_mistake<E: WriteOnce>(name: &[u8], text: &[u8], errors: &mut E) -> u8
    requires name { length name.now ≤ 20 }
    requires text { length text.now ≤ 100 }
    ensures status { result ≡ usage_failure }
    ensures written { IsReported E.WriteOnce name.now text.now errors.old errors.new }
{
    write_or_break(errors, error_line(name, text).as_slice());
    2
}

impl<M> From<AllocError> for PlanError<M> {
    ghost from_gives = { λ _ error. error ≡ plan_error.OutOfMemory };

    fn from(_error: AllocError) -> Self {
        PlanError::OutOfMemory
    }
}
