//! What a program writes when `clap` returns no options: the help, the version or a usage error.
ghost use Rattle.std.specs.Prelude.{◌≡◌, ◌≤◌, Ok, length, IfOk, IfErr};
ghost use Rattle.cli.specs.Requests.{Answers, IsRefused, Shows, outputs, writers};
ghost use Rattle.cli.specs.Status.{IsRequest};

use crate::failure::Failure;
use crate::words::is_request;
use byte_streams::{Broken, WriteOnce, write_or_break, write_text};
use clap::error::ErrorKind;
use std::alloc::AllocError;

/// Handles an error that `clap` returns instead of options, of this kind and with this text: writes the help or the
/// version to `output`, and a usage error to `errors`. If memory couldn't be allocated, for the text or before, it
/// reports that instead. Returns the status: 0 if the help or the version was written, 2 for a usage error, else 3.
pub fn answer_error<O: WriteOnce, E: WriteOnce>(
    name: &[u8],
    kind: ErrorKind,
    text: Result<String, AllocError>,
    output: &mut O,
    errors: &mut E,
) -> u8
    requires name { length name.now ≤ 20 }
    ensures { Answers (writers O.WriteOnce E.WriteOnce) name.now kind text
        (outputs output.old errors.old) result (outputs output.new errors.new) }
{
    match requested_text(name, kind, text, errors) {
        Ok(text) => show(name, text.as_bytes(), output, errors),
        Err(status) => status,
    }
}

/// Returns the text of such an error, if it is the help or the version.
///
/// # Errors
///
/// The status, after a line or more was written to `errors`: 2 for a usage error, whose text is written, or 3 if memory
/// couldn't be allocated, which is reported. The status is the same if `errors` can't be written.
pub fn requested_text<E: WriteOnce>(
    name: &[u8],
    kind: ErrorKind,
    text: Result<String, AllocError>,
    errors: &mut E,
) -> Result<String, u8>
    requires name { length name.now ≤ 20 }
    ensures request { IfOk result (λ asked. IsRequest kind × (text ≡ Ok asked)
        × (errors.new ≡ errors.old)) }
    ensures refused { IfErr result (λ status.
        IsRefused E.WriteOnce name.now kind text errors.old status errors.new) }
{
    let Ok(text) = text else {
        return Err(Failure::OutOfMemory.report(name, errors));
    };
    if kind == ErrorKind::OutOfMemory {
        return Err(Failure::OutOfMemory.report(name, errors));
    }
    if !is_request(kind) {
        write_or_break(errors, text.as_bytes());
        return Err(2);
    }
    Ok(text)
}

/// Writes the help or the version to `output`, and returns the status 0. If `output` can't be written, it reports that
/// to `errors`, and returns 3.
pub fn show<O: WriteOnce, E: WriteOnce>(
    name: &[u8],
    text: &[u8],
    output: &mut O,
    errors: &mut E,
) -> u8
    requires name { length name.now ≤ 20 }
    ensures { Shows (writers O.WriteOnce E.WriteOnce) name.now text.now
        (outputs output.old errors.old) result (outputs output.new errors.new) }
{
    match write_text(output, text) {
        Ok(()) => 0,
        Err(Broken) => Failure::Write.report(name, errors),
    }
}
