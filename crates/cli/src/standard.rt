//! Standard streams that are closed when the program starts.
//!
//! A file or pipe that is opened gets the lowest free descriptor. So one of the program's own would take the place of a
//! closed standard stream, and what is meant for the standard output, say, would go into it.
ghost use Rattle.std.specs.Prelude.{◌≡◌, ◌↔◌, pos, true, false, Some, IsTrue, IsOk};
ghost use Rattle.std.specs.Fs.{asks_read, asks_write, IsValidOptions};
ghost use Rattle.std.specs.IoError.{raw_os_error};

use std::fs::{Files, OpenOptions};
use std::io;
use std::io::{Stderr, Stdin, Stdout};
use std::os::fd::AsFd;

/// The file that takes the place of each closed stream.
const NULL_DEVICE: &str = "/dev/null";

/// The error `EBADF` of a call on a descriptor that is closed. It has the same number on all Unixes.
const NOT_OPEN: i32 = 9;

/// Keeps the descriptors of the closed standard streams in use, as long as it lives.
#[derive(Drop)]
pub struct Held<F: Drop> {
    /// The file at descriptor 0.
    input: Option<F>,
    /// The file at descriptor 1.
    output: Option<F>,
    /// The file at descriptor 2.
    errors: Option<F>,
}

/// Opens the null device in place of each standard stream that is closed, in the wrong direction: for writing at 0, for
/// reading at 1 and 2. So each use of such a stream fails, as it does on a closed descriptor. Call it before the
/// program opens any other file. It opens nothing for a stream that is open.
///
/// # Errors
///
/// If a stream is closed and the null device can't be opened.
pub fn hold_closed<R: Files>(
    files: &R,
    input: Stdin,
    output: Stdout,
    errors: Stderr,
) -> io::Result<Held<R::File>> {
    Ok(Held {
        input: hold(files, &input, &for_writing())?,
        output: hold(files, &output, &for_reading())?,
        errors: hold(files, &errors, &for_reading())?,
    })
}

/// Opens the null device in place of one stream, if that is closed. The lower descriptors are in use, so the file gets
/// this one.
fn hold<R: Files, S: AsFd>(
    files: &R,
    stream: &S,
    options: &OpenOptions,
) -> io::Result<Option<R::File>> {
    if is_closed(stream) {
        Ok(Some(options.open(files, NULL_DEVICE)?))
    } else {
        Ok(None)
    }
}

/// Returns whether the descriptor of a stream is closed: then it can't be duplicated.
fn is_closed<S: AsFd>(stream: &S) -> bool {
    match stream.as_fd().try_clone_to_owned() {
        Ok(_copy) => false,
        Err(error) => says_not_open(&error),
    }
}

/// Returns whether an error says that a descriptor is closed.
fn says_not_open(error: &io::Error) -> bool
    ensures { IsTrue result ↔ (raw_os_error error.now ≡ Some (pos 9)) }
{
    error.raw_os_error() == Some(NOT_OPEN)
}

/// Options that open a file only for writing.
fn for_writing() -> OpenOptions
    ensures writes { asks_write result ≡ true }
    ensures reads { asks_read result ≡ false }
    ensures valid { IsValidOptions result }
{
    let mut options = OpenOptions::new();
    options.write(true);
    options
}

/// Options that open a file only for reading.
fn for_reading() -> OpenOptions
    ensures reads { asks_read result ≡ true }
    ensures writes { asks_write result ≡ false }
    ensures valid { IsValidOptions result }
{
    let mut options = OpenOptions::new();
    options.read(true);
    options
}
