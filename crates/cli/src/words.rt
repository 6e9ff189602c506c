//! The arguments of the program.
ghost use Rattle.std.specs.Prelude.{◌≡◌, true, false};
ghost use Rattle.cli.specs.Status.{IsRequest};

use clap::error::ErrorKind;
use std::alloc::Alloc;
use std::env::Env;
use std::{env, io};

/// Returns the program's name and its arguments, in their order.
///
/// # Errors
///
/// `OutOfMemory` if memory can't be allocated, or `InvalidData` if an argument isn't UTF-8.
pub fn arguments<R: Env + Alloc>(rt: &R) -> io::Result<Vec<String<R::A>, R::A>> {
    Ok(env::args(rt)?.collect(rt.alloc())?)
}

/// Returns whether an error of `clap` is a request for the help or the version, and not a usage error.
pub fn is_request(kind: ErrorKind) -> bool
    ensures yes { result ≡ true → IsRequest kind }
    ensures no { result ≡ false → ¬ IsRequest kind }
{
    matches!(kind, ErrorKind::DisplayHelp | ErrorKind::DisplayVersion)
}
