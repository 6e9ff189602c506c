//! The library itself: its interface, its version, and the texts of its errors.
ghost use Rattle.std.specs.Prelude.{◌≡◌};
ghost use Rattle.vintsaky_calls.specs.Library.{library_version, CauseTextCall};

use vintsaky_calls::library;

/// Does nothing. A program that refers to it can be linked only with a library of this interface.
#[unsafe(no_mangle)]
pub extern "C" fn vintsaky_interface_1() {}

/// Returns the version of the library: see VINTSAKY_VERSION.
#[unsafe(no_mangle)]
pub extern "C" fn vintsaky_version() -> u32
    ensures { result ≡ library_version }
{
    library::version()
}

/// Writes the sentence that explains an error, and returns its length. Every number has one, even 0 and unknown ones.
#[unsafe(no_mangle)]
pub extern "C" fn vintsaky_cause_text(cause: u32, text: &mut [u8]) -> usize
    ensures call { CauseTextCall cause text.old text.new result }
{
    library::cause_text(cause, text)
}
