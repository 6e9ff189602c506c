//! Texts that are made of parts.
ghost use Rattle.std.specs.Prelude.{◌≡◌, ◌++◌, OnOk};
ghost use Rattle.gtp_check_texts.specs.Texts.{joined, text_if};

use std::alloc::AllocError;

/// Returns a text if `is_so`, and otherwise nothing.
pub(crate) fn text_if(is_so: bool, text: &'static [u8]) -> &'static [u8]
    ensures { result.now ≡ text_if is_so text.entry.now }
{
    if is_so { text } else { b"" }
}

/// Appends texts, one after the other.
///
/// # Errors
///
/// If memory can't be allocated.
pub fn add_all(text: &mut Vec<u8>, parts: &[&[u8]]) -> Result<(), AllocError>
    ensures { OnOk result (text.new.items ≡ text.old.items ++ joined parts.now) }
{
    for part in parts {
        text.extend_from_slice(part)?;
    }
    Ok(())
}
