//! The calls of a reader of command lines.
ghost use Rattle.std.specs.Prelude.{◌≡◌};
ghost use Rattle.std.specs.Borrow.{full_share, sem};
ghost use Rattle.std.specs.Ptr.{lies_at, room_at};
ghost use base.Fml.{fsep};
ghost use Rattle.gtp_wire.specs.declared.lines.Line.TheVariants as line;
ghost use Rattle.std.specs.Align.{type_align};
ghost use Rattle.std.specs.Mem.{type_size};
ghost use Rattle.vintsaky_calls.specs.contracts.lines.Lines.{the_row as lines_row};
ghost use Rattle.vintsaky.specs.contracts.lines.LinesHandle.{the_row};
ghost use Rattle.vintsaky_calls.specs.Codes.{Returns};
ghost use Rattle.vintsaky_calls.specs.Lines.{fresh_lines, FeedCall, IdCall, WordCall};

use crate::lines::LinesHandle;
use std::mem::{align_of, size_of};
use vintsaky_calls::lines::Lines;
use vintsaky_calls::{code_of, lines};

/// Initialises a reader of command lines in the caller's memory, and its handle. It has received nothing.
///
/// # Safety
///
/// The memory must have the size and the alignment that the calls for these return, and must be the object's alone.
/// Neither the memory nor the handle may move as long as the handle is used.
#[unsafe(no_mangle)]
pub unsafe extern "C" fn vintsaky_lines_place(out: *mut LinesHandle, at: *mut u8)
    requires* { sem 𝓛 (fsep (room_at the_row out) (room_at lines_row at)) }
    ensures* { sem 𝓛
        (lies_at the_row full_share out (record { at = at; value = fresh_lines })) }
{
    let fresh = Lines::new();
    (at as *mut Lines).write(fresh);
    out.write(LinesHandle { at });
}

/// Returns the size of such a reader in bytes.
#[unsafe(no_mangle)]
pub extern "C" fn vintsaky_lines_bytes() -> usize
    ensures { result ≡ type_size lines_row }
{
    size_of::<Lines>()
}

/// Returns the alignment of such a reader in bytes.
#[unsafe(no_mangle)]
pub extern "C" fn vintsaky_lines_align() -> usize
    ensures { result ≡ type_align lines_row }
{
    align_of::<Lines>()
}

/// Takes the next chunk, up to and including the newline that ends a line with a word, or all of it. Writes how many
/// bytes were used. Returns 0 if no such line ended, VINTSAKY_LINE for a command line, and VINTSAKY_TOO_LONG for a line
/// whose words, joined by single spaces, have more than 1,000 bytes.
#[unsafe(no_mangle)]
pub extern "C" fn vintsaky_lines_feed(
    lines: &mut LinesHandle,
    bytes: &[u8],
    used: &mut usize,
) -> u32
    ensures call { FeedCall bytes.now lines.old.value lines.new.value used.new result }
{
    lines::feed(lines.get_mut(), bytes, used)
}

/// Writes the id of the line that was read last.
///
/// # Errors
///
/// `NoLine` if none was read or it was too long, or else `NoId`. Nothing is written.
#[unsafe(no_mangle)]
pub extern "C" fn vintsaky_lines_id(lines: &mut LinesHandle, id: &mut u32) -> u32
    ensures call { Returns result (IdCall lines.old.value.line id.old id.new) }
    ensures object { lines.new.value ≡ lines.old.value }
{
    code_of(lines::id(lines.get_mut(), id))
}

/// Writes a word of the line that was read last, counted from 0 after the id, and its length: at most 1,000 bytes.
///
/// # Errors
///
/// `NoLine` if none was read or it was too long, or else `NoWord`. Nothing is written.
#[unsafe(no_mangle)]
pub extern "C" fn vintsaky_lines_word(
    lines: &mut LinesHandle,
    number: usize,
    text: &mut [u8],
    count: &mut usize,
) -> u32
    ensures call { Returns result (WordCall lines.old.value.line number text.old text.new
        count.old count.new) }
    ensures object { lines.new.value ≡ lines.old.value }
{
    code_of(lines::word(lines.get_mut(), number, text, count))
}
