//! Writing commands and replies.
ghost use Rattle.vintsaky_calls.specs.Codes.{Returns};
ghost use Rattle.vintsaky_calls.specs.Writing.{WriteCommandCall, WriteReplyCall};

use vintsaky_calls::{code_of, writing};

/// Writes the line of a command with its newline, at most 64 bytes, and its length.
///
/// An id of -1 means none. `value` is the size of `boardsize`, the half points of `komi`, the number of stones of
/// `fixed_handicap`, or the colour of `play` and `genmove`; `vertex` is that of `play`. An argument that the command
/// doesn't have is ignored.
///
/// # Errors
///
/// `BadId`, `BadCommand`, `BadSize`, `BadKomi`, `BadHandicap` (only for a negative number), `BadColour` or `BadVertex`,
/// the first of these that applies. Nothing is written.
#[unsafe(no_mangle)]
pub extern "C" fn vintsaky_write_command(
    id: i32,
    command: u32,
    value: i32,
    vertex: u32,
    text: &mut [u8],
    count: &mut usize,
) -> u32
    ensures call { Returns result (WriteCommandCall id command value vertex text.old text.new
        count.old count.new) }
{
    code_of(writing::write_command(id, command, value, vertex, text, count))
}

/// Writes a reply, at most 2,014 bytes, and its length: a success if `ok` isn't 0, else a failure. An id of -1 means
/// none. The text may have up to 2,000 bytes, each a newline or one of 32 to 126, without two newlines in a row, and
/// without a space or newline at its beginning or end.
///
/// # Errors
///
/// `BadId`, or else `BadText` if the text isn't allowed in a reply. Nothing is written.
#[unsafe(no_mangle)]
pub extern "C" fn vintsaky_write_reply(
    id: i32,
    ok: u32,
    said: &[u8],
    text: &mut [u8],
    count: &mut usize,
) -> u32
    ensures call { Returns result (WriteReplyCall id ok said.now text.old text.new
        count.old count.new) }
{
    code_of(writing::write_reply(id, ok, said, text, count))
}
