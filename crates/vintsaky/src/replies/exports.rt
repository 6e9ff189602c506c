//! The calls of a reader of replies.
ghost use Rattle.std.specs.Prelude.{◌≡◌};
ghost use Rattle.std.specs.Borrow.{full_share, sem};
ghost use Rattle.std.specs.Ptr.{lies_at, room_at};
ghost use base.Fml.{fsep};
ghost use Rattle.std.specs.Align.{type_align};
ghost use Rattle.std.specs.Mem.{type_size};
ghost use Rattle.vintsaky_calls.specs.contracts.replies.Replies.{the_row as replies_row};
ghost use Rattle.vintsaky.specs.contracts.replies.RepliesHandle.{the_row};
ghost use Rattle.vintsaky_calls.specs.Codes.{Returns};
ghost use Rattle.vintsaky_calls.specs.Replies.{fresh_replies, FeedCall, IdCall};
ghost use Rattle.vintsaky_calls.specs.Texts.{Writes};

use crate::replies::RepliesHandle;
use std::mem::{align_of, size_of};
use vintsaky_calls::replies::Replies;
use vintsaky_calls::{code_of, replies};

/// Initialises a reader of replies in the caller's memory, and its handle. It has received nothing.
///
/// # Safety
///
/// The memory must have the size and the alignment that the calls for these return, and must be the object's alone.
/// Neither the memory nor the handle may move as long as the handle is used.
#[unsafe(no_mangle)]
pub unsafe extern "C" fn vintsaky_replies_place(out: *mut RepliesHandle, at: *mut u8)
    requires* { sem 𝓛 (fsep (room_at the_row out) (room_at replies_row at)) }
    ensures* { sem 𝓛
        (lies_at the_row full_share out (record { at = at; value = fresh_replies })) }
{
    let fresh = Replies::new();
    (at as *mut Replies).write(fresh);
    out.write(RepliesHandle { at });
}

/// Returns the size of such a reader in bytes.
#[unsafe(no_mangle)]
pub extern "C" fn vintsaky_replies_bytes() -> usize
    ensures { result ≡ type_size replies_row }
{
    size_of::<Replies>()
}

/// Returns the alignment of such a reader in bytes.
#[unsafe(no_mangle)]
pub extern "C" fn vintsaky_replies_align() -> usize
    ensures { result ≡ type_align replies_row }
{
    align_of::<Replies>()
}

/// Takes the next chunk, up to and including the byte that ends a reply or shows a fault, or all of it. Writes how many
/// bytes were used. Returns 0 if there was no such byte, VINTSAKY_READ for a reply, VINTSAKY_NO_REPLY if the bytes are
/// not a reply, and VINTSAKY_LONG_REPLY if more than 8,192 bytes came since the last reply. After a fault no byte is
/// used, and the same is returned again: place the reader again.
#[unsafe(no_mangle)]
pub extern "C" fn vintsaky_replies_feed(
    replies: &mut RepliesHandle,
    bytes: &[u8],
    used: &mut usize,
) -> u32
    ensures call { FeedCall bytes.now replies.old.value replies.new.value used.new result }
{
    replies::feed(replies.get_mut(), bytes, used)
}

/// Returns whether the reply that was read last is a success: false before the first reply.
#[unsafe(no_mangle)]
pub extern "C" fn vintsaky_replies_ok(replies: &mut RepliesHandle) -> bool
    ensures call { result ≡ replies.old.value.reply.ok }
    ensures object { replies.new.value ≡ replies.old.value }
{
    replies::ok(replies.get_mut())
}

/// Writes the id of the reply that was read last.
///
/// # Errors
///
/// `NoId`, also before the first reply. Nothing is written.
#[unsafe(no_mangle)]
pub extern "C" fn vintsaky_replies_id(replies: &mut RepliesHandle, id: &mut u32) -> u32
    ensures call { Returns result (IdCall replies.old.value.reply id.old id.new) }
    ensures object { replies.new.value ≡ replies.old.value }
{
    code_of(replies::id(replies.get_mut(), id))
}

/// Writes the text of the reply that was read last, and returns its length: 0 before the first reply, and at most
/// 8,192.
#[unsafe(no_mangle)]
pub extern "C" fn vintsaky_replies_text(replies: &mut RepliesHandle, text: &mut [u8]) -> usize
    ensures call { Writes replies.old.value.reply.text.items text.old text.new result }
    ensures object { replies.new.value ≡ replies.old.value }
{
    replies::text(replies.get_mut(), text)
}
