//! Replies, and how they are written.
ghost use Rattle.std.specs.Prelude.{◌≡◌, ℕ, ◌+◌, ◌<◌, ◌≤◌, false, [], ◌++◌, length, None, IfSome};
ghost use Rattle.arrayvec.specs.ArrayVec.{array_vec_len};
ghost use Rattle.go_base.specs.Int.{most_int};
ghost use Rattle.gtp_wire.specs.Replies.{IsReply, IsReplyText, most_text_bytes, written_reply, written_id, spaced};
ghost use Rattle.gtp_wire.specs.declared.replies.Reply.{Reply};

use arrayvec::ArrayVec;
use go_base::{push, write_int};

/// The most bytes of a reply that is read, what is removed and skipped included.
pub(crate) const MOST_REPLY_BYTES: usize = 8192;

/// The most bytes of what an engine wrote that are shown.
pub const MOST_SHOWN: usize = 80;

/// What an engine answered to a command.
#[derive(Debug, Drop)]
pub struct Reply {
    /// Whether the command succeeded: the reply begins with `=` if it did, and with `?` if it failed.
    pub ok: bool,
    /// The id, an integer of the protocol, if the reply has one.
    pub id: Option<u32>,
    /// The text without the spaces around it. Its lines are separated by single newlines.
    pub text: ArrayVec<u8, MOST_REPLY_BYTES>,
}

impl Reply {
    /// A failure with no id and an empty text, for a reader to overwrite.
    pub fn new() -> Self
        ensures ok { result.ok ≡ false }
        ensures id { result.id ≡ None }
        ensures text { result.text.items ≡ [] }
    {
        Reply {
            ok: false,
            id: None,
            text: ArrayVec::new(),
        }
    }
}

impl Default for Reply {
    ghost is_default = { λ r. r ≡ record { ok = false; id = None; text = record { items = [] } } };

    fn default() -> Self {
        Reply::new()
    }
}

/// Why bytes are not a reply. Each byte is checked for these in this order.
#[derive(Clone, Copy, Debug, PartialEq, Eq)]
pub enum ReplyFault {
    /// More than 8,192 bytes arrived since the last reply.
    Overlong,
    /// The first byte after the spaces and newlines before a reply is neither `=` nor `?`.
    NoStatus,
}

/// The bytes of a written reply.
pub type ReplyText = ArrayVec<u8, REPLY_ROOM>;

/// The most bytes of the text of a written reply.
pub(crate) const MOST_TEXT_BYTES: usize = 2000;

/// The capacity for a status, an id, a space, a text and two newlines.
const REPLY_ROOM: usize = 2048;

/// The most bytes of a status and an id.
const MOST_FRONT_BYTES: usize = 11;

/// Writes a reply: `=` for success or `?` for failure, the id if there is one, a space and the text unless it is empty,
/// and two newlines.
///
/// The id must be an integer of the protocol. The text must have at most 2,000 bytes, each a newline or 32 to 126,
/// without two newlines in a row, and may neither begin nor end with a space or a newline.
pub fn write_reply(ok: bool, id: Option<u32>, text: &[u8]) -> ReplyText
    requires id_fits { IfSome id (λ n. n ≤ most_int) }
    requires text_fits { IsReplyText text.now }
    ensures bytes { result.items ≡ written_reply ok id text.now }
    // The bytes are one reply, with this status, id and text.
    ensures reply { (value : Reply) → value.ok ≡ ok → value.id ≡ id → value.text.items ≡ text.now →
        IsReply result.items value }
{
    let mut out = ArrayVec::new();
    write_reply_into(&mut out, ok, id, text);
    out
}

/// Writes a reply to `out` as `write_reply` does, replacing what was there. If the text has more than 2,000 bytes,
/// `out` is empty afterwards.
pub fn write_reply_into(out: &mut ReplyText, ok: bool, id: Option<u32>, text: &[u8])
    ensures bytes { length text.now ≤ most_text_bytes →
        out.new.items ≡ written_reply ok id text.now }
    ensures nothing { most_text_bytes < length text.now → out.new.items ≡ [] }
    // If a reply may have this id and text, the bytes are one reply, with this status, id and text.
    ensures reply { IfSome id (λ n. n ≤ most_int) → IsReplyText text.now →
        (value : Reply) → value.ok ≡ ok → value.id ≡ id → value.text.items ≡ text.now →
        IsReply out.new.items value }
{
    if text.len() > MOST_TEXT_BYTES {
        out.clear();
        return;
    }
    put_reply(out, ok, id, text);
}

/// Replaces what `out` holds by the bytes of the reply.
fn put_reply(out: &mut ReplyText, ok: bool, id: Option<u32>, text: &[u8])
    requires { length text.now ≤ most_text_bytes }
    ensures { out.new.items ≡ written_reply ok id text.now }
{
    out.clear();
    out.push(if ok { b'=' } else { b'?' });
    push_id(out, id);
    push_text(out, text);
    out.push(b'\n');
    out.push(b'\n');
}

/// Appends the id, if there is one.
fn push_id(out: &mut ReplyText, id: Option<u32>)
    requires { array_vec_len out.old ≤ 1 }
    ensures bytes { out.new.items ≡ out.old.items ++ written_id id }
    ensures len { array_vec_len out.new ≤ MOST_FRONT_BYTES }
{
    if let Some(id) = id {
        push(out, &write_int(id));
    }
}

/// Appends a space and the text, unless the text is empty.
fn push_text(out: &mut ReplyText, text: &[u8])
    requires { array_vec_len out.old + length text.now + 3 ≤ REPLY_ROOM }
    ensures bytes { out.new.items ≡ out.old.items ++ spaced text.now }
    ensures len { array_vec_len out.new + 2 ≤ REPLY_ROOM }
{
    if !text.is_empty() {
        out.push(b' ');
        push(out, text);
    }
}
