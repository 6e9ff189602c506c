//! The texts that a reply may have.
ghost use Rattle.std.specs.Prelude.{◌≡◌, ◌↔◌, IsTrue, reverse};
ghost use Rattle.std.specs.List.{list_all};
ghost use Rattle.gtp_wire.specs.Replies.{IsReplyText, is_shown, has_two_newlines, begins_blank};
ghost use Rattle.gtp_wire.specs.private.ReplyReading.{begins_newline};

use crate::bytes::is_blank;
use crate::replies::MOST_TEXT_BYTES;

/// Whether a reply may have this text: at most 2,000 bytes, each a newline or 32 to 126, without two newlines in a row,
/// and with neither a space nor a newline at the beginning or the end.
pub fn is_reply_text(text: &[u8]) -> bool
    ensures { IsTrue result ↔ IsReplyText text.now }
{
    if text.len() > MOST_TEXT_BYTES {
        return false;
    }
    if !all_shown(text) {
        return false;
    }
    if has_two_newlines(text) {
        return false;
    }
    if begins_blank(text) {
        return false;
    }
    !ends_blank(text)
}

/// Whether a reply's text may have all these bytes.
fn all_shown(text: &[u8]) -> bool
    ensures { result ≡ list_all is_shown text.now }
{
    text.iter().all(|byte| is_shown(*byte))
}

/// Whether a reply's text may have this byte.
fn is_shown(byte: u8) -> bool
    ensures { result ≡ is_shown byte }
{
    byte == b'\n' || (b' ' <= byte && byte <= b'~')
}

/// Whether the text has two newlines in a row.
fn has_two_newlines(text: &[u8]) -> bool
    ensures { result ≡ has_two_newlines text.now }
{
    let mut rest = text;
    while let [first, more @ ..] = rest {
        if *first == b'\n' && begins_newline(more) {
            return true;
        }
        rest = more;
    }
    false
}

/// Whether the text begins with a newline.
fn begins_newline(text: &[u8]) -> bool
    ensures { result ≡ begins_newline text.now }
{
    match text {
        [first, ..] => *first == b'\n',
        [] => false,
    }
}

/// Whether the text begins with a space or a newline.
fn begins_blank(text: &[u8]) -> bool
    ensures { result ≡ begins_blank text.now }
{
    match text {
        [first, ..] => is_blank(*first),
        [] => false,
    }
}

/// Whether the text ends with a space or a newline.
fn ends_blank(text: &[u8]) -> bool
    ensures { result ≡ begins_blank (reverse text.now) }
{
    match text {
        [.., last] => is_blank(*last),
        [] => false,
    }
}
