//! Names and versions.
ghost use Rattle.std.specs.Prelude.{◌≡◌, ◌≤◌, length, IfSome, IfNone};
ghost use Rattle.gtp_session.specs.Steps.{IsTitle};

use arrayvec::ArrayVec;
use go_base::push;
use gtp_wire::is_reply_text;

/// The most bytes of a name or a version.
const MOST_TITLE_BYTES: usize = 200;

/// A name or a version.
pub(crate) type Title = ArrayVec<u8, MOST_TITLE_BYTES>;

/// Returns this text as a name or version, if it can be one.
pub(crate) fn title_of(text: &[u8]) -> Option<Title>
    ensures some { IfSome result (λ title. (title.items ≡ text.now) × IsTitle text.now) }
    ensures none { IfNone result (¬ IsTitle text.now) }
{
    if text.len() > MOST_TITLE_BYTES {
        return None;
    }
    if !is_reply_text(text) {
        return None;
    }
    Some(copy_of(text))
}

/// Returns a copy of the text.
pub(crate) fn copy_of(text: &[u8]) -> Title
    requires { length text.now ≤ 200 }
    ensures { result.items ≡ text.now }
{
    let mut title = ArrayVec::new();
    push(&mut title, text);
    title
}
