//! Rulings, and the reasons that they may have.
ghost use Rattle.std.specs.Prelude.{◌≡◌, ◌↔◌, ◌≤◌, IsTrue, length};
ghost use Rattle.std.specs.List.{list_all};
ghost use Rattle.gtp_match.specs.referee.Ruling.{IsReason, most_reason, is_reason_byte, is_forfeit_text, reason_in};

use arrayvec::ArrayVec;
use go_base::{Side, push};
use thiserror::Error;

/// The most bytes of a reason.
pub(crate) const MOST_REASON_BYTES: usize = 20;

/// The bytes of a reason.
pub type ReasonText = ArrayVec<u8, MOST_REASON_BYTES>;

/// Why a side loses by a ruling.
#[derive(Drop)]
pub enum Ruling {
    /// It ran out of time.
    Time,
    /// It loses for this reason: 1 to 20 letters and spaces. The reasons for which a match itself lets a side forfeit
    /// aren't allowed.
    Reason(ReasonText),
}

impl Ruling {
    /// The reason, or an empty text if the side ran out of time.
    pub(crate) fn reason(&self) -> &[u8]
        ensures { result.now ≡ reason_in self.now }
    {
        match self {
            Ruling::Time => &[],
            Ruling::Reason(kept) => kept,
        }
    }
}

/// A ruling by which a side loses.
#[derive(Drop)]
pub struct Ruled {
    /// The side that loses.
    pub loser: Side,
    /// Why it loses.
    pub ruling: Ruling,
}

/// Why a ruling is rejected, in the order of checking.
#[derive(Clone, Copy, PartialEq, Eq, Debug, Drop, Error)]
pub enum RulingFault {
    /// The match is over, by its own verdict or by an earlier ruling.
    #[error("the match is over")]
    Over,
    /// The reason isn't 1 to 20 letters and spaces, or it is the reason of a forfeit.
    #[error("the reason is not 1 to 20 letters (a-z, A-Z) and spaces, or a match itself gives it for a forfeit")]
    BadReason,
}

/// Whether a text may be the reason of a ruling: 1 to 20 bytes, each a letter from `a` to `z` or `A` to `Z` or a space.
/// The texts `refused play`, `no move`, `no vertex` and `illegal move` aren't allowed.
pub(crate) fn is_reason(text: &[u8]) -> bool
    ensures { IsTrue result ↔ IsReason text.now }
{
    if text.is_empty() {
        return false;
    }
    if text.len() > MOST_REASON_BYTES {
        return false;
    }
    if !has_reason_bytes(text) {
        return false;
    }
    !is_forfeit_text(text)
}

/// Whether all these bytes are allowed in a reason.
fn has_reason_bytes(text: &[u8]) -> bool
    ensures { result ≡ list_all is_reason_byte text.now }
{
    text.iter().all(|byte| is_reason_byte(*byte))
}

/// Whether the byte is allowed in a reason: a letter or a space.
fn is_reason_byte(byte: u8) -> bool
    ensures { result ≡ is_reason_byte byte }
{
    byte == b' ' || (b'a' <= byte && byte <= b'z') || (b'A' <= byte && byte <= b'Z')
}

/// Whether the text is a reason for which a match itself lets a side forfeit.
fn is_forfeit_text(text: &[u8]) -> bool
    ensures { result ≡ is_forfeit_text text.now }
{
    text == b"refused play".as_slice()
        || text == b"no move".as_slice()
        || text == b"no vertex".as_slice()
        || text == b"illegal move".as_slice()
}

/// A reason of these bytes.
pub(crate) fn kept_reason(text: &[u8]) -> ReasonText
    requires { length text.now ≤ most_reason }
    ensures { result.items ≡ text.now }
{
    let mut kept = ArrayVec::new();
    push(&mut kept, text);
    kept
}
