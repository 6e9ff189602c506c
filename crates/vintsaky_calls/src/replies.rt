//! The calls of a reader of replies.
ghost use Rattle.std.specs.Prelude.{◌≡◌};
ghost use Rattle.vintsaky_calls.specs.Replies.{fresh_replies, FeedCall, IdCall};
ghost use Rattle.vintsaky_calls.specs.Texts.{Writes};

use crate::causes::Cause;
use crate::texts::put;
use gtp_wire::{Reply, ReplyFault, ReplyReader};

/// A reader of replies, and the reply that it read last.
#[derive(Drop)]
pub struct Replies {
    /// What it has received and not read yet.
    pub reader: ReplyReader,
    /// The reply that was read last. Before the first it is a failure without id and text.
    pub reply: Reply,
}

impl Replies {
    /// A reader that has received nothing.
    pub fn new() -> Replies
        ensures { result ≡ fresh_replies }
    {
        Replies {
            reader: ReplyReader::new(),
            reply: Reply::new(),
        }
    }
}

/// Implements `vintsaky_replies_feed`.
pub fn feed(replies: &mut Replies, bytes: &[u8], used: &mut usize) -> u32
    ensures { FeedCall bytes.now replies.old replies.new used.new result }
{
    let read = replies.reader.feed_into(bytes, &mut replies.reply);
    *used = read.used;
    match read.got {
        None => 0,
        Some(Ok(())) => 1,
        Some(Err(ReplyFault::NoStatus)) => 2,
        Some(Err(ReplyFault::Overlong)) => 3,
    }
}

/// Implements `vintsaky_replies_ok`.
pub fn ok(replies: &Replies) -> bool
    ensures { result ≡ replies.now.reply.ok }
{
    replies.reply.ok
}

/// Implements `vintsaky_replies_id`.
pub fn id(replies: &Replies, id: &mut u32) -> Result<(), Cause>
    ensures { IdCall replies.now.reply id.old id.new result }
{
    *id = replies.reply.id.ok_or(Cause::NoId)?;
    Ok(())
}

/// Implements `vintsaky_replies_text`.
pub fn text(replies: &Replies, text: &mut [u8]) -> usize
    ensures { Writes replies.now.reply.text.items text.old text.new result }
{
    put(&replies.reply.text, text)
}
