//! A reply that runs on into the next one, because it doesn't end with an empty line.
ghost use Rattle.std.specs.Prelude.{◌≡◌};
ghost use Rattle.gtp_check_texts.specs.reasons.RunOn.{begins_id, begins_reply, has_later_id, has_later_reply};
ghost use Rattle.gtp_check_texts.specs.reasons.RunOn.{id_that_came, is_later, is_mark, runs_on};

use go_base::{read_int, split_digits};
use gtp_check_judge::Kind;
use gtp_check_talk::{Fault, line_len};

/// Returns whether a reply may have run on, after `answered` of `asked` commands were answered, with this fault and
/// this output.
///
/// Then the reply that came is for a later command, or the second line of the output begins as a reply does.
pub fn runs_on(fault: Fault, answered: usize, asked: usize, wrote: &[u8]) -> bool
    ensures { result ≡ runs_on fault answered asked wrote.now }
{
    has_later_id(fault, answered, asked, wrote) || has_later_reply(wrote)
}

/// Returns whether the reply that came is for a later command.
fn has_later_id(fault: Fault, answered: usize, asked: usize, wrote: &[u8]) -> bool
    ensures { result ≡ has_later_id fault answered asked wrote.now }
{
    match fault {
        Fault::Wrote(Kind::WrongId) => is_later(answered, asked, id_that_came(wrote)),
        _ => false,
    }
}

/// Returns whether this is the id of a command after the one that should have been answered, among those that were
/// asked.
fn is_later(answered: usize, asked: usize, id: Option<u32>) -> bool
    ensures { result ≡ is_later answered asked id }
{
    match id {
        Some(id) => answered < (id as usize).saturating_sub(1) && id as usize <= asked,
        None => false,
    }
}

/// Returns the id of the reply that a text begins with, if it has one.
fn id_that_came(wrote: &[u8]) -> Option<u32>
    ensures { result ≡ id_that_came wrote.now }
{
    read_int(split_digits(&wrote[1.min(wrote.len())..]).0)
}

/// Returns whether the line after the first one begins as a reply with an id does.
fn has_later_reply(wrote: &[u8]) -> bool
    ensures { result ≡ has_later_reply wrote.now }
{
    let next = line_len(wrote) + 1;
    begins_reply(&wrote[next.min(wrote.len())..])
}

/// Returns whether a text begins as a reply with an id does: with = or ?, and a digit.
fn begins_reply(text: &[u8]) -> bool
    ensures { result ≡ begins_reply text.now }
{
    match text {
        [mark, more @ ..] => is_mark(*mark) && begins_id(more),
        [] => false,
    }
}

/// Returns whether a text begins with a digit.
fn begins_id(text: &[u8]) -> bool
    ensures { result ≡ begins_id text.now }
{
    match text {
        [digit, ..] => digit.is_ascii_digit(),
        [] => false,
    }
}

/// Returns whether a byte begins a reply.
fn is_mark(byte: u8) -> bool
    ensures { result ≡ is_mark byte }
{
    byte == b'=' || byte == b'?'
}
