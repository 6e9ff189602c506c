//! Custom commands.
use crate::asserts::{assert_equal, assert_equal_for, assert_true, some};
use arrayvec::ArrayVec;
use go_board::KoRule;
use gtp_session::steps::{CommandFault, Event, Steps, StepsFed};
use gtp_wire::ReplyReader;
use std::process::Abort;

/// How many bytes the list of the commands has, and how many newlines. It is one reply.
fn listed(rt: &impl Abort, steps: &mut Steps) -> (usize, usize) {
    let fed = StepsFed {
        used: 25,
        event: Event::Reply,
    };
    assert_equal(rt, steps.feed(b"2147483647 list_commands\n"), fed);
    let read = ReplyReader::new().feed(steps.reply());
    assert_equal(rt, read.used, steps.reply().len());
    let reply = some(rt, some(rt, read.got).ok());
    assert_equal(rt, reply.id, Some(2147483647));
    let newlines = reply.text.iter().filter(|byte| **byte == b'\n').count();
    (reply.text.len(), newlines)
}

#[test]
fn the_longest_list_is_one_reply(rt: HostRuntime) {
    let mut steps = Steps::new(KoRule::Simple);
    let (bytes, newlines) = listed(&rt, &mut steps);
    let letters = [b'~'; 31];
    for last in b'A'..b'a' {
        let mut name: ArrayVec<u8, 32> = ArrayVec::new();
        assert_true(&rt, name.try_extend_from_slice(&letters).is_ok());
        assert_true(&rt, name.try_push(last).is_ok());
        assert_equal_for(&rt, last, steps.add_command(&name), Ok(()));
    }
    let one_more = steps.add_command(b"one-more");
    assert_equal(&rt, one_more, Err(CommandFault::TooMany));
    let longest = listed(&rt, &mut steps);
    assert_equal(&rt, longest.0, bytes.saturating_add(32 * 33));
    assert_equal(&rt, longest.1, newlines.saturating_add(32));
}
