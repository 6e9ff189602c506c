//! Conversations of sans-IO engines, and how they are compared.
use crate::asserts::{assert_equal, assert_true};
use arrayvec::ArrayVec;
use gtp_session::first::First;
use gtp_session::policy::Policy;
use gtp_session::steps::{Event, Steps, StepsFed};
use std::process::Abort;

mod conversations;
mod own_commands;
mod scripts;
mod titles;

/// What an engine has written.
pub type Taken = ArrayVec<u8, 4096>;

/// Adds a reply to what the engine has written.
pub fn take(rt: &impl Abort, taken: &mut Taken, reply: &[u8]) {
    assert_true(rt, taken.try_extend_from_slice(reply).is_ok());
}

/// Feeds the engine a whole chunk. It is supplied the first policy's choices, and each custom command is declined.
pub fn feed_all(rt: &impl Abort, steps: &mut Steps, piece: &[u8], taken: &mut Taken) {
    let mut rest = piece;
    for _ in 0..=piece.len() {
        let StepsFed { used, event } = steps.feed(rest);
        rest = &rest[used..];
        match event {
            Event::More | Event::Ended => return,
            Event::Reply => {}
            Event::Asked(colour) => {
                let choice = First.choose(steps.game(), colour);
                assert_equal(rt, steps.choose(choice), Ok(()));
            }
            Event::Other => assert_equal(rt, steps.decline(), Ok(())),
        }
        take(rt, taken, steps.reply());
    }
}
