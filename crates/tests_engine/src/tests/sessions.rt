//! Conversations in memory, and how they are compared.
use crate::asserts::assert_equal_for;
use gtp_session::fault::Fault;
use gtp_session::first::First;
use gtp_session::policy::Policy;
use gtp_session::serve::{ServeFault, Served, serve, serve_with, serve_within};
use gtp_session::session::Session;
use gtp_session::streams::{Counted, Incoming, Outgoing};
use memory::{Limited, Pieces, Written};
use std::process::Abort;

mod breaks;
pub mod commands;
mod conversations;
mod faults;
mod memory;
mod policies;
mod replies;

/// Which call runs an engine.
#[derive(Clone, Copy, Debug, PartialEq, Eq, Drop)]
pub enum Call {
    Serve,
    /// With at most this many reads.
    Within(u32),
    /// With at most this many reads, and a fault.
    With(u32, Fault),
}

impl Call {
    /// Has the session answer what the reader gives.
    pub fn hold<R: Incoming, W: Outgoing, P: Policy>(
        self,
        reader: &mut R,
        writer: &mut W,
        session: &mut Session<P>,
    ) -> Result<Served, ServeFault> {
        match self {
            Call::Serve => serve(reader, writer, session),
            Call::Within(reads) => serve_within(reader, writer, session, reads),
            Call::With(reads, fault) => serve_with(reader, writer, session, reads, fault),
        }
    }
}

/// A conversation with a fresh engine with the first policy.
#[derive(Clone, Copy)]
pub struct Talk<'a> {
    pub how: Call,
    pub input: &'a [u8],
    /// The sizes of the first chunks of the input; the rest comes as one.
    pub sizes: &'a [usize],
    /// The read of this number fails.
    pub failing: Option<usize>,
    /// The writer takes this many bytes, at most `step` of them in a write and none in the first `stuck` writes. After
    /// that it fails, as does each flush after the first `flushes`.
    pub room: usize,
    pub step: usize,
    pub stuck: usize,
    pub flushes: usize,
}

/// Asserts that the conversation gives this output and this answer. Returns the session and the number of reads.
pub fn assert_comes_to(
    rt: &impl Abort,
    case: &str,
    talk: &Talk,
    output: &[u8],
    answer: Result<Served, ServeFault>,
) -> (Session<First>, usize) {
    let mut taken = Written::new();
    let mut session = Session::new(First);
    let mut pieces = Pieces {
        rest: talk.input,
        sizes: talk.sizes,
        turn: 0,
        failing: talk.failing,
    };
    let mut reader = Counted::new(&mut pieces);
    let mut writer = Counted::new(Limited {
        taken: &mut taken,
        room: talk.room,
        step: talk.step,
        stuck: talk.stuck,
        flushes: talk.flushes,
    });
    let got = talk.how.hold(&mut reader, &mut writer, &mut session);
    let cuts = (talk.sizes.len(), talk.sizes.first().copied());
    let place = (case, talk.how, cuts, talk.room);
    assert_equal_for(rt, place, got, answer);
    assert_equal_for(rt, place, taken.as_slice(), output);
    let ended = answer == Ok(Served::Quit);
    assert_equal_for(rt, place, session.ended(), ended);
    (session, pieces.turn)
}

/// The sizes of chunks of one byte each.
static BYTES: [usize; 512] = [1; 512];

/// Asserts that the engine, called like this, answers the input with this output and ends so, whether the input comes
/// byte by byte, in any two chunks, or in one.
pub fn assert_serves_in_any_cuts(
    rt: &impl Abort,
    case: &str,
    how: Call,
    input: &[u8],
    output: &[u8],
    served: Served,
) {
    for first in 0..=input.len() {
        let two = [first];
        let sizes: &[usize] = if first == 0 { &BYTES } else { &two };
        let talk = Talk {
            how,
            input,
            sizes,
            failing: None,
            room: 16384,
            step: 100,
            stuck: 0,
            flushes: usize::MAX,
        };
        let _ = assert_comes_to(rt, case, &talk, output, Ok(served));
    }
}
