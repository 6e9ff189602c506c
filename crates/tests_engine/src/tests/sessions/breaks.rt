//! Conversations in memory whose streams break.
use crate::asserts::{assert_equal, assert_equal_for, some};
use crate::tests::sessions::commands::{KO_INPUT, KO_OUTPUT};
use crate::tests::sessions::memory::{Limited, Pieces, Written};
use crate::tests::sessions::{Call, Talk, assert_comes_to};
use gtp_session::fault::Fault;
use gtp_session::first::First;
use gtp_session::serve::{ServeFault, Served};
use gtp_session::session::Session;
use gtp_session::streams::Counted;
use std::process::Abort;

/// The length of each line of the ko.
const KO_SIZES: &[usize] = &[12, 10, 10, 10, 10, 10, 10, 10, 12, 12, 10, 10];

/// How many bytes the replies to its first lines have, and how many moves the record has after these lines: to none of
/// them, to one, and so on.
static KO_REPLIES: [(usize, usize); 13] = [
    (0, 0),
    (3, 0),
    (6, 1),
    (9, 2),
    (12, 3),
    (15, 4),
    (18, 5),
    (21, 6),
    (37, 6),
    (40, 7),
    (43, 8),
    (46, 9),
    (114, 9),
];

/// How many bytes the replies to the first `lines` lines have, and how many moves the record has after these.
fn ko_after(rt: &impl Abort, lines: usize) -> (&'static [u8], usize) {
    let (bytes, moves) = *some(rt, KO_REPLIES.get(lines));
    (some(rt, KO_OUTPUT.get(..bytes)), moves)
}

/// The line whose reply breaks is executed, and none is read after it.
#[test]
fn a_writer_breaks_after_each_number_of_bytes_and_at_each_flush(rt: HostRuntime) {
    let broken = Err(ServeFault::Write);
    let mut talk = Talk {
        how: Call::Within(1000),
        input: KO_INPUT,
        sizes: KO_SIZES,
        failing: None,
        room: 0,
        step: 7,
        stuck: 0,
        flushes: usize::MAX,
    };
    assert_equal(&rt, KO_OUTPUT.len(), 114);
    let output = KO_OUTPUT;
    for room in 0..output.len() {
        talk.room = room;
        // The entry for no lines is among them, so this is one more than were answered whole.
        let executed = KO_REPLIES.iter().filter(|row| row.0 <= room).count();
        let (session, reads) = assert_comes_to(&rt, "room", &talk, &output[..room], broken);
        assert_equal_for(&rt, room, reads, executed);
        let (_replies, moves) = ko_after(&rt, executed);
        assert_equal_for(&rt, room, session.game().moves().len(), moves);
    }
    talk.how = Call::Serve;
    talk.sizes = &[];
    talk.room = 4096;
    for flushes in 0..12_usize {
        talk.flushes = flushes;
        let (replies, moves) = ko_after(&rt, flushes.saturating_add(1));
        let (session, _reads) = assert_comes_to(&rt, "flush", &talk, replies, broken);
        assert_equal_for(&rt, flushes, session.game().moves().len(), moves);
    }
}

/// Which call runs the engine first, and the sizes of the chunks of the ko.
static CUTS: [(Call, &[usize]); 2] = [(Call::Serve, KO_SIZES), (Call::Within(1000), &[1; 126])];

#[test]
fn a_reader_fails_at_each_line_or_byte_and_the_next_call_goes_on(rt: HostRuntime) {
    assert_equal(&rt, KO_INPUT.len(), 126);
    for (how, sizes) in &CUTS {
        let mut before = 0_usize;
        for failing in 0..=sizes.len() {
            let read = some(&rt, KO_INPUT.get(..before));
            let lines = read.iter().filter(|byte| **byte == b'\n').count();
            let mut taken = Written::new();
            let mut session = Session::new(First);
            let mut pieces = Pieces {
                rest: KO_INPUT,
                sizes,
                turn: 0,
                failing: Some(failing),
            };
            let calls = [
                (*how, Err(ServeFault::Read), lines),
                (Call::Serve, Ok(Served::EndOfInput), 12),
            ];
            for (how, wanted, executed) in calls {
                let mut reader = Counted::new(&mut pieces);
                let mut writer = Counted::new(Limited {
                    taken: &mut taken,
                    room: usize::MAX,
                    step: usize::MAX,
                    stuck: 0,
                    flushes: usize::MAX,
                });
                let answer = how.hold(&mut reader, &mut writer, &mut session);
                let (replies, moves) = ko_after(&rt, executed);
                assert_equal_for(&rt, failing, answer, wanted);
                assert_equal_for(&rt, failing, taken.as_slice(), replies);
                assert_equal_for(&rt, failing, session.game().moves().len(), moves);
                if answer.is_err() {
                    assert_equal_for(&rt, failing, pieces.turn, failing.saturating_add(1));
                }
            }
            before = before.saturating_add(sizes.get(failing).copied().unwrap_or(0));
        }
    }
}

/// A call and its answer, and how many moves the record has after it.
type Called = (Call, Result<Served, ServeFault>, usize);

/// What is shown, the input, the size of its first chunk, how many of the writer's first writes take nothing, the
/// calls, and the output of both.
static TWICE: [(&str, &[u8], usize, usize, [Called; 2], &[u8]); 2] = [
    // The reply that was not taken isn't written again.
    (
        "the next call goes on after a write that took nothing",
        b"1 play b D4\n2 play w E5\n",
        12,
        1,
        [
            (Call::Serve, Err(ServeFault::Write), 1),
            (Call::Serve, Ok(Served::EndOfInput), 2),
        ],
        b"=2\n\n",
    ),
    (
        "each call counts its own genmoves",
        b"genmove b\ngenmove w\ngenmove b\n",
        10,
        0,
        [
            (
                Call::With(1, Fault::Stop(2)),
                Err(ServeFault::TooManyReads),
                1,
            ),
            (Call::With(1, Fault::Stop(2)), Ok(Served::Stopped), 3),
        ],
        b"= A1\n\n= B1\n\n",
    ),
];

#[test]
fn the_next_call_goes_on_and_counts_anew(rt: HostRuntime) {
    for (case, input, size, stuck, calls, output) in &TWICE {
        let mut taken = Written::new();
        let mut session = Session::new(First);
        let sizes = [*size];
        let mut reader = Counted::new(Pieces {
            rest: input,
            sizes: &sizes,
            turn: 0,
            failing: None,
        });
        let mut writer = Counted::new(Limited {
            taken: &mut taken,
            room: 4096,
            step: 100,
            stuck: *stuck,
            flushes: usize::MAX,
        });
        for (how, wanted, moves) in calls {
            let answer = how.hold(&mut reader, &mut writer, &mut session);
            assert_equal_for(&rt, case, answer, *wanted);
            assert_equal_for(&rt, case, session.game().moves().len(), *moves);
        }
        assert_equal_for(&rt, case, taken.as_slice(), output);
    }
}
