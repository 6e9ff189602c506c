//! Conversations from the bytes in to the bytes out, what `serve` returns, and the game that it leaves.
use crate::asserts::{assert_equal, assert_equal_for};
use crate::tests::board::{new_game, play_all};
use crate::tests::sessions::memory::{Reporting, Waiting};
use crate::tests::sessions::{Call, Talk, assert_comes_to};
use gtp_session::fault::Fault;
use gtp_session::first::First;
use gtp_session::serve::{ServeFault, Served};
use gtp_session::session::Session;
use gtp_session::streams::Counted;
use std::cell::Cell;
use std::rc::Rc;
use std::test::Fail;

/// Which call runs an engine, and its input.
type Asked = (Call, &'static [u8]);

/// The sizes of the chunks, the number of the read that fails, how many bytes the writer takes, how many in a write,
/// and how many of its first writes take none.
type Streams = (&'static [usize], Option<usize>, usize, usize, usize);

/// The output, the answer, the moves that were made, and how many reads there were.
type Outcome = (
    &'static [u8],
    Result<Served, ServeFault>,
    &'static str,
    usize,
);

/// One chunk, and a writer that takes everything.
const WHOLE: Streams = (&[], None, 16384, 100, 0);

/// What is shown, and the conversation.
static TALKS: [(&str, Asked, Streams, Outcome); 13] = [
    (
        "nothing is executed after a writer that breaks",
        (Call::Serve, b"1 name\n2 quit\n"),
        (&[], None, 3, 100, 0),
        (b"=1 ", Err(ServeFault::Write), "", 1),
    ),
    (
        "no read is allowed",
        (Call::Within(0), b"name\n"),
        WHOLE,
        (b"", Err(ServeFault::TooManyReads), "", 0),
    ),
    (
        "a read that fails ends the conversation",
        (Call::Serve, b"name\nquit\n"),
        (&[], Some(0), 4096, 100, 0),
        (b"", Err(ServeFault::Read), "", 1),
    ),
    (
        "nothing is read after quit",
        (Call::Serve, b"name\nquit\nname\n"),
        (&[10], Some(1), 4096, 100, 0),
        (b"= stepgo\n\n=\n\n", Ok(Served::Quit), "", 1),
    ),
    (
        "comments and control characters in a play",
        (Call::Serve, b"# a game\n\t\n3\tpl\x01ay b D4 # corner\r\n"),
        WHOLE,
        (b"=3\n\n", Ok(Served::EndOfInput), "bD4", 2),
    ),
    (
        "an unfinished play is not executed",
        (Call::Serve, b"play b D1"),
        WHOLE,
        (b"", Ok(Served::EndOfInput), "", 2),
    ),
    (
        "a play whose reply breaks was made, and the next was not",
        (Call::Serve, b"1 play b A1\n2 play b B1\n"),
        (&[], None, 3, 100, 0),
        (b"=1\n", Err(ServeFault::Write), "bA1", 1),
    ),
    (
        "a write that takes nothing is a write fault",
        (Call::Serve, b"play b D4\nplay w E5\n"),
        (&[10], None, 4096, 100, usize::MAX),
        (b"", Err(ServeFault::Write), "bD4", 1),
    ),
    (
        "nothing is executed after a stop",
        (
            Call::With(10, Fault::Stop(1)),
            b"genmove b\nplay w D4\nquit\n",
        ),
        WHOLE,
        (b"", Ok(Served::Stopped), "bA1", 1),
    ),
    (
        "nothing is read after a stop",
        (Call::With(10, Fault::Stop(1)), b"genmove b\nname\n"),
        (&[10], Some(1), 4096, 100, 0),
        (b"", Ok(Served::Stopped), "bA1", 1),
    ),
    (
        "nothing is read after a cut",
        (Call::With(10, Fault::Cut(1, 2)), b"genmove b\nname\n"),
        (&[10], Some(1), 4096, 100, 0),
        (b"= ", Ok(Served::Stopped), "bA1", 1),
    ),
    (
        "a writer breaks in a flood",
        (Call::With(10, Fault::Flood(1)), b"genmove b\nplay w D4\n"),
        (&[], None, 4001, 7, 0),
        (&[b'\n'; 4001], Err(ServeFault::Write), "bA1", 1),
    ),
    (
        "an ended session meets no fault",
        (Call::With(1000, Fault::Stop(1)), b"quit\ngenmove b\n"),
        WHOLE,
        (b"=\n\n", Ok(Served::Quit), "", 1),
    ),
];

#[test]
fn nothing_is_read_or_executed_after_the_end(rt: HostRuntime) {
    for (case, (how, input), streams, (output, answer, made, reads)) in &TALKS {
        let (sizes, failing, room, step, stuck) = *streams;
        let talk = Talk {
            how: *how,
            input,
            sizes,
            failing,
            room,
            step,
            stuck,
            flushes: usize::MAX,
        };
        let (session, turns) = assert_comes_to(&rt, case, &talk, output, *answer);
        assert_equal_for(&rt, case, turns, *reads);
        let mut game = new_game(&rt, 19);
        play_all(&rt, &mut game, made);
        assert_equal_for(&rt, case, session.game().moves(), game.moves());
        let shown = session.game().show();
        assert_equal_for(&rt, case, shown.as_slice(), game.show().as_slice());
    }
}

#[test]
fn one_read_has_room_for_4096_bytes(rt: HostRuntime) {
    let mut input = [b' '; 4096];
    input[..4].copy_from_slice(b"name");
    input[4095] = b'\n';
    let talk = Talk {
        how: Call::Within(1),
        input: &input,
        sizes: &[],
        failing: None,
        room: 4096,
        step: 100,
        stuck: 0,
        flushes: usize::MAX,
    };
    let more = Err(ServeFault::TooManyReads);
    let (_session, reads) = assert_comes_to(&rt, "4096", &talk, b"= stepgo\n\n", more);
    assert_equal(&rt, reads, 1);
}

/// Which call runs an engine, and what each read gives.
static READS: [(&str, Call, &[&[u8]]); 3] = [
    (
        "a line a read",
        Call::Serve,
        &[b"1 name\n", b"2 version\n", b"3 quit\n"],
    ),
    (
        "several reads of one call",
        Call::Within(10),
        &[b"1 name\n", b"2 version\n", b"3 quit\n"],
    ),
    (
        "several lines of one read",
        Call::Serve,
        &[b"1 name\n2 version\n3 quit\n"],
    ),
];

#[test]
fn a_reply_is_one_write_and_is_flushed_before_the_next_write_or_read(
    rt: HostRuntime,
) -> Result<(), Fail> {
    for (case, how, lines) in &READS {
        let writes = Rc::new(rt.alloc(), Cell::new(0))?;
        let flushed = Rc::new(rt.alloc(), Cell::new(0))?;
        let mut reader = Counted::new(Waiting {
            lines: *lines,
            next: 0,
            flushed: flushed.clone()?,
        });
        let mut writer = Counted::new(Reporting {
            writes: writes.clone()?,
            whole: false,
            replies: 0,
            last: 0,
            flushed,
        });
        let mut session = Session::new(First);
        let answer = how.hold(&mut reader, &mut writer, &mut session);
        assert_equal_for(&rt, case, answer, Ok(Served::Quit));
        assert_equal_for(&rt, case, writes.get(), 3);
    }
    Ok(())
}
