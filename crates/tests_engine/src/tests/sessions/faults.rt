//! Requested faults, in memory.
use crate::asserts::{assert_equal, assert_equal_for, some};
use crate::tests::sessions::memory::Written;
use crate::tests::sessions::{Call, Talk, assert_comes_to, assert_serves_in_any_cuts};
use gtp_session::book::Book;
use gtp_session::fault::Fault;
use gtp_session::first::First;
use gtp_session::serve::{ServeFault, Served, serve_with};
use gtp_session::session::Session;
use gtp_session::streams::Counted;
use std::test::Fail;

/// One genmove that fails, and two that succeed.
const INPUT: &[u8] = b"genmove\n1 genmove b\n2 name\n3 genmove w\n4 name\n";

/// What is answered without a fault, with a cut in the second genmove that succeeds, and with junk in the first.
const UNBENT: &[u8] = b"? syntax error\n\n=1 A1\n\n=2 stepgo\n\n=3 B1\n\n=4 stepgo\n\n";

const CUT: &[u8] = b"? syntax error\n\n=1 A1\n\n=2 stepgo\n\n=3 B1\n";

const JUNK: &[u8] = b"? syntax error\n\nhello\n\n=2 stepgo\n\n=3 B1\n\n=4 stepgo\n\n";

/// A fault, the output with it, and how the conversation ends. The output has three parts; the second is this many
/// newlines.
static BENT: [(Fault, &[u8], usize, &[u8], Served); 15] = [
    // A fault at no genmove, or at one that never comes.
    (Fault::Off, UNBENT, 0, b"", Served::EndOfInput),
    (Fault::Stop(3), UNBENT, 0, b"", Served::EndOfInput),
    (Fault::Junk(3), UNBENT, 0, b"", Served::EndOfInput),
    (Fault::Stop(0), UNBENT, 0, b"", Served::EndOfInput),
    (Fault::Cut(0, 3), UNBENT, 0, b"", Served::EndOfInput),
    (Fault::Junk(0), UNBENT, 0, b"", Served::EndOfInput),
    (Fault::Flood(0), UNBENT, 0, b"", Served::EndOfInput),
    // A genmove that fails is not counted.
    (
        Fault::Stop(1),
        b"? syntax error\n\n",
        0,
        b"",
        Served::Stopped,
    ),
    // An engine stops at its second genmove.
    (
        Fault::Stop(2),
        b"? syntax error\n\n=1 A1\n\n=2 stepgo\n\n",
        0,
        b"",
        Served::Stopped,
    ),
    (
        Fault::Cut(2, 0),
        b"? syntax error\n\n=1 A1\n\n=2 stepgo\n\n",
        0,
        b"",
        Served::Stopped,
    ),
    // A reply is cut, if it is that long.
    (Fault::Cut(2, 6), CUT, 0, b"", Served::Stopped),
    (
        Fault::Cut(2, 7),
        b"? syntax error\n\n=1 A1\n\n=2 stepgo\n\n=3 B1\n\n",
        0,
        b"",
        Served::Stopped,
    ),
    (
        Fault::Cut(2, 2048),
        b"? syntax error\n\n=1 A1\n\n=2 stepgo\n\n=3 B1\n\n",
        0,
        b"",
        Served::Stopped,
    ),
    // Junk or a flood is written, and the conversation goes on.
    (Fault::Junk(1), JUNK, 0, b"", Served::EndOfInput),
    (
        Fault::Flood(2),
        b"? syntax error\n\n=1 A1\n\n=2 stepgo\n\n",
        8193,
        b"=4 stepgo\n\n",
        Served::EndOfInput,
    ),
];

#[test]
fn each_fault_bends_the_replies_in_any_cuts(rt: HostRuntime) {
    for (fault, front, newlines, back, served) in &BENT {
        let mut output = Written::new();
        assert_equal(&rt, output.try_extend_from_slice(front).is_ok(), true);
        for _ in 0..*newlines {
            assert_equal(&rt, output.try_push(b'\n').is_ok(), true);
        }
        assert_equal(&rt, output.try_extend_from_slice(back).is_ok(), true);
        let how = Call::With(1000, *fault);
        assert_serves_in_any_cuts(&rt, "under a fault", how, INPUT, &output, *served);
    }
}

/// Faults, and what is written with each.
static BROKEN: [(Fault, &[u8]); 2] = [(Fault::Cut(2, 6), CUT), (Fault::Junk(1), JUNK)];

#[test]
fn a_writer_breaks_after_each_number_of_bytes_of_a_fault(rt: HostRuntime) {
    for (fault, output) in &BROKEN {
        for room in 0..output.len() {
            let talk = Talk {
                how: Call::With(10, *fault),
                input: INPUT,
                sizes: &[],
                failing: None,
                room,
                step: 3,
                stuck: 0,
                flushes: usize::MAX,
            };
            let broken = Err(ServeFault::Write);
            let _ = assert_comes_to(&rt, "room", &talk, &output[..room], broken);
        }
    }
}

/// Lines, and whether the reply to each is that of a genmove that succeeded.
static GENMOVES: [(&[u8], bool); 8] = [
    (b"name\n", false),
    (b"genmove\n", false),
    (b"genmove b\n", true),
    (b"genmove w\n", true),
    (b"play w D4\n", false),
    (b"\n", false),
    (b"quit\n", false),
    (b"genmove b\n", false),
];

#[test]
fn a_genmove_succeeds_by_a_move_or_a_resignation_and_not_on_a_full_record(
    rt: HostRuntime,
) -> Result<(), Fail> {
    let mut session = Session::new(some(&rt, Book::read(b"C3,resign")));
    for (line, genmove) in &GENMOVES {
        assert_equal_for(&rt, line, session.feed(line).genmove, *genmove);
    }
    assert_equal(&rt, session.game().moves().len(), 2);
    // A fault meets a resignation.
    let mut taken = Vec::new(rt.alloc());
    let mut session = Session::new(some(&rt, Book::read(b"resign")));
    let mut reader = Counted::new(b"genmove b\nname\n".as_slice());
    let mut writer = Counted::new(&mut taken);
    let answer = serve_with(&mut reader, &mut writer, &mut session, 1000, Fault::Stop(1));
    assert_equal(&rt, answer, Ok(Served::Stopped));
    assert_equal(&rt, session.ended(), false);
    assert_equal(&rt, taken.as_slice(), b"".as_slice());
    let mut session = Session::new(First);
    for _turn in 0..2000 {
        session.feed(b"play b pass\n");
    }
    let fed = session.feed(b"genmove b\n");
    assert_equal(&rt, fed.reply.is_some(), true);
    assert_equal(&rt, fed.genmove, false);
    Ok(())
}

/// Texts, and the fault that each names, if it names one.
static TEXTS: [(&str, Option<Fault>); 34] = [
    ("none", Some(Fault::Off)),
    ("stop:1", Some(Fault::Stop(1))),
    ("stop:2000", Some(Fault::Stop(2000))),
    ("stop:007", Some(Fault::Stop(7))),
    ("cut:2:6", Some(Fault::Cut(2, 6))),
    ("cut:2000:2048", Some(Fault::Cut(2000, 2048))),
    ("cut:1:0", Some(Fault::Cut(1, 0))),
    ("junk:2", Some(Fault::Junk(2))),
    ("flood:2", Some(Fault::Flood(2))),
    ("flood:02000", Some(Fault::Flood(2000))),
    ("", None),
    ("None", None),
    ("none:", None),
    ("none:1", None),
    ("stop", None),
    ("stop:", None),
    ("stop:0", None),
    ("stop:2001", None),
    ("stop:-1", None),
    ("stop:+1", None),
    ("stop:1:", None),
    ("stop:1:2", None),
    (" stop:1", None),
    ("stop:1 ", None),
    ("Stop:1", None),
    ("cut:1", None),
    ("cut:1:", None),
    ("cut:1:2049", None),
    ("cut:0:1", None),
    ("cut::1", None),
    ("cut:1:2:3", None),
    ("junk:", None),
    ("flood:2001", None),
    ("flood:1:1", None),
];

#[test]
fn texts_name_faults_of_genmoves_1_to_2000(rt: HostRuntime) {
    for (text, fault) in &TEXTS {
        assert_equal_for(&rt, text, Fault::read(text.as_bytes()), *fault);
    }
}
