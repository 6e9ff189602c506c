//! The hint that an answer may have run on into the next one.
use super::{talk_of, without_id};
use crate::asserts::{assert_equal_for, text_of};
use gtp_check_judge::Kind;
use gtp_check_talk::Fault;
use gtp_check_texts::complaint::complaint_text;
use gtp_check_texts::reasons::runs_on;
use std::test::Fail;

/// What was wrong after the first of three commands was answered, what the engine wrote then, and whether an answer may
/// have run on.
static ROWS: [(Fault, &[u8], bool); 12] = [
    // The reply to the third command comes, which was asked: what answered the second one is within the first answer.
    (Fault::Wrote(Kind::WrongId), b"=3\n\n", true),
    (Fault::Wrote(Kind::WrongId), b"?3 no\n\n", true),
    // It comes to none that was asked, to an earlier one, or to none that it names.
    (Fault::Wrote(Kind::WrongId), b"=4\n\n", false),
    (Fault::Wrote(Kind::WrongId), b"=1\n\n", false),
    (Fault::Wrote(Kind::WrongId), b"=\n\n", false),
    (Fault::Wrote(Kind::WrongId), b"= 3\n\n", false),
    // A later id alone says nothing where the id isn't what is wrong.
    (Fault::Wrote(Kind::NoStatus), b"=3\n\n", false),
    // The next answer begins within this one.
    (Fault::Wrote(Kind::Refused), b"?2 no\n=3\n\n", true),
    (Fault::Wrote(Kind::Refused), b"?2 no\n?3 no\n", true),
    // Lines of a text that begin otherwise.
    (Fault::Wrote(Kind::Refused), b"?2 no\n= no\n\n", false),
    (Fault::Wrote(Kind::Refused), b"?2 no\n3 no\n\n", false),
    (Fault::Wrote(Kind::Refused), b"?2 no\n\n", false),
];

#[test]
fn an_answer_may_have_run_on(rt: HostRuntime) -> Result<(), Fail> {
    for (fault, wrote, may_be) in &ROWS {
        assert_equal_for(&rt, *wrote, runs_on(*fault, 1, 3, wrote), *may_be);
    }
    Ok(())
}

#[test]
fn a_complaint_says_that_an_answer_may_have_run_on(rt: HostRuntime) -> Result<(), Fail> {
    let talk = talk_of(&rt, 9, &[("name", 7), ("version", 17), ("name", 24)]);
    let complaint = without_id(
        b"1 name\n2 version\n3 name\n",
        talk.as_slice(),
        b"=3 one\n\n",
    );
    let text = complaint_text(rt.alloc(), &complaint)?;
    assert_equal_for(
        &rt,
        complaint.number,
        text_of(&rt, text.as_slice()),
        "# 1 start: \"2 version\": a reply without the id of the command
1 name
2 version
# it wrote: \"=3 one\\n\\n\"
# right: a reply has the id of the oldest unanswered command: 2
# an answer may have run on into the next: does each end with an empty line, a failure too?
# asked before this answer was read:
3 name

",
    );
    Ok(())
}
