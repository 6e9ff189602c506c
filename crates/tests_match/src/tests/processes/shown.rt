//! How the output of a process, its end and the reason why it couldn't be started are shown.
use crate::asserts::assert_equal;
use arrayvec::ArrayVec;
use gtp_process::{
    Ending, PipeCause, StartReason, Unstarted, pipe_text, push_ending, push_quoted, push_shown,
    push_unstarted,
};
use std::test::Fail;

#[test]
fn bytes_endings_and_causes_are_shown_in_printable_bytes(rt: HostRuntime) -> Result<(), Fail> {
    let mut shown = ArrayVec::<u8, 64>::new();
    push_shown(&mut shown, b" A~\"\\\n\r\t\x00\x1b\x7f\xff".as_slice());
    let mut line = ArrayVec::<u8, 600>::new();
    push_quoted(&mut line, b"=1 ok\n".as_slice());
    push_ending(&mut line, Ending::Unknown);
    push_ending(&mut line, Ending::Status(3));
    push_ending(&mut line, Ending::Signal(11));
    push_ending(&mut line, Ending::Running);
    push_ending(&mut line, Ending::Late(1));
    push_ending(&mut line, Ending::Late(30));
    let mut unstarted = ArrayVec::<u8, 600>::new();
    let words = ["no_such_program", "--now"];
    push_unstarted(
        &mut unstarted,
        &Unstarted::new(&words, StartReason::NotFound),
    );
    for (bytes, text) in [
        (shown.as_slice(), " A~\\\"\\\\\\n\\r\\t\\x00\\x1B\\x7F\\xFF"),
        (
            line.as_slice(),
            "\"=1 ok\\n\", exit status 3, signal 11, but it ran on, \
                no answer in 1 second, no answer in 30 seconds",
        ),
        (
            unstarted.as_slice(),
            "not started: no such file: \"no_such_program\"",
        ),
        (pipe_text(PipeCause::Ended), "its output ended"),
    ] {
        assert_equal(&rt, str::from_utf8(bytes)?, text);
    }
    Ok(())
}
