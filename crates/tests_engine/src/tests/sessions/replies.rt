//! What a session answers, as a controller reads it.
use crate::asserts::{assert_equal_for, some};
use gtp_session::first::First;
use gtp_session::session::Session;
use gtp_wire::ReplyReader;

/// A line, whether it succeeds, and the id and the text of its reply.
type Read<'a> = (&'a [u8], bool, Option<u32>, &'a [u8]);

#[test]
fn each_reply_is_read_as_it_was_meant(rt: HostRuntime) {
    let mut too_long = [b'x'; 1004];
    too_long[..2].copy_from_slice(b"5 ");
    too_long[1003] = b'\n';
    let lines: [Read; 14] = [
        (b"1 name\n", true, Some(1), b"stepgo"),
        (b"fixed_handicap 3\n", true, None, b"D4 Q16 D16"),
        (b"007 boardsize 2\n", true, Some(7), b""),
        (b"8 boardsize 26\n", false, Some(8), b"unacceptable size"),
        (b"2147483647 genmove w\n", true, Some(2147483647), b"A1"),
        (b"9 play b B1\n", true, Some(9), b""),
        (b"10 play b B1\n", false, Some(10), b"illegal move"),
        (
            b"showboard\n",
            true,
            None,
            b". . 2\nO X 1\nA B\ncaptures B 0 W 0",
        ),
        (b"11 final_score\n", true, Some(11), b"0"),
        (b"12 undo\n", true, Some(12), b""),
        (b"2147483648 name\n", false, None, b"unknown command"),
        (b"13\n", false, Some(13), b"unknown command"),
        (&too_long, false, None, b"syntax error"),
        (b"14 quit\n", true, Some(14), b""),
    ];
    let mut session = Session::new(First);
    for (line, ok, id, text) in lines {
        let bytes = some(&rt, session.feed(line).reply);
        let read = ReplyReader::new().feed(&bytes);
        assert_equal_for(&rt, line, read.used, bytes.len());
        let reply = some(&rt, some(&rt, read.got).ok());
        assert_equal_for(&rt, line, (reply.ok, reply.id), (ok, id));
        assert_equal_for(&rt, line, reply.text.as_slice(), text);
    }
}
