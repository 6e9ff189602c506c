//! Replies as a controller reads them.
use crate::asserts::{assert_equal, assert_equal_for};
use arrayvec::ArrayVec;
use go_base::write_int;
use gtp_wire::{ReplyFault, ReplyReader};

/// The first result of a new reader: how many bytes it used, and the status, the id in brackets and the text, or the
/// fault.
fn show_first(bytes: &[u8]) -> ArrayVec<u8, 64> {
    let fed = ReplyReader::new().feed(bytes);
    let mut shown = ArrayVec::new();
    let used = u32::try_from(fed.used).unwrap_or(u32::MAX);
    let _ = shown.try_extend_from_slice(&write_int(used));
    match fed.got {
        None => {
            let _ = shown.try_extend_from_slice(b" nothing");
        }
        Some(Err(ReplyFault::Overlong)) => {
            let _ = shown.try_extend_from_slice(b" overlong");
        }
        Some(Err(ReplyFault::NoStatus)) => {
            let _ = shown.try_extend_from_slice(b" no status");
        }
        Some(Ok(reply)) => {
            let status = if reply.ok { b" =[" } else { b" ?[" };
            let _ = shown.try_extend_from_slice(status);
            if let Some(id) = reply.id {
                let _ = shown.try_extend_from_slice(&write_int(id));
            }
            let _ = shown.try_push(b']');
            let _ = shown.try_extend_from_slice(&reply.text);
        }
    }
    shown
}

/// Bytes, and what is returned of them.
static RETURNED: [(&[u8], &[u8]); 17] = [
    (b"\n\n=1 ok\r\n\r\n", b"11 =[1]ok"),
    (b"= D4 \n\n", b"7 =[]D4"),
    (b"=\n\n", b"3 =[]"),
    (b"=12D4\n\n", b"7 =[12]D4"),
    (b"=1  D4  \n\n", b"10 =[1]D4"),
    (b"=00000000001 a\n\n", b"16 =[1]a"),
    (b"=99999999999 a\n\n", b"16 =[]99999999999 a"),
    (b"?3 illegal move\n\n=4", b"17 ?[3]illegal move"),
    (b"=1 a\nb\n\n", b"8 =[1]a\nb"),
    (b"\x01 \t=\x02007\ta \x7f#b\n\r\n", b"17 =[7]a #b"),
    (b"=\nfoo\n\n", b"7 =[]\nfoo"),
    (b"\n =12 a\tb\r\nc \r\n\n", b"16 =[12]a b\nc"),
    (b"=1 a\n", b"5 nothing"),
    (b"hello", b"1 no status"),
    (b" !1\n\n", b"2 no status"),
    (b"\n\x01 #=1\n\n", b"4 no status"),
    (b"\xe4=1\n\n", b"1 no status"),
];

#[test]
fn replies_and_faults_are_returned(rt: HostRuntime) {
    for (bytes, wanted) in &RETURNED {
        assert_equal_for(&rt, bytes, show_first(bytes).as_slice(), wanted);
    }
}

/// What is returned of bytes without an end.
const OVERLONG: &[u8] = b"8193 overlong";

#[test]
fn a_reply_has_at_most_8192_bytes(rt: HostRuntime) {
    let mut bytes = [b'\n'; 8193];
    let newlines = show_first(&bytes[..8192]);
    assert_equal(&rt, newlines.as_slice(), b"8192 nothing".as_slice());
    assert_equal(&rt, show_first(&bytes).as_slice(), OVERLONG);
    bytes[8192] = b'x';
    assert_equal(&rt, show_first(&bytes).as_slice(), OVERLONG);
    let mut bytes = [b'\x01'; 8193];
    bytes[0] = b'=';
    bytes[8190] = b'\n';
    bytes[8192] = b'\n';
    assert_equal(&rt, show_first(&bytes).as_slice(), OVERLONG);
    bytes[8191] = b'\n';
    assert_equal(&rt, show_first(&bytes).as_slice(), b"8192 =[]".as_slice());
}
