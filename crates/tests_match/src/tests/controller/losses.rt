//! Why a side fails because of what it wrote, what is shown of that, and what it owes.
use super::steps::{Opening, Played, Scene, Step, padded, play};
use crate::asserts::some;
use go_base::Side;
use gtp_match::LossCause::{self, NoVertex, Shows};
use gtp_match::SideFault::{NoStatus, WrongId};

/// Bytes by which Black fails after its first command, the cause, and what is shown of the bytes.
static FAILS: [(&str, &[u8], LossCause, &[u8]); 5] = [
    ("another id", b"=2 D4\n\nmore", Shows(WrongId), b"=2 D4\n\n"),
    (
        "newlines and a word",
        b"\n\r\nhello",
        Shows(NoStatus),
        b"\n\r\nhello",
    ),
    (
        "a line",
        b"Welcome to MyGo 1.0\n",
        Shows(NoStatus),
        b"Welcome to MyGo 1.0\n",
    ),
    ("80 letters", &[b'W'; 80], Shows(NoStatus), &[b'W'; 80]),
    ("81 letters", &[b'W'; 81], Shows(NoStatus), &[b'W'; 80]),
];

#[test]
fn of_a_wrong_reply_all_is_shown_and_of_what_is_none_the_first_80_bytes(rt: HostRuntime) {
    for (name, bytes, cause, shown) in &FAILS {
        let mut played = Played::new(&rt, name, Opening::Sent(1));
        let loss = (*cause, (1, b"1 boardsize 2\n".as_slice(), *shown));
        played.report(&rt, Side::Black, bytes, None, Some(loss));
    }
    // 76 newlines were heard before, so four letters are left of the 80 bytes.
    let mut played = Played::new(&rt, "newlines before", Opening::Sent(1));
    played.report(&rt, Side::Black, &[b'\n'; 76], None, None);
    let shown = padded::<80>(b"", b'\n', b"hell");
    let loss = (
        Shows(NoStatus),
        (1, b"1 boardsize 2\n".as_slice(), shown.as_slice()),
    );
    played.report(&rt, Side::Black, b"hello", None, Some(loss));
}

#[test]
fn of_an_answer_in_any_cut_the_first_80_bytes_are_kept(rt: HostRuntime) {
    // `=4 `, 75 letters and two newlines are 80: all of them are kept. From 76 on the end isn't.
    let just = padded::<80>(b"=4 ", b'x', b"\n\n");
    let over = padded::<81>(b"=4 ", b'x', b"\n\n");
    let long = padded::<105>(b"=4 ", b'x', b"\n\n");
    let cases: [(&str, &[u8], usize); 10] = [
        ("80 bytes", &just, 0),
        ("80 bytes but one", &just, 79),
        ("81 bytes", &over, 0),
        ("81 bytes but one", &over, 80),
        ("105 bytes", &long, 0),
        ("1 byte, and 104", &long, 1),
        ("79 bytes, and 26", &long, 79),
        ("80 bytes, and 25", &long, 80),
        ("81 bytes, and 24", &long, 81),
        ("105 bytes but one", &long, 104),
    ];
    for (name, bytes, cut) in cases {
        let first = some(&rt, bytes.get(..cut));
        let second = some(&rt, bytes.get(cut..));
        let shown = &bytes[..bytes.len().min(80)];
        let fails = (NoVertex, (1, b"4 genmove b\n".as_slice(), shown));
        let mut played = Played::new(&rt, name, Opening::Asked(1));
        for (piece, loss) in [(first, None), (second, Some(fails))] {
            played.report(&rt, Side::Black, piece, None, loss);
        }
    }
}

static OWED: [Scene; 3] = [
    (
        "a side that is up",
        Opening::Sent(1),
        &[
            Step::Owes(Side::Black, Some((1, b"1 boardsize 2\n", b""))),
            Step::Owes(Side::White, Some((0, b"", b""))),
            Step::Send(Side::Black, b"2 komi 0\n"),
            Step::Send(Side::Black, b"3 clear_board\n"),
            Step::Owes(Side::Black, Some((3, b"1 boardsize 2\n", b""))),
            Step::GoesOn(Side::Black, b"=1\n\n=2 half"),
            Step::Owes(Side::Black, Some((2, b"2 komi 0\n", b"=2 half"))),
            Step::GoesOn(Side::Black, &[b'y'; 100]),
            Step::Owes(
                Side::Black,
                Some((
                    2,
                    b"2 komi 0\n",
                    b"=2 halfyyyyyyyyyyyyyyyyyyyyyyyyyyyyyyyyyyyyyyyyyyyyyyyyyyyyyyyyyyyyyyyyyyyyyyyyy",
                )),
            ),
        ],
    ),
    (
        "a side that is down",
        Opening::Sent(1),
        &[
            Step::Lose(Side::Black),
            Step::Owes(Side::Black, None),
            Step::Owes(Side::White, Some((0, b"", b""))),
        ],
    ),
    (
        "after the end",
        Opening::Sent(1),
        &[
            Step::GoesOn(Side::White, b"\n"),
            Step::Answer(Side::Black, b"?1 no\n\n"),
            Step::Owes(Side::Black, None),
            Step::Owes(Side::White, None),
        ],
    ),
];

#[test]
fn a_side_that_is_up_owes_and_one_that_is_down_or_after_the_end_does_not(rt: HostRuntime) {
    play(&rt, &OWED);
}
