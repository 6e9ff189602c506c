//! Bytes that show a fault, heard whole and in two chunks.
use super::steps::{Opening, Played, Scene, Step, padded, play};
use crate::asserts::{assert_equal_for, assert_true, some};
use crate::tests::shows::Shows;
use go_base::Side;
use gtp_match::SideFault::{self, NoStatus, Overlong, Unasked, WrongId};
use gtp_match::{Action, Status};
use std::process::Abort;

/// Where bytes are heard: how the match begins, whose bytes they are, and what is done once that side is down.
type Hearing = (Opening, Side, Action);

/// Black was sent the first command of its script.
const IN_SCRIPT: Hearing = (Opening::Sent(1), Side::Black, Action::Start(Side::Black));

/// Black was asked for a move.
const ASKED: Hearing = (Opening::Asked(1), Side::Black, Action::Start(Side::Black));

/// White was sent nothing.
const UNASKED: Hearing = (Opening::Sent(1), Side::White, Action::Send(Side::Black));

/// A name, where bytes are heard, the bytes, and the fault that they show.
type Case<'a> = (&'static str, Hearing, &'a [u8], SideFault);

/// Asserts that these bytes, in two chunks split here, show the fault by their last byte. The first chunk, if it isn't
/// empty, shows nothing and leaves the side as it is. After the second the side is down, no move was made, and the
/// match goes on. It is the same whether one call hears a whole chunk or each call hears what it uses.
fn assert_cut(rt: &impl Abort, case: &Case, at: usize) {
    let (name, (opening, side, after), bytes, fault) = *case;
    let first = some(rt, bytes.get(..at));
    let second = some(rt, bytes.get(at..));
    for by_one_call in [false, true] {
        let case = (name, at, by_one_call);
        let mut played = Played::new(rt, name, opening);
        played.place = (name, at);
        let before = (played.game.status(side), played.game.next());
        if by_one_call {
            assert_equal_for(rt, case, played.game.hear_all(side, first), None);
        } else if at > 0 {
            played.hear(rt, side, first, first.len(), None);
        }
        assert_equal_for(
            rt,
            case,
            (played.game.status(side), played.game.next()),
            before,
        );
        if by_one_call {
            assert_equal_for(rt, case, played.game.hear_all(side, second), Some(fault));
        } else {
            played.hear(rt, side, second, second.len(), Some(fault));
        }
        let then = (played.game.status(side), played.game.next());
        assert_equal_for(rt, case, then, (Status::Down, after));
        assert_true(rt, played.game.game().moves().is_empty());
    }
}

#[test]
fn a_fault_is_shown_by_its_last_byte_in_any_cut(rt: HostRuntime) {
    let newlines = [b'\n'; 8193];
    let script_reply = padded::<8193>(b"=1 ", b'a', b"");
    let move_reply = padded::<8193>(b"=4 ", b'a', b"");
    let cases: [Case; 11] = [
        ("no reply", IN_SCRIPT, b"\n \r\n\nh", NoStatus),
        ("no reply to genmove", ASKED, b"\n \r\n\nh", NoStatus),
        ("newlines", IN_SCRIPT, &newlines, Overlong),
        ("newlines after genmove", ASKED, &newlines, Overlong),
        ("no end", IN_SCRIPT, &script_reply, Overlong),
        ("no end of a move", ASKED, &move_reply, Overlong),
        ("another id", IN_SCRIPT, b"=2\n\n", WrongId),
        ("a move of another id", ASKED, b"=5 A1\n\n", WrongId),
        ("a move without an id", ASKED, b"= A1\n\n", WrongId),
        ("unasked", UNASKED, b"=1\n\n", Unasked),
        ("an unasked failure", UNASKED, b"? no\n\n", Unasked),
    ];
    for case in &cases {
        let (_, _, bytes, _) = case;
        for at in [0, 1, bytes.len() / 2, bytes.len().saturating_sub(1)] {
            assert_cut(&rt, case, at);
        }
    }
}

static NEWLINES: [Scene; 1] = [(
    "newlines show a fault by the first that is too many",
    Opening::Sent(1),
    &[
        Step::Answer(Side::Black, &[b'\n'; 8192]),
        Step::See(Shows::Up(Side::Black, 0, 1)),
        Step::Heard(Side::Black, b"\n", 1, Some(Overlong)),
        Step::See(Shows::Down(Side::Black)),
    ],
)];

#[test]
fn newlines_and_a_reply_are_read_up_to_the_last_byte_that_fits(rt: HostRuntime) {
    play(&rt, &NEWLINES);
    let mut played = Played::new(&rt, "a reply that just ends", Opening::Sent(1));
    played.hear(
        &rt,
        Side::Black,
        &padded::<8192>(b"", b'\n', b"=1\n\n"),
        8192,
        None,
    );
    played.go(&rt, &[Step::See(Shows::Up(Side::Black, 1, 0))]);
    let mut played = Played::new(&rt, "a reply that ends too late", Opening::Sent(1));
    let bytes = padded::<8193>(b"", b'\n', b"=1\n\n");
    played.hear(&rt, Side::Black, &bytes, 8193, Some(Overlong));
    played.go(&rt, &[Step::See(Shows::Down(Side::Black))]);
}
