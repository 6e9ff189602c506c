//! What a side does wrong, or right, after its first command.
use super::steps::{Opening, Played, Scene, Step, play};
use crate::asserts::assert_equal;
use crate::tests::shows::{Shows, assert_shows};
use go_base::Side;
use gtp_match::{Action, SideFault, Verdict};
use std::test::Fail;

/// Each fault that a side may show where Black was sent its first command: its name, the side, its bytes, how many of
/// them are used, and the fault.
static FAULTS: [(&str, Side, &[u8], usize, SideFault); 5] = [
    (
        "another id",
        Side::Black,
        b"=2 D4\n\n",
        7,
        SideFault::WrongId,
    ),
    ("no id", Side::Black, b"= 1\n\n", 5, SideFault::WrongId),
    ("no reply", Side::Black, b"hello", 1, SideFault::NoStatus),
    (
        "too long",
        Side::Black,
        &[b'\n'; 8193],
        8193,
        SideFault::Overlong,
    ),
    ("unasked", Side::White, b"=1\n\n", 4, SideFault::Unasked),
];

#[test]
fn each_fault_puts_its_side_down_and_gives_it_up_without_restarts(rt: HostRuntime) {
    for (name, side, bytes, used, fault) in &FAULTS {
        let mut played = Played::new(&rt, name, Opening::Sent(1));
        played.hear(&rt, *side, bytes, *used, Some(*fault));
        // What White wrote leaves Black's script to be sent.
        let (next, line): (Action, &'static [u8]) = match side {
            Side::Black => (
                Action::Start(Side::Black),
                b"game 1: abandoned black moves 0 restarts 0 0",
            ),
            Side::White => (
                Action::Send(Side::Black),
                b"game 1: abandoned white moves 0 restarts 0 0",
            ),
        };
        for what in [Shows::Down(*side), Shows::Next(next)] {
            assert_shows(&rt, (name, 0), &played.game, &what);
        }
        let mut played = Played::new(&rt, name, Opening::Sent(0));
        assert_shows(&rt, (name, 1), &played.game, &Shows::NoLine);
        played.hear(&rt, *side, bytes, *used, Some(*fault));
        let ended = Shows::Ended(Verdict::Abandoned(*side), line);
        assert_shows(&rt, (name, 1), &played.game, &ended);
    }
}

static SCENES: [Scene; 3] = [
    (
        "carriage returns after an id",
        Opening::Sent(1),
        &[
            Step::Answer(Side::Black, b"\n=1\r\n\r\n"),
            Step::See(Shows::Up(Side::Black, 1, 0)),
        ],
    ),
    (
        "a setup command is refused",
        Opening::Sent(1),
        &[
            Step::Answer(Side::Black, b"?1 no\n\n"),
            Step::See(Shows::Ended(
                Verdict::Unfit(Side::Black),
                b"game 1: unfit black moves 0 restarts 0 0",
            )),
        ],
    ),
    (
        "a side that is down is not heard",
        Opening::Sent(1),
        &[
            Step::Lose(Side::Black),
            Step::Answer(Side::Black, b"=1\n\nhello"),
            Step::See(Shows::Down(Side::Black)),
            Step::See(Shows::Next(Action::Start(Side::Black))),
            Step::Lose(Side::Black),
            Step::See(Shows::Next(Action::Start(Side::Black))),
        ],
    ),
];

#[test]
fn a_first_answer_a_refusal_and_a_side_that_is_down(rt: HostRuntime) {
    play(&rt, &SCENES);
}

#[test]
fn each_fault_of_a_side_has_its_text(rt: HostRuntime) -> Result<(), Fail> {
    for (fault, text) in [
        (
            SideFault::NoStatus,
            "what the side wrote is no GTP reply: it begins with neither = nor ?",
        ),
        (
            SideFault::Overlong,
            "more than 8,192 bytes came since the side's last reply",
        ),
        (
            SideFault::WrongId,
            "the reply does not have the id of the oldest unanswered command",
        ),
        (
            SideFault::Unasked,
            "a reply came where no command is unanswered",
        ),
    ] {
        let printed = format!(in rt.alloc(); "{fault}")?;
        assert_equal(&rt, printed.as_str(), text);
    }
    Ok(())
}
