//! Commands that are sent before earlier ones are answered.
use super::steps::{Opening, Scene, Step, play};
use crate::tests::shows::Shows;
use go_base::Colour::{Black, White};
use gtp_match::Action;

static SCENES: [Scene; 2] = [
    (
        "a script is sent before its first answer",
        Opening::Started(1),
        &[
            Step::Send(Black, b"1 boardsize 2\n"),
            Step::Send(Black, b"2 komi 0\n"),
            Step::SendAndWait(Black, b"3 clear_board\n"),
            Step::See(Shows::Up(Black, 0, 3)),
            Step::Heard(Black, b"=1\n\n=2", 4, None),
            Step::See(Shows::Up(Black, 1, 2)),
            Step::See(Shows::Next(Action::Wait(Black))),
            Step::HearAll(Black, b"=2\n\n=3\n\n"),
            Step::See(Shows::InStep(Black, true)),
            Step::See(Shows::Next(Action::Send(White))),
        ],
    ),
    (
        "a side started again is sent eight commands before it has to answer",
        Opening::Asked(1),
        &[
            Step::Answer(Black, b"=4 A1\n\n"),
            Step::Say(White, b"4 play b A1\n", b"=4\n\n"),
            Step::Say(White, b"5 genmove w\n", b"=5 pass\n\n"),
            Step::Say(Black, b"5 play w pass\n", b"=5\n\n"),
            Step::Say(Black, b"6 genmove b\n", b"=6 B1\n\n"),
            Step::Say(White, b"6 play b B1\n", b"=6\n\n"),
            Step::Say(White, b"7 genmove w\n", b"=7 pass\n\n"),
            Step::Say(Black, b"7 play w pass\n", b"=7\n\n"),
            Step::Say(Black, b"8 genmove b\n", b"=8 A2\n\n"),
            Step::Say(White, b"8 play b A2\n", b"=8\n\n"),
            Step::Say(White, b"9 genmove w\n", b"=9 pass\n\n"),
            Step::Say(Black, b"9 play w pass\n", b"=9\n\n"),
            Step::See(Shows::Moves(6)),
            Step::Lose(Black),
            Step::Start(Black),
            Step::See(Shows::Up(Black, 0, 0)),
            Step::Send(Black, b"1 boardsize 2\n"),
            Step::Send(Black, b"2 komi 0\n"),
            Step::Send(Black, b"3 clear_board\n"),
            Step::Send(Black, b"4 play b A1\n"),
            Step::Send(Black, b"5 play w pass\n"),
            Step::Send(Black, b"6 play b B1\n"),
            Step::Send(Black, b"7 play w pass\n"),
            Step::SendAndWait(Black, b"8 play b A2\n"),
            Step::See(Shows::Up(Black, 0, 8)),
            Step::Answer(Black, b"=1\n\n"),
            Step::SendAndWait(Black, b"9 play w pass\n"),
            Step::See(Shows::Up(Black, 1, 8)),
            Step::HearAll(Black, b"=2\n\n=3\n\n=4\n\n=5\n\n=6\n\n=7\n\n=8\n\n=9\n\n"),
            Step::See(Shows::InStep(Black, true)),
            Step::SendAndWait(Black, b"10 genmove b\n"),
        ],
    ),
];

#[test]
fn a_script_is_sent_before_its_first_answer_eight_commands_at_most(rt: HostRuntime) {
    play(&rt, &SCENES);
}
