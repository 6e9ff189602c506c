use super::steps::{Opening, Scene, Step, play};
use crate::tests::shows::Shows;
use go_base::Colour::{Black, White};
use gtp_match::{ForfeitCause, Verdict};

/// Black moved at A1, and White refused that.
static SCENES: [Scene; 4] = [
    (
        "a refused move is taken back at its maker",
        Opening::Asked(1),
        &[
            Step::Answer(Black, b"=4 A1\n\n"),
            Step::SendAndWait(White, b"4 play b A1\n"),
            Step::Answer(White, b"?4 no\n\n"),
            Step::See(Shows::TakingBack(Some(Black))),
            Step::See(Shows::Moves(1)),
            Step::See(Shows::Retakes(1, 1)),
            Step::See(Shows::InStep(Black, true)),
            Step::See(Shows::InStep(White, false)),
            Step::See(Shows::Up(White, 3, 0)),
            Step::SendAndWait(Black, b"5 undo\n"),
            Step::See(Shows::Up(Black, 4, 1)),
            Step::Answer(Black, b"=5\n\n"),
            Step::See(Shows::TakingBack(None)),
            Step::See(Shows::Moves(0)),
            Step::See(Shows::Retakes(1, 1)),
            Step::See(Shows::InStep(Black, true)),
            Step::See(Shows::InStep(White, true)),
            Step::Send(Black, b"6 genmove b\n"),
        ],
    ),
    (
        "a refused move leaves the record at once if its maker is down",
        Opening::Asked(1),
        &[
            Step::Answer(Black, b"=4 A1\n\n"),
            Step::SendAndWait(White, b"4 play b A1\n"),
            Step::Lose(Black),
            Step::Answer(White, b"?4 no\n\n"),
            Step::See(Shows::TakingBack(None)),
            Step::See(Shows::Moves(0)),
            Step::See(Shows::Retakes(1, 1)),
            Step::See(Shows::InStep(White, true)),
            Step::Start(Black),
        ],
    ),
    (
        "numbers without retakes have 0",
        Opening::Asked(1),
        &[
            Step::Answer(Black, b"=4 A1\n\n"),
            Step::SendAndWait(White, b"4 play b A1\n"),
            Step::Answer(White, b"?4 no\n\n"),
            Step::See(Shows::Retakes(0, 0)),
            Step::See(Shows::Retakes(2, 0)),
            Step::See(Shows::Retakes(2000, 0)),
            Step::See(Shows::Retakes(2001, 0)),
            Step::See(Shows::Retakes(4_294_967_295, 0)),
        ],
    ),
    (
        // Black makes the same move each time, White refuses it, and Black undoes it.
        "the fourth refusal of a number forfeits",
        Opening::Asked(1),
        &[
            Step::Answer(Black, b"=4 A1\n\n"),
            Step::SendAndWait(White, b"4 play b A1\n"),
            Step::Answer(White, b"?4 no\n\n"),
            Step::SendAndWait(Black, b"5 undo\n"),
            Step::Answer(Black, b"=5\n\n"),
            Step::Say(Black, b"6 genmove b\n", b"=6 A1\n\n"),
            Step::Say(White, b"5 play b A1\n", b"?5\n\n"),
            Step::Say(Black, b"7 undo\n", b"=7\n\n"),
            Step::Say(Black, b"8 genmove b\n", b"=8 A1\n\n"),
            Step::Say(White, b"6 play b A1\n", b"?6\n\n"),
            Step::Say(Black, b"9 undo\n", b"=9\n\n"),
            Step::Say(Black, b"10 genmove b\n", b"=10 A1\n\n"),
            Step::Say(White, b"7 play b A1\n", b"?7 no\n\n"),
            Step::See(Shows::Ended(
                Verdict::Forfeit(White, ForfeitCause::RefusedPlay),
                b"game 1: B+F(refused play) moves 1 restarts 0 0",
            )),
            Step::See(Shows::Moves(1)),
            Step::See(Shows::Retakes(1, 3)),
            Step::See(Shows::TakingBack(None)),
            Step::See(Shows::InStep(White, false)),
        ],
    ),
];

#[test]
fn a_refused_move_is_taken_back_and_refused_for_the_fourth_time_forfeits(rt: HostRuntime) {
    play(&rt, &SCENES);
}
