//! Matches that end, and matches that go on after a loss.
use super::steps::{Opening, Played, Scene, Step, play};
use crate::asserts::{assert_equal, some};
use crate::tests::shows::Shows;
use arrayvec::ArrayVec;
use go_base::Colour::{Black, White};
use gtp_match::{Verdict, record_line, result_line};

static TWO_PASSES: [Scene; 1] = [(
    "on 2x2 without komi",
    Opening::Asked(0),
    &[
        Step::See(Shows::Asked(Black, 3, 1)),
        Step::Answer(Black, b"=4 pass\n\n"),
        Step::See(Shows::InStep(Black, true)),
        Step::See(Shows::InStep(White, false)),
        Step::SendAndWait(White, b"4 play b pass\n"),
        Step::Answer(White, b"=4\n\n"),
        Step::SendAndWait(White, b"5 genmove w\n"),
        Step::See(Shows::NoLine),
        Step::Answer(White, b"=5 pass\n\n"),
        Step::See(Shows::Ended(Verdict::Score(0), b"game 1: 0 moves 2 restarts 0 0")),
        Step::See(Shows::Record(b"pass pass")),
    ],
)];

#[test]
fn two_passes_end_by_score(rt: HostRuntime) {
    play(&rt, &TWO_PASSES);
}

static LOST: [Scene; 3] = [
    (
        "a side that went down gets the whole script again",
        Opening::Asked(1),
        &[
            Step::Answer(Black, b"=4 A1\n"),
            Step::Lose(Black),
            Step::See(Shows::Down(Black)),
            Step::See(Shows::Moves(0)),
            Step::See(Shows::InStep(White, true)),
            Step::See(Shows::Restarts(Black, 0)),
            Step::Start(Black),
            Step::See(Shows::Restarts(Black, 1)),
            Step::See(Shows::Up(Black, 0, 0)),
            Step::Bring(Black),
            Step::See(Shows::InStep(Black, true)),
            Step::SendAndWait(Black, b"4 genmove b\n"),
            Step::Answer(Black, b"=4 A1\n"),
            Step::Answer(Black, b"\n"),
            Step::See(Shows::Record(b"A1")),
            Step::See(Shows::InStep(Black, true)),
        ],
    ),
    (
        "a verdict once given stays",
        Opening::Sent(0),
        &[
            Step::Lose(Black),
            Step::See(Shows::Ended(
                Verdict::Abandoned(Black),
                b"game 1: abandoned black moves 0 restarts 0 0",
            )),
            Step::Answer(White, b"hello"),
            Step::See(Shows::Up(White, 0, 0)),
            Step::Lose(White),
            Step::See(Shows::Down(White)),
            Step::See(Shows::Ended(
                Verdict::Abandoned(Black),
                b"game 1: abandoned black moves 0 restarts 0 0",
            )),
        ],
    ),
    (
        // Black's script and `genmove` twice, and White's script. With two sides, each started at most twice and each
        // sent at most 74 commands, it would be 296.
        "a match in which each genmove of Black is lost stays below its bound",
        Opening::Asked(1),
        &[
            Step::Lose(Black),
            Step::Start(Black),
            Step::Bring(Black),
            Step::Send(Black, b"4 genmove b\n"),
            Step::Lose(Black),
            Step::See(Shows::Ended(
                Verdict::Abandoned(Black),
                b"game 1: abandoned black moves 0 restarts 1 0",
            )),
            Step::Sent(11),
        ],
    ),
];

#[test]
fn a_match_goes_on_after_a_loss_while_a_restart_is_left(rt: HostRuntime) {
    play(&rt, &LOST);
}

#[test]
fn a_result_line_has_room_for_96_bytes_and_a_record_line_for_10_000(rt: HostRuntime) {
    let mut played = Played::new(&rt, "a resignation", Opening::Asked(1));
    played.hear(&rt, Black, b"=4 resign\n\n", 11, None);
    let line: Option<ArrayVec<u8, 96>> = result_line(4_294_967_295, &played.game);
    let record: ArrayVec<u8, 10_000> = record_line(&played.game);
    assert_equal(
        &rt,
        some(&rt, line).as_slice(),
        b"game 4294967295: W+R moves 0 restarts 0 0".as_slice(),
    );
    assert_equal(&rt, record.as_slice(), b"".as_slice());
}
