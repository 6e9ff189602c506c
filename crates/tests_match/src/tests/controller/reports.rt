//! What is reported about a refused `play` that is retaken.
use super::steps::{Opening, Played, Scene, Step, play};
use crate::asserts::some;
use crate::tests::shows::Shows;
use go_base::Side;
use gtp_match::{LossCause, SideFault};

/// White, after Black was asked for its first move, is sent that move, A1.
static A1_SENT: [Step; 2] = [
    Step::Answer(Side::Black, b"=4 A1\n\n"),
    Step::SendAndWait(Side::White, b"4 play b A1\n"),
];

/// It is to be undone.
static A1_REFUSED: [Step; 3] = [
    Step::See(Shows::TakingBack(Some(Side::Black))),
    Step::See(Shows::Moves(1)),
    Step::See(Shows::Retakes(1, 1)),
];

static REPLAYED: [Scene; 1] = [(
    "a refusal after other answers owes one command",
    Opening::Asked(1),
    &[
        Step::Answer(Side::Black, b"=4 A1\n\n"),
        Step::Lose(Side::White),
        Step::Start(Side::White),
        Step::Send(Side::White, b"1 boardsize 2\n"),
        Step::Send(Side::White, b"2 komi 0\n"),
        Step::Send(Side::White, b"3 clear_board\n"),
        Step::Send(Side::White, b"4 play b A1\n"),
        Step::Retake(
            Side::White,
            b"=1\n\n=2\n\n=3 ok\n\n\n?4 no\n\n\n \n",
            (1, b"4 play b A1\n", b"\n?4 no\n\n"),
        ),
    ],
)];

#[test]
fn a_refusal_after_other_answers_owes_one_command(rt: HostRuntime) {
    play(&rt, &REPLAYED);
}

#[test]
fn a_retake_and_a_loss_in_one_read_in_any_cut(rt: HostRuntime) {
    let bytes = b"?4 no\n\n=5\n\n?6 no\n\n".as_slice();
    let refusal = Some((1, b"4 play b A1\n".as_slice(), b"?4 no\n\n".as_slice()));
    let stray = (0, b"".as_slice(), b"=5\n\n".as_slice());
    let loss = Some((LossCause::Shows(SideFault::Unasked), stray));
    for at in 0..=bytes.len() {
        let mut played = Played::new(&rt, "a retake and a loss", Opening::Asked(1));
        played.go(&rt, &A1_SENT);
        played.place = ("a retake and a loss, cut here", at);
        // Each is reported with the chunk that ends its reply.
        let (early, late) = if at >= 7 {
            (refusal, None)
        } else {
            (None, refusal)
        };
        let (early_loss, late_loss) = if at >= 11 { (loss, None) } else { (None, loss) };
        played.report(
            &rt,
            Side::White,
            some(&rt, bytes.get(..at)),
            early,
            early_loss,
        );
        played.report(
            &rt,
            Side::White,
            some(&rt, bytes.get(at..)),
            late,
            late_loss,
        );
        played.go(&rt, &A1_REFUSED);
    }
}
