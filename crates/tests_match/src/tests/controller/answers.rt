//! Answers to Black's first `genmove`.
use super::steps::{Opening, Played};
use crate::tests::shows::{Shows, assert_shows};
use go_base::Colour::{Black, White};
use gtp_match::ForfeitCause::{self, IllegalMove, NoMove, NoVertex};
use gtp_match::Verdict;

/// Answers by which Black forfeits, the cause, and how the line has it.
static FORFEITS: [(&str, ForfeitCause, &[u8]); 4] = [
    (
        "=4 I5\n\n",
        NoVertex,
        b"game 1: W+F(no vertex) moves 0 restarts 0 0",
    ),
    (
        "=4 A1 B2\n\n",
        NoVertex,
        b"game 1: W+F(no vertex) moves 0 restarts 0 0",
    ),
    (
        "=4 C1\n\n",
        IllegalMove,
        b"game 1: W+F(illegal move) moves 0 restarts 0 0",
    ),
    (
        "?4 no\n\n",
        NoMove,
        b"game 1: W+F(no move) moves 0 restarts 0 0",
    ),
];

#[test]
fn an_answer_resigns_or_forfeits_if_it_is_no_legal_move(rt: HostRuntime) {
    let mut played = Played::new(&rt, "a resignation", Opening::Asked(1));
    played.hear(&rt, Black, b"=4 RESIGN\n\n", 11, None);
    let ended = Shows::Ended(Verdict::Resign(Black), b"game 1: W+R moves 0 restarts 0 0");
    for what in [ended, Shows::InStep(Black, true)] {
        assert_shows(&rt, played.place, &played.game, &what);
    }
    for (text, cause, line) in &FORFEITS {
        let mut played = Played::new(&rt, text, Opening::Asked(1));
        played.hear(&rt, Black, text.as_bytes(), text.len(), None);
        let ended = Shows::Ended(Verdict::Forfeit(Black, *cause), line);
        for what in [
            ended,
            Shows::InStep(Black, false),
            Shows::InStep(White, true),
        ] {
            assert_shows(&rt, (text, 0), &played.game, &what);
        }
    }
}
