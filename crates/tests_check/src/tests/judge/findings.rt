//! Each kind of finding once, and answers that are none.
use super::{ask, asked, begun, hear, may_ask};
use crate::asserts::{assert_equal, assert_equal_for, assert_true, some};
use go_base::Size;
use go_board::{HandicapFault, KoRule, PlayFault};
use gtp_check_judge::{Cause, CheckCommand, Examiner, Kind, MOST_UNANSWERED, Refusal};
use gtp_wire::Reply;

/// The board's size, the commands that are asked on it, what is heard, and what is found.
static ANSWERS: [(&str, &[&str], &str, Option<Kind>); 25] = [
    // What a right engine does may not be refused.
    (
        "1 boardsize 5\n",
        &["6 play b C3\n"],
        "?6 illegal move\n\n",
        Some(Kind::Refused),
    ),
    // What it refuses may not be done.
    (
        "1 boardsize 5\n",
        &["6 play b F1\n"],
        "=6\n\n",
        Some(Kind::Took(Cause::BadMove(PlayFault::OffBoard))),
    ),
    (
        "1 boardsize 5\n",
        &["6 undo\n"],
        "=6\n\n",
        Some(Kind::Took(Cause::NoMoves)),
    ),
    (
        "1 boardsize 5\n",
        &["6 fixed_handicap 2\n"],
        "=6 C3\n\n",
        Some(Kind::Took(Cause::BadHandicap(HandicapFault::BadNumber))),
    ),
    // A handicap has its points.
    (
        "1 boardsize 9\n",
        &["6 fixed_handicap 2\n"],
        "=6 g7 C3\n\n",
        None,
    ),
    (
        "1 boardsize 9\n",
        &["6 fixed_handicap 2\n"],
        "=6 C7 G3\n\n",
        Some(Kind::OtherPoints),
    ),
    // A choice has to be legal.
    ("1 boardsize 5\n", &["6 genmove b\n"], "=6 a1\n\n", None),
    ("1 boardsize 5\n", &["6 genmove b\n"], "=6 Resign\n\n", None),
    (
        "1 boardsize 5\n",
        &["6 genmove b\n"],
        "?6 no\n\n",
        Some(Kind::NoMove),
    ),
    (
        "1 boardsize 5\n",
        &["6 genmove b\n"],
        "=6 A1 B1\n\n",
        Some(Kind::NoVertex),
    ),
    (
        "1 boardsize 5\n",
        &["6 genmove b\n"],
        "=6 F1\n\n",
        Some(Kind::Unlawful(PlayFault::OffBoard)),
    ),
    // A colour may be written in full.
    ("1 boardsize 5\n", &["6 play black C3\n"], "=6\n\n", None),
    (
        "1 boardsize 5\n",
        &["6 play black C3\n"],
        "?6 syntax error\n\n",
        Some(Kind::Refused),
    ),
    (
        "1 boardsize 5\n",
        &["6 play black C3\n", "7 play white C3\n"],
        "=6\n\n=7\n\n",
        Some(Kind::Took(Cause::BadMove(PlayFault::Occupied))),
    ),
    ("1 boardsize 5\n", &["6 genmove black\n"], "=6 a1\n\n", None),
    (
        "1 boardsize 5\n",
        &["6 genmove white\n"],
        "=6 F1\n\n",
        Some(Kind::Unlawful(PlayFault::OffBoard)),
    ),
    // A list has eleven commands, in any order, and any others.
    (
        "1 boardsize 5\n",
        &["6 list_commands\n"],
        "=6 genmove\nplay\nundo\nkomi\nclear_board\nboardsize\nquit\nlist_commands\nknown_command\n\
            version\nname\nprotocol_version\n\n",
        None,
    ),
    (
        "1 boardsize 5\n",
        &["6 list_commands\n"],
        "=6 reg_genmove\nplay\nundo\nkomi\nclear_board\nboardsize\nquit\nlist_commands\nknown_command\n\
            version\nname\nprotocol_version\n\n",
        Some(Kind::Unlisted),
    ),
    // Each has a row of its own.
    (
        "1 boardsize 5\n",
        &["6 list_commands\n"],
        "=6 genmove play undo komi clear_board boardsize quit list_commands known_command version name\n\
            protocol_version\n\n",
        Some(Kind::Unlisted),
    ),
    (
        "1 boardsize 5\n",
        &["6 list_commands\n"],
        "=6\n\n",
        Some(Kind::Unlisted),
    ),
    (
        "1 boardsize 5\n",
        &["6 list_commands\n"],
        "?6 unknown command\n\n",
        Some(Kind::Refused),
    ),
    // Replies have the form and the id.
    (
        "1 boardsize 5\n",
        &["6 undo\n"],
        "? no\n\n",
        Some(Kind::WrongId),
    ),
    (
        "1 boardsize 5\n",
        &["6 undo\n"],
        "?5 no\n\n",
        Some(Kind::WrongId),
    ),
    (
        "1 boardsize 5\n",
        &["6 undo\n"],
        "?6 no\n\n=6\n\n",
        Some(Kind::Unasked),
    ),
    (
        "1 boardsize 5\n",
        &["6 undo\n"],
        "hello\n",
        Some(Kind::NoStatus),
    ),
];

#[test]
fn each_kind_of_wrong_answer_is_found_and_no_right_answer(rt: HostRuntime) {
    for (size, lines, text, kind) in &ANSWERS {
        let mut examiner = begun(&rt, size);
        for line in *lines {
            ask(&rt, &mut examiner, line);
        }
        let found = hear(&rt, &mut examiner, text.as_bytes());
        assert_equal_for(&rt, (*lines, *text), found, *kind);
    }
    let mut examiner = begun(&rt, "1 boardsize 5\n");
    ask(&rt, &mut examiner, "6 undo\n");
    let spaces = [b' '; 8193];
    let found = hear(&rt, &mut examiner, &spaces);
    assert_equal(&rt, found, Some(Kind::Overlong));
}

/// Where the names begin in a list of the eleven commands that the standard requires.
const NAMES: [usize; 11] = [3, 20, 25, 33, 47, 61, 66, 76, 88, 93, 98];

#[test]
fn a_list_lacks_none_of_eleven_commands(rt: HostRuntime) {
    for start in NAMES {
        let mut list = *b"=6 protocol_version\nname\nversion\nknown_command\nlist_commands\nquit\n\
            boardsize\nclear_board\nkomi\nplay\ngenmove\n\n";
        *some(&rt, list.get_mut(start)) = b'x';
        let mut examiner = begun(&rt, "1 boardsize 5\n");
        ask(&rt, &mut examiner, "6 list_commands\n");
        let found = hear(&rt, &mut examiner, &list);
        assert_equal_for(&rt, start, found, Some(Kind::Unlisted));
    }
}

#[test]
fn a_size_may_be_refused(rt: HostRuntime) {
    let mut examiner = begun(&rt, "1 boardsize 5\n");
    ask(&rt, &mut examiner, "6 play b C3\n");
    assert_true(&rt, !may_ask(&rt, &examiner, "boardsize 7"));
    assert_equal(&rt, hear(&rt, &mut examiner, b"=6\n\n"), None);
    ask(&rt, &mut examiner, "7 boardsize 7\n");
    let mut reply = Reply::new();
    let heard = examiner.heard(b"?7 unacceptable size\n\n", &mut reply);
    assert_true(&rt, heard.finding.is_none());
    let seven = some(&rt, Size::new(7));
    assert_equal(&rt, heard.refused, Some(Refusal::Size(seven)));
    // The game is as it was, and no start was needed.
    assert_equal(&rt, examiner.game().moves().len(), 1);
    assert_true(&rt, examiner.is_up());
    assert_equal(&rt, examiner.starts(), 1);
    ask(&rt, &mut examiner, "8 boardsize 7\n");
    let heard = examiner.heard(b"=8\n\n", &mut reply);
    assert_true(&rt, heard.finding.is_none());
    assert_equal(&rt, heard.refused, None);
    assert_equal(&rt, examiner.game().size().get(), 7);
    assert_true(&rt, !may_ask(&rt, &examiner, "undo"));
}

#[test]
fn an_undo_may_be_refused_once_one_has_succeeded_since_the_last_move(rt: HostRuntime) {
    let mut examiner = begun(&rt, "1 boardsize 5\n");
    for line in ["6 play b C3\n", "7 play w D4\n", "8 undo\n"] {
        ask(&rt, &mut examiner, line);
    }
    // What comes of the next one isn't known before its answer, so it is asked alone.
    assert_true(&rt, !may_ask(&rt, &examiner, "undo"));
    let answers = b"=6\n\n=7\n\n=8\n\n";
    assert_equal(&rt, hear(&rt, &mut examiner, answers), None);
    ask(&rt, &mut examiner, "9 undo\n");
    assert_true(&rt, !may_ask(&rt, &examiner, "play b A1"));
    let mut reply = Reply::new();
    let heard = examiner.heard(b"?9 cannot undo\n\n", &mut reply);
    assert_true(&rt, heard.finding.is_none());
    assert_equal(&rt, heard.refused, Some(Refusal::Undo));
    assert_equal(&rt, examiner.game().moves().len(), 1);
    ask(&rt, &mut examiner, "10 undo\n");
    assert_equal(&rt, hear(&rt, &mut examiner, b"=10\n\n"), None);
    assert_equal(&rt, examiner.game().moves().len(), 0);
    // The first one after a move has to succeed.
    ask(&rt, &mut examiner, "11 play b C3\n");
    ask(&rt, &mut examiner, "12 undo\n");
    let answers = b"=11\n\n?12 cannot undo\n\n";
    assert_equal(&rt, hear(&rt, &mut examiner, answers), Some(Kind::Refused));
}

#[test]
fn eight_commands_are_unanswered_at_most(rt: HostRuntime) {
    let mut examiner = Examiner::new(KoRule::Simple, 1);
    assert_true(&rt, !may_ask(&rt, &examiner, "name"));
    assert_true(&rt, examiner.may_start());
    examiner.started();
    assert_true(&rt, !examiner.may_start());
    for _ in 0..MOST_UNANSWERED {
        let _ = asked(&rt, &mut examiner, CheckCommand::Name);
    }
    assert_true(&rt, !may_ask(&rt, &examiner, "name"));
    assert_equal(&rt, examiner.unanswered(), MOST_UNANSWERED);
    examiner.lost();
    assert_true(&rt, !examiner.is_up());
}
