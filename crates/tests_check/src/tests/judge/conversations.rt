//! Conversations with one engine.
use super::{ask, asked, begun, hear, may_ask};
use crate::asserts::{assert_equal, assert_true};
use crate::tests::commands::command;
use go_board::KoRule;
use gtp_check_judge::{CheckCommand, Examiner, Skill};
use gtp_session::first::First;
use gtp_session::session::Session;
use gtp_wire::{Reply, ReplyText};
use std::process::Abort;

#[test]
fn answers_are_heard_in_their_order(rt: HostRuntime) {
    let mut examiner = begun(&rt, "1 boardsize 5\n");
    for line in ["6 play b C3\n", "7 play w C3\n", "8 undo\n", "9 undo\n"] {
        ask(&rt, &mut examiner, line);
    }
    assert_equal(&rt, examiner.unanswered(), 4);
    let answers = b"=6\n\n?7 no\n\n=8\n\n?9 no\n\n";
    assert_equal(&rt, hear(&rt, &mut examiner, answers), None);
    assert_equal(&rt, examiner.game().moves().len(), 0);
}

#[test]
fn what_an_engine_says_of_itself_is_kept(rt: HostRuntime) {
    let mut examiner = begun(&rt, "1 boardsize 5\n");
    for line in ["6 name\n", "7 version\n", "8 known_command undo\n"] {
        ask(&rt, &mut examiner, line);
    }
    let mut reply = Reply::new();
    let heard = examiner.heard(b"=6 Some Engine\n\n", &mut reply);
    assert_equal(&rt, reply.text.as_slice(), b"Some Engine".as_slice());
    let Some(asked) = heard.answered else {
        panic!(rt; "nothing was answered")
    };
    assert_true(&rt, asked.command == CheckCommand::Name);
    let answers = b"?7 no\n\n=8 false\n\n";
    assert_equal(&rt, hear(&rt, &mut examiner, answers), None);
    assert_true(&rt, examiner.skills().undo == Skill::Lacks);
    assert_true(&rt, !may_ask(&rt, &examiner, "undo"));
}

/// Asks a command, which a session answers. There has to be no finding.
fn answered(
    rt: &impl Abort,
    examiner: &mut Examiner,
    session: &mut Session<First>,
    command: CheckCommand,
) {
    let line = asked(rt, examiner, command);
    let mut text = ReplyText::new();
    let _ = session.feed_into(&line, &mut text);
    assert_equal(rt, hear(rt, examiner, &text), None);
    assert_equal(rt, examiner.unanswered(), 0);
}

/// What a session is asked: what it knows, and the list of commands; a 9x9 board with a score and a handicap, moves of
/// both colours, a move that is undone, and two passes. Some colours are written in full.
static COURSE: [&str; 31] = [
    "known_command fixed_handicap",
    "known_command undo",
    "known_command final_score",
    "list_commands",
    "boardsize 9",
    "komi -6.5",
    "clear_board",
    "final_score",
    "fixed_handicap 3",
    "fixed_handicap 3",
    "genmove w",
    "genmove b",
    "play w A1",
    "undo",
    "genmove w",
    "genmove b",
    "play w A1",
    "undo",
    "genmove w",
    "genmove b",
    "play w A1",
    "undo",
    "genmove w",
    "genmove b",
    "play w A1",
    "undo",
    "genmove black",
    "play white A1",
    "undo",
    "play w pass",
    "play b pass",
];

#[test]
fn nothing_is_found_of_our_engine(rt: HostRuntime) {
    let mut examiner = Examiner::new(KoRule::Simple, 1);
    examiner.started();
    let mut session = Session::new(First);
    for text in &COURSE {
        answered(&rt, &mut examiner, &mut session, command(&rt, text));
    }
    assert_true(&rt, !may_ask(&rt, &examiner, "genmove w"));
}
