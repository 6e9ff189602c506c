//! Tests of the examiner.
mod conversations;
mod errors;
mod findings;
mod scores;

use crate::asserts::{assert_equal, assert_true, some};
use crate::tests::commands::command;
use go_board::KoRule;
use gtp_check_judge::{CheckCommand, Examiner, Kind};
use gtp_wire::{CommandText, Reply};
use std::process::Abort;

/// Asks this command, which has to be allowed, and returns its line.
fn asked(rt: &impl Abort, examiner: &mut Examiner, command: CheckCommand) -> CommandText {
    assert_true(rt, examiner.has_room(&command));
    examiner.ask(command).text
}

/// Asks the command of this line, which has to be written exactly so.
fn ask(rt: &impl Abort, examiner: &mut Examiner, line: &str) {
    let (_id, text) = some(rt, line.trim_end().split_once(' '));
    let written = asked(rt, examiner, command(rt, text));
    assert_equal(rt, written.as_slice(), line.as_bytes());
}

/// Hears bytes, of which nothing is left, up to the first finding.
fn hear(rt: &impl Abort, examiner: &mut Examiner, bytes: &[u8]) -> Option<Kind> {
    let mut reply = Reply::new();
    let mut left = bytes;
    for _ in 0..20 {
        if left.is_empty() {
            return None;
        }
        let heard = examiner.heard(left, &mut reply);
        if let Some(finding) = heard.finding {
            return Some(finding.kind);
        }
        left = &left[heard.used..];
    }
    panic!(rt; "more than 20 replies")
}

/// Whether the command of this text may be asked.
fn may_ask(rt: &impl Abort, examiner: &Examiner, text: &str) -> bool {
    examiner.has_room(&command(rt, text))
}

/// An examiner whose engine has accepted this size, cleared its board, and said that it knows the optional commands.
/// The next command has the id 6.
fn begun(rt: &impl Abort, line: &str) -> Examiner {
    let mut examiner = Examiner::new(KoRule::Simple, 1);
    examiner.started();
    ask(rt, &mut examiner, line);
    assert_true(rt, !may_ask(rt, &examiner, "clear_board"));
    assert_equal(rt, hear(rt, &mut examiner, b"=1\n\n"), None);
    assert_true(rt, !may_ask(rt, &examiner, "play b A1"));
    ask(rt, &mut examiner, "2 clear_board\n");
    assert_true(rt, may_ask(rt, &examiner, "play b A1"));
    assert_true(rt, !may_ask(rt, &examiner, "undo"));
    assert_equal(rt, hear(rt, &mut examiner, b"=2\n\n"), None);
    ask(rt, &mut examiner, "3 known_command fixed_handicap\n");
    ask(rt, &mut examiner, "4 known_command undo\n");
    ask(rt, &mut examiner, "5 known_command final_score\n");
    let known = b"=3 true\n\n=4 true\n\n=5 true\n\n";
    assert_equal(rt, hear(rt, &mut examiner, known), None);
    assert_true(rt, may_ask(rt, &examiner, "undo"));
    assert_true(rt, !may_ask(rt, &examiner, "final_score"));
    examiner
}
