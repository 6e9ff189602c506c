//! Commands that have to fail, and commands that may not.
use super::{asked, begun, hear};
use crate::asserts::assert_equal_for;
use gtp_check_judge::{Cause, CheckCommand, FaultyCommand, Kind, RequiredCommand};

/// A command that has to fail, and its line as the sixth.
static FAULTY: [(FaultyCommand, &str); 7] = [
    (FaultyCommand::Unknown, "6 vintsaky-no-such-command\n"),
    (
        FaultyCommand::UnknownWithArguments,
        "6 vintsaky-no-such-command b D4\n",
    ),
    (FaultyCommand::Boardsize, "6 boardsize x\n"),
    (FaultyCommand::Komi, "6 komi x\n"),
    (FaultyCommand::PlayNowhere, "6 play b\n"),
    (FaultyCommand::PlayOutside, "6 play b Z99\n"),
    (FaultyCommand::Genmove, "6 genmove x\n"),
];

/// A command that may not fail, and its line as the sixth.
static REQUIRED: [(RequiredCommand, &str); 4] = [
    (RequiredCommand::ProtocolVersion, "6 protocol_version\n"),
    (RequiredCommand::Name, "6 name\n"),
    (RequiredCommand::Version, "6 version\n"),
    (
        RequiredCommand::KnownCommand,
        "6 known_command vintsaky-no-such-command\n",
    ),
];

#[test]
fn what_has_to_fail_fails_with_any_text_and_changes_nothing(rt: HostRuntime) {
    for (faulty, line) in &FAULTY {
        for (answer, kind) in [
            (b"?6\n\n".as_slice(), None),
            (b"?6 D4 x\n\n".as_slice(), None),
            (
                b"=6\n\n".as_slice(),
                Some(Kind::Took(Cause::BadCommand(*faulty))),
            ),
        ] {
            let mut examiner = begun(&rt, "1 boardsize 5\n");
            let text = asked(&rt, &mut examiner, CheckCommand::Faulty(*faulty));
            assert_equal_for(&rt, *line, text.as_slice(), line.as_bytes());
            assert_equal_for(&rt, *line, hear(&rt, &mut examiner, answer), kind);
            assert_equal_for(&rt, *line, examiner.game().size().get(), 5);
            assert_equal_for(&rt, *line, examiner.game().moves().len(), 0);
        }
    }
}

#[test]
fn what_may_not_fail_succeeds_with_any_text(rt: HostRuntime) {
    for (required, line) in &REQUIRED {
        for (answer, kind) in [
            (b"=6\n\n".as_slice(), None),
            (b"=6 2.0 beta\n\n".as_slice(), None),
            (b"?6 unknown command\n\n".as_slice(), Some(Kind::Refused)),
        ] {
            let mut examiner = begun(&rt, "1 boardsize 5\n");
            let text = asked(&rt, &mut examiner, CheckCommand::Required(*required));
            assert_equal_for(&rt, *line, text.as_slice(), line.as_bytes());
            assert_equal_for(&rt, *line, hear(&rt, &mut examiner, answer), kind);
        }
    }
}
