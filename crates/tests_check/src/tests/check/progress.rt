//! The progress lines, compared with lines written by hand.
use super::talk_of;
use crate::asserts::{assert_equal, assert_equal_for, text_of};
use gtp_check_app::options::read_options;
use gtp_check_app::plan::plan_of;
use gtp_check_app::progress::{in_place, line_at, waiting_text};
use gtp_check_course::Lesson;
use std::test::Fail;

/// The arguments of a check, the command and the lesson that it waits for, the numbers of commands and starts so far,
/// and the text.
static WAITING: [(&[&str], &[u8], Lesson, (u32, u32), &str); 2] = [
    (
        &[
            "gtp_check",
            "engine",
            "--only",
            "sizes",
            "--only",
            "ko",
            "--only",
            "komi",
        ],
        b"17 play b D4",
        Lesson::Ko,
        (1234, 7),
        "waits for \"17 play b D4\", ko (2 of 3), 1234 commands, 7 starts",
    ),
    (
        &["gtp_check", "engine"],
        b"1234567 known_command fixed_handicap",
        Lesson::Handicaps,
        (4_294_967_295, 4_294_967_295),
        "waits for \"1234567 known_command fixed_handicap\", handicaps (9 of 15), 42949672",
    ),
];

#[test]
fn what_is_waited_for_is_a_line_of_79_columns_at_most(rt: HostRuntime) -> Result<(), Fail> {
    for (words, command, lesson, (commands, starts), expected) in &WAITING {
        let options = read_options(rt.alloc(), *words)?;
        let plan = plan_of(rt.alloc(), &options, false)?;
        let text = waiting_text(&plan.lessons, command, *lesson, *commands, *starts);
        assert_equal_for(&rt, *words, text_of(&rt, text.as_slice()), *expected);
    }
    let line = in_place(b"waits for \"17 play b D4\", ko (2 of 3), 1234 commands, 7 starts");
    assert_equal(
        &rt,
        text_of(&rt, line.as_slice()),
        "\rwaits for \"17 play b D4\", ko (2 of 3), 1234 commands, 7 starts\u{1b}[K",
    );
    assert_equal(&rt, in_place(&[b'x'; 100]).len(), 83);
    assert_equal(&rt, text_of(&rt, in_place(b"").as_slice()), "\r\u{1b}[K");
    Ok(())
}

#[test]
fn the_line_of_a_command_is_found(rt: HostRuntime) {
    let sent = b"1 name\n2 version\n3 undo\n";
    let talk = talk_of(&rt, 9, &[("name", 7), ("name", 17), ("name", 24)]);
    let lines = ["1 name", "2 version", "3 undo"];
    for ((number, said), expected) in talk.iter().enumerate().zip(lines) {
        let line = line_at(sent, talk.as_slice(), number, said);
        assert_equal(&rt, text_of(&rt, line), expected);
    }
}
