//! Texts of a check, its options and its counts, compared with texts written by hand.
mod ahead;
mod colours;
mod complaints;
mod counts;
mod options;
mod progress;
mod reductions;
mod run_on;
mod shorter;
mod texts;
mod worked_texts;

use crate::asserts::{assert_true, some};
use crate::tests::commands::command;
use go_base::Size;
use gtp_check_course::Lesson;
use gtp_check_judge::Kind;
use gtp_check_talk::{Fault, Purpose, Said};
use gtp_check_texts::complaint::Complaint;
use gtp_check_texts::last_game::Shown;
use gtp_process::Ending;
use std::process::Abort;

/// A conversation of these commands on a board of this size, each with the end of its line. A right engine refuses none
/// of them.
fn talk_of<R: Abort + AllocGlobal>(rt: &R, lines: u32, commands: &[(&str, usize)]) -> Vec<Said> {
    let purpose = Purpose {
        lesson: Lesson::Ko,
        part: 0,
    };
    talk_for(rt, purpose, lines, commands)
}

/// The same, where the commands are asked for this purpose.
fn talk_for<R: Abort + AllocGlobal>(
    rt: &R,
    purpose: Purpose,
    lines: u32,
    commands: &[(&str, usize)],
) -> Vec<Said> {
    let mut talk = Vec::new(rt.alloc());
    for (text, end) in commands {
        let said = Said {
            command: command(rt, text),
            purpose,
            is_illegal: false,
            size: some(rt, Size::new(lines)),
            moves: 0,
            last: None,
            end: *end,
        };
        assert_true(rt, talk.push(said).is_ok());
    }
    talk
}

/// The complaint about the second command of a conversation, whose reply has no id or another.
fn without_id<'t>(sent: &'t [u8], talk: &'t [Said], wrote: &'t [u8]) -> Complaint<'t> {
    Complaint {
        number: 1,
        lesson: Lesson::Start,
        fault: Fault::Wrote(Kind::WrongId),
        sent,
        delivered: sent.len(),
        talk,
        answered: 1,
        wrote,
        ending: Ending::Running,
        is_positional: false,
        game: None,
        shown: Shown::Whole,
    }
}
