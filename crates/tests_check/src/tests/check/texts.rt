//! The first and the last lines, and the list of lessons.
use crate::asserts::assert_equal;
use go_base::{Colour, Move};
use go_board::KoRule;
use gtp_check_app::options::read_options;
use gtp_check_app::plan::plan_of;
use gtp_check_course::{LESSONS, Lesson};
use gtp_check_judge::{Asked, CheckCommand, Due, Examiner, Heard};
use gtp_check_talk::notes::Notes;
use gtp_check_texts::listing::list_text;
use gtp_check_texts::summary::{Ending, Over, first_line, last_lines};
use gtp_wire::{Command, Reply};
use std::str;
use std::test::Fail;

#[test]
fn a_check_has_a_first_line_and_last_lines_and_a_lesson_has_a_line(
    rt: HostRuntime,
) -> Result<(), Fail> {
    let words = ["gtp_check", "engine", "--seed", "7", "--skip", "komi"];
    let options = read_options(rt.alloc(), words.as_slice())?;
    let plan = plan_of(rt.alloc(), &options, false)?;
    let mut notes = Notes::new();
    let first = first_line(rt.alloc(), &plan, &notes)?;
    let expected = "check: an engine without a name, version unknown, seed 7, simple ko\n";
    assert_equal(&rt, str::from_utf8(first.as_slice())?, expected);
    notes.lacks_undo = true;
    notes.most_undos = Some(400);
    let _ = notes.refused.try_push(1);
    let _ = notes.refused.try_push(25);
    let skills = Examiner::new(KoRule::Simple, 1).skills();
    // A `play` that is refused is answered too.
    let refusal = Reply::new();
    for lesson in LESSONS {
        let answered = match lesson {
            Lesson::Genmoves | Lesson::Komi | Lesson::Games => Some(asked(CheckCommand::Name)),
            Lesson::Suicide => None,
            Lesson::Ko => Some(asked(CheckCommand::Match(Command::Play(Move::default())))),
            _ => Some(asked(CheckCommand::Match(Command::Genmove(Colour::White)))),
        };
        let heard = Heard {
            used: 0,
            read: None,
            finding: None,
            answered,
            refused: None,
        };
        notes.count();
        notes.take(&heard, lesson, &refusal, skills);
    }
    let ending = Ending {
        over: &Over::NoMoreStarts,
        missed: &[Lesson::Games, Lesson::Restarts],
        hidden: &[0, 0, 0, 0, 4],
        starts: 2,
        complaints: 0,
        unjudged: 1,
    };
    let last = last_lines(rt.alloc(), &plan, &notes, &ending)?;
    let expected = "check: ko: more complaints, of kinds that were shown three times: 4
check: not asked, as the options say: komi
check: not asked, or not to their end, since no start was left: games restarts
check: suicide: no play and no genmove was answered rightly on any board of it
check: genmoves: no play and no genmove was answered rightly on any board of it
check: it lacks undo; nothing was asked that needs it
check: it first refused an undo after 400 undos in a row
check: it refuses the sizes 1 25
check: 1 move by genmove, not judged, as the options say
check: 15 commands, 2 starts, 0 complaints
";
    assert_equal(&rt, str::from_utf8(last.as_slice())?, expected);
    let list = list_text(rt.alloc())?;
    let first = b"start        the first moves".as_slice();
    assert_equal(&rt, list.as_slice().starts_with(first), true);
    Ok(())
}

/// A command that was asked, whose answer is not judged.
fn asked(command: CheckCommand) -> Asked {
    Asked {
        id: 1,
        command,
        due: Due::AnyReply,
    }
}
