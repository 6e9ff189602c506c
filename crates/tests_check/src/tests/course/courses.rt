//! Whole courses.
use crate::asserts::{assert_equal, assert_equal_for, assert_true, assert_true_for};
use arrayvec::ArrayVec;
use go_board::KoRule;
use gtp_check_course::{Action, Course, LESSONS, Lesson, Lessons, Unasked};
use gtp_check_judge::{CheckCommand, Examiner, Known};
use gtp_session::first::First;
use gtp_session::session::Session;
use gtp_wire::{Command, Reply, ReplyText};
use std::process::Abort;

/// What an engine wrote that hasn't been heard yet: eight replies at most.
type Written = ArrayVec<u8, 65536>;

/// A check of our engine, in memory. The engine may refuse all sizes except one, and say that it has no `undo`.
#[derive(Drop)]
struct Talk {
    only_size: Option<u32>,
    has_undo: bool,
    examiner: Examiner,
    session: Session<First>,
    written: Written,
    starts: u32,
    kills: u32,
    asked: u32,
    /// How many moves were asked in the lesson of each number.
    moves: [u32; 15],
}

impl Talk {
    fn new(only_size: Option<u32>, has_undo: bool) -> Talk {
        Talk {
            only_size,
            has_undo,
            examiner: Examiner::new(KoRule::Simple, 100),
            session: Session::new(First),
            written: Written::new(),
            starts: 0,
            kills: 0,
            asked: 0,
            moves: [0; 15],
        }
    }

    /// A new engine.
    fn start(&mut self, rt: &impl Abort) {
        assert_true(rt, self.examiner.may_start());
        self.examiner.started();
        self.session = Session::new(First);
        self.written.clear();
        self.starts = self.starts.saturating_add(1);
    }

    /// All that the engine wrote is heard. Nothing is found.
    fn hear(&mut self, rt: &impl Abort) {
        let mut bytes = self.written.as_slice();
        let mut reply = Reply::new();
        for _piece in 0..65_536u32 {
            if bytes.is_empty() {
                break;
            }
            let heard = self.examiner.heard(bytes, &mut reply);
            assert_true(rt, heard.finding.is_none());
            bytes = bytes.get(heard.used..).unwrap_or_default();
        }
        self.written.clear();
    }

    /// What the engine answers in place of the session, if anything.
    fn own_answer(&self, command: &CheckCommand) -> Option<(u8, &'static [u8])> {
        match (command, self.only_size) {
            (CheckCommand::Match(Command::Boardsize(size)), Some(only)) if size.get() != only => {
                Some((b'?', b" unacceptable size\n\n"))
            }
            (CheckCommand::KnownCommand(Known::Undo), _) if !self.has_undo => {
                Some((b'=', b" false\n\n"))
            }
            _ => None,
        }
    }

    /// The engine is asked a command, and answers it.
    fn ask(&mut self, rt: &impl Abort, command: CheckCommand) {
        assert_true(rt, self.examiner.has_room(&command));
        assert_true(
            rt,
            self.has_undo || command != CheckCommand::Match(Command::Undo),
        );
        let own = self.own_answer(&command);
        let line = self.examiner.ask(command).text;
        let mut text = ReplyText::new();
        match own {
            Some((status, words)) => {
                let _ = text.try_push(status);
                let id = line.iter().position(|byte| *byte == b' ').unwrap_or(0);
                let _ = text.try_extend_from_slice(line.get(..id).unwrap_or_default());
                let _ = text.try_extend_from_slice(words);
            }
            None => {
                let _ = self.session.feed_into(&line, &mut text);
            }
        }
        for byte in text.iter() {
            let _ = self.written.try_push(*byte);
        }
        self.asked = self.asked.saturating_add(1);
    }

    /// A move that is asked in a lesson is counted.
    fn count(&mut self, lesson: Option<Lesson>, command: &CheckCommand) {
        let is_move = matches!(
            command,
            CheckCommand::Match(Command::Play(_) | Command::Genmove(_))
                | CheckCommand::PlayInFull(_)
                | CheckCommand::GenmoveInFull(_)
        );
        if let (Some(lesson), true) = (lesson, is_move) {
            let number = lesson.number();
            self.moves[number] = self.moves[number].saturating_add(1);
        }
    }

    /// Runs a course to its end.
    fn hold(&mut self, rt: &impl Abort, course: &mut Course) {
        for _call in 0..1_000_000u32 {
            let lesson = course.lesson();
            match course.next(&self.examiner) {
                Action::Start => self.start(rt),
                Action::Restart => self.examiner.lost(),
                Action::Kill => {
                    self.kills = self.kills.saturating_add(1);
                    self.examiner.lost();
                }
                Action::Ask(command) => {
                    self.count(lesson, &command);
                    self.ask(rt, command);
                }
                Action::Wait => self.hear(rt),
                Action::Skip => {}
                Action::Done => break,
            }
        }
        assert_true(rt, course.lesson().is_none());
        self.hear(rt);
    }
}

/// An engine of all sizes or of one, which may be without `undo`; the least number of commands that it is asked; how
/// often it is started and killed, where that is known; and the least number of moves that each lesson asks of it.
static COURSES: [(Option<u32>, bool, u32, (Option<u32>, Option<u32>), u32); 4] = [
    (None, true, 100_001, (Some(27), Some(5)), 0),
    // A size that no list has.
    (Some(6), true, 0, (None, Some(1)), 8),
    (Some(19), true, 50_001, (None, None), 0),
    (None, false, 20_001, (None, None), 0),
];

#[test]
fn nothing_is_found_of_our_engine_with_all_sizes_or_one_or_without_undo(rt: HostRuntime) {
    for (only_size, has_undo, asked, (starts, kills), moves) in &COURSES {
        let mut lessons = Lessons::new();
        for lesson in LESSONS {
            let _ = lessons.try_push(lesson);
        }
        let mut talk = Talk::new(*only_size, *has_undo);
        talk.hold(&rt, &mut Course::new(lessons, None, 1, Unasked::default()));
        let case = (*only_size, *has_undo);
        assert_true_for(&rt, (case, talk.asked), talk.asked >= *asked);
        assert_equal_for(&rt, case, talk.starts, starts.unwrap_or(talk.starts));
        assert_equal_for(&rt, case, talk.kills, kills.unwrap_or(talk.kills));
        for (lesson, made) in LESSONS.iter().zip(talk.moves) {
            assert_true_for(&rt, (case, *lesson, made), made >= *moves);
        }
    }
}

/// What is found in a lesson until the next one begins: of each whether it is a loss of the engine.
static ENOUGH: [&[bool]; 4] = [
    &[
        false, false, false, false, false, false, false, false, false, false,
    ],
    &[true, true, true],
    &[false, true, false, true, false, true],
    &[
        true, false, false, false, false, false, false, false, false, true,
    ],
];

#[test]
fn a_part_is_left_after_a_finding_and_a_lesson_after_ten_or_three_losses(rt: HostRuntime) {
    for findings in &ENOUGH {
        let mut lessons = Lessons::new();
        let _ = lessons.try_push(Lesson::Handicaps);
        let _ = lessons.try_push(Lesson::Komi);
        let mut course = Course::new(lessons, None, 1, Unasked::default());
        for (part, is_loss) in findings.iter().enumerate() {
            assert_equal_for(&rt, *findings, course.lesson(), Some(Lesson::Handicaps));
            assert_equal_for(&rt, *findings, course.place().part as usize, part);
            course.leave(*is_loss);
        }
        assert_equal_for(&rt, *findings, course.lesson(), Some(Lesson::Komi));
        assert_equal_for(&rt, *findings, course.place().part, 0);
        course.leave(true);
        course.leave(true);
        assert_equal_for(&rt, *findings, course.lesson(), Some(Lesson::Komi));
    }
}
