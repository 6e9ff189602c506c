//! The progress line on a terminal, which each new one replaces.
ghost use Rattle.std.specs.Prelude.{◌≡◌, ◌++◌, [], ◌∷◌, take};
ghost use Rattle.gtp_check_talk.specs.Dialogues.{dialogue};
ghost use Rattle.gtp_check_talk.specs.Notes.{nothing_noted};
ghost use Rattle.gtp_check_app.specs.Progress.{IsShown, cleared, in_place, is_read_next, line_at, line_start};
ghost use Rattle.gtp_check_app.specs.Progress.{looking_line};
ghost use Rattle.gtp_check_app.specs.Progress.{most_columns, place_among, waiting_text};
ghost use Rattle.gtp_check_texts.specs.Texts.{joined};
ghost use Rattle.gtp_check_app.specs.Turns.{state_of, waiting};

use crate::check::Check;
use arrayvec::ArrayVec;
use byte_streams::{WriteOnce, write_or_break};
use go_base::{push, write_int};
use gtp_check_course::{Lesson, Lessons, Plan};
use gtp_check_judge::Examiner;
use gtp_check_talk::engine::Engine;
use gtp_check_talk::{Said, said_at};
use gtp_check_texts::complaint::without_newline;
use gtp_check_texts::summary::plural;
use gtp_process::{Process, Starter};

/// How many columns of a line are written at most.
const MOST_COLUMNS: usize = 79;

/// The text of a line.
type Text = ArrayVec<u8, MOST_COLUMNS>;

/// A text, and the bytes that put it in place of the line before.
type Line = ArrayVec<u8, 83>;

/// Clears the progress line, if `shows_progress` says that there is one.
pub fn clear<E: WriteOnce>(shows_progress: bool, errors: &mut E)
    ensures { IsShown E.WriteOnce shows_progress (cleared ∷ []) errors.old errors.new }
{
    show(shows_progress, b"", errors);
}

/// Shows that shorter conversations are tried.
pub fn show_looking<E: WriteOnce>(shows_progress: bool, errors: &mut E)
    ensures { IsShown E.WriteOnce shows_progress (looking_line ∷ []) errors.old errors.new }
{
    show(
        shows_progress,
        b"looking for a shorter conversation",
        errors,
    );
}

/// Shows a text in place of the line, if there is one.
fn show<E: WriteOnce>(shows_progress: bool, text: &[u8], errors: &mut E)
    ensures { IsShown E.WriteOnce shows_progress (in_place text.now ∷ []) errors.old errors.new }
{
    if shows_progress {
        write_or_break(errors, in_place(text).as_slice());
    }
}

/// Returns a text, with the bytes that put it in place of the line.
pub fn in_place(text: &[u8]) -> Line
    ensures { result.items ≡ in_place text.now }
{
    let mut line = Line::new();
    push(&mut line, b"\r");
    push(&mut line, &text[..MOST_COLUMNS.min(text.len())]);
    push(&mut line, b"\x1b[K");
    line
}

impl<S: Starter> Check<S> {
    /// Shows what the check waits for, before the engine is read.
    pub fn show_waiting<E: WriteOnce>(&self, plan: &Plan<'_>, errors: &mut E)
        ensures { IsShown E.WriteOnce plan.now.shows_progress (waiting plan.now (state_of self.now))
            errors.old errors.new }
    {
        if !plan.shows_progress {
            return;
        }
        let Some(engine) = &self.engine else {
            return;
        };
        if !is_read_next(engine, &self.examiner) {
            return;
        }
        let number = engine.answered(&self.examiner);
        let Some(said) = said_at(engine.talk.as_slice(), number) else {
            return;
        };
        let line = line_at(
            engine.sent.as_slice(),
            engine.talk.as_slice(),
            number,
            &said,
        );
        let text = waiting_text(
            &plan.lessons,
            line,
            said.purpose.lesson,
            self.notes.commands,
            self.examiner.starts(),
        );
        show(plan.shows_progress, text.as_slice(), errors);
    }
}

/// Returns whether the engine is read next: it owes a reply, and none of its output is held.
fn is_read_next<P: Process>(engine: &Engine<P>, examiner: &Examiner) -> bool
    ensures { result ≡ is_read_next (dialogue engine.now examiner.now.exam nothing_noted) }
{
    examiner.unanswered() > 0 && engine.held.is_empty()
}

/// Returns the line of the command with this number, counted from 0, in all that was asked, without its newline.
pub fn line_at<'s>(sent: &'s [u8], talk: &[Said], number: usize, said: &Said) -> &'s [u8]
    ensures { result.now ≡ line_at sent.entry.now talk.now number said.now }
{
    let lines = &sent[..said.end.min(sent.len())];
    let start = line_start(talk, number);
    without_newline(&lines[start.min(lines.len())..])
}

/// Returns where the line of the command with this number begins.
fn line_start(talk: &[Said], number: usize) -> usize
    ensures { result ≡ line_start talk.now number }
{
    match number.checked_sub(1) {
        Some(before) => match talk.get(before) {
            Some(said) => said.end,
            None => 0,
        },
        None => 0,
    }
}

/// Returns what the check waits for: the reply to the command with this line, in this lesson, after this many commands
/// and starts.
pub fn waiting_text(
    lessons: &Lessons,
    line: &[u8],
    lesson: Lesson,
    commands: u32,
    starts: u32,
) -> Text
    ensures { result.items ≡ take most_columns
        (waiting_text lessons.now.items line.now lesson commands starts) }
{
    cut(
        b"waits for \"",
        line,
        &[
            b"\", ",
            lesson.name().as_bytes(),
            b" (",
            &write_int(place_among(lessons, lesson)),
            b" of ",
            &write_int(lessons.len() as u32),
            b"), ",
            &write_int(commands),
            b" command",
            plural(commands),
            b", ",
            &write_int(starts),
            b" start",
            plural(starts),
        ],
    )
}

/// Returns the number of a lesson among these, counted from 1.
fn place_among(lessons: &Lessons, lesson: Lesson) -> u32
    ensures { result ≡ place_among lessons.now.items lesson }
{
    lessons
        .iter()
        .filter(|one| one.number() <= lesson.number())
        .count() as u32
}

/// Joins these texts, as far as they fit into a line.
fn cut(before: &[u8], line: &[u8], parts: &[&[u8]]) -> Text
    ensures { result.items ≡ take most_columns ((before.now ++ line.now) ++ joined parts.now) }
{
    let mut text = Text::new();
    add(&mut text, before);
    add(&mut text, line);
    for part in parts {
        add(&mut text, part);
    }
    text
}

/// Appends as much of a part as fits into a line.
fn add(text: &mut Text, part: &[u8])
    ensures { text.new.items ≡ take most_columns (text.old.items ++ part.now) }
{
    let room = MOST_COLUMNS - text.len();
    push(text, &part[..room.min(part.len())]);
}
