//! The block of a complaint.
ghost use Rattle.std.specs.Prelude.{◌≡◌, ◌≤◌, ◌+◌, ◌++◌, length, nat_lt, take, IfOk, OnOk};
ghost use Rattle.std.specs.List.{list_any};
ghost use Rattle.go_base.specs.Bytes.{newline, space};
ghost use Rattle.std.specs.Io.BufRead.{strip_last};
ghost use Rattle.gtp_process.specs.Shown.{late_text, quoted};
ghost use Rattle.gtp_wire.specs.Replies.{most_shown};
ghost use Rattle.gtp_check_texts.specs.Complaints.{in_a_row};
ghost use Rattle.gtp_check_texts.specs.reasons.Answers.{before_rule};
ghost use Rattle.gtp_check_texts.specs.Complaints.{ahead_lines, answer_of, asked_lines, board_lines};
ghost use Rattle.gtp_check_texts.specs.Complaints.{complaint_lines, ended_text, faulty_said, head_line, is_within};
ghost use Rattle.gtp_check_texts.specs.Complaints.{hint_of, may_run_on, pieces_line, rule_end, rule_line, rule_of};
ghost use Rattle.gtp_check_texts.specs.Complaints.{said_before, shown_before, spelling, explained, within_text};
ghost use Rattle.gtp_check_texts.specs.Complaints.{wrong_text, wrote_line};
ghost use Rattle.gtp_check_texts.specs.Conversation.{after_lines, asked_line, faulty_line, line_end};
ghost use Rattle.gtp_check_texts.specs.Conversation.{line_of, line_start, lines_to};
ghost use Rattle.gtp_check_texts.specs.reasons.Rules.{rule_text};
ghost use Rattle.gtp_check_texts.specs.reasons.RunOn.{run_on_line};

use crate::board::add_board;
use crate::last_game::{Shown, add_last_game, add_lines};
use crate::reasons::{
    ANSWER_ROOM, add_id_due, add_reason, fault_text, hint_line, in_a_row_line, right_answer,
    rule_text, runs_on, spelling_line, with_letter,
};
use crate::texts::{add_all, text_if};
use arrayvec::ArrayVec;
use go_base::write_int;
use go_board::Game;
use gtp_check_course::Lesson;
use gtp_check_judge::CheckCommand;
use gtp_check_talk::{Fault, Said, said_at};
use gtp_process::{Ending, PipeCause, push_ending, push_late, push_quoted};
use gtp_wire::MOST_SHOWN;
use std::alloc::{AllocError, Global};

/// A fault, and the conversation in which it was found.
#[derive(Clone, Copy)]
pub struct Complaint<'t> {
    /// Its number, counted from 1.
    pub number: u32,
    /// The lesson in which it was found.
    pub lesson: Lesson,
    /// What is wrong.
    pub fault: Fault,
    /// The lines of all that the engine was asked since it was started.
    pub sent: &'t [u8],
    /// How many bytes of these lines were sent to it.
    pub delivered: usize,
    /// The commands.
    pub talk: &'t [Said],
    /// How many of them it answered before the fault.
    pub answered: usize,
    /// The beginning of what it wrote after these replies.
    pub wrote: &'t [u8],
    /// How its process ended.
    pub ending: Ending,
    /// Whether positional ko explains the refusal.
    pub is_positional: bool,
    /// The game of a correct engine before the faulty command, if it is known.
    pub game: Option<&'t Game>,
    /// How much of the conversation is shown.
    pub shown: Shown,
}

/// Returns the text of a complaint: what was wrong, the conversation as it was sent with the board before the faulty
/// command, what the engine wrote, what is right, and what was sent before that reply was read.
///
/// # Errors
///
/// If memory can't be allocated.
pub fn complaint_text(alloc: Global, complaint: &Complaint<'_>) -> Result<Vec<u8>, AllocError>
    ensures { IfOk result (λ text. text.items ≡ complaint_lines complaint.now) }
{
    let mut text = Vec::new(alloc);
    add_head(&mut text, complaint)?;
    add_asked(alloc, &mut text, complaint)?;
    add_wrote(&mut text, complaint.wrote)?;
    add_rule(&mut text, complaint)?;
    add_run_on(&mut text, complaint)?;
    add_ahead(&mut text, complaint.after_lines())?;
    text.extend_from_slice(complaint.hint())?;
    text.extend_from_slice(b"\n")?;
    Ok(text)
}

impl<'t> Complaint<'t> {
    /// Returns where the line of the command with this number, counted from 0, ends.
    fn line_end(&self, number: usize) -> usize
        ensures { result ≡ line_end self.now number }
    {
        match self.talk.get(number) {
            Some(said) => said.end,
            None => self.sent.len(),
        }
    }

    /// Returns where it begins.
    fn line_start(&self, number: usize) -> usize
        ensures { result ≡ line_start self.now number }
    {
        match number.checked_sub(1) {
            Some(before) => self.line_end(before),
            None => 0,
        }
    }

    /// Returns the lines that were sent, up to that of this command.
    fn lines_to(&self, number: usize) -> &'t [u8]
        ensures { result.now ≡ lines_to self.now number }
    {
        front(self.sent, self.line_end(number))
    }

    /// Returns the line of this command as it was sent.
    pub(crate) fn line_of(&self, number: usize) -> &'t [u8]
        ensures { result.now ≡ line_of self.now number }
    {
        let lines = self.lines_to(number);
        let start = self.line_start(number);
        &lines[start.min(lines.len())..]
    }

    /// Returns the line of the faulty command as it was sent.
    fn asked_line(&self) -> &'t [u8]
        ensures { result.now ≡ asked_line self.now }
    {
        self.line_of(self.answered)
    }

    /// Returns what was asked, up to the faulty command.
    pub(crate) fn asked(&self) -> &'t [Said]
        ensures { result.now ≡ take (self.now.answered + 1) self.now.talk.now }
    {
        let count = self.answered.saturating_add(1).min(self.talk.len());
        &self.talk[..count]
    }

    /// Returns the faulty command, without its newline.
    fn faulty_line(&self) -> &'t [u8]
        ensures { result.now ≡ faulty_line self.now }
    {
        without_newline(self.asked_line())
    }

    /// Returns the lines that were sent after it.
    fn after_lines(&self) -> &'t [u8]
        ensures { result.now ≡ after_lines self.now }
    {
        let lines = front(self.sent, self.delivered);
        let end = self.line_end(self.answered);
        &lines[end.min(lines.len())..]
    }

    /// Returns the note that the line of the faulty command came in two chunks, if it did.
    fn pieces_line(&self) -> &'static [u8]
        ensures { result.now ≡ pieces_line (faulty_said self.now) }
    {
        match self.talk.get(self.answered) {
            Some(said) => text_if(
                said.purpose.lesson.is_in_pieces(said.purpose.part),
                b"# that line came in two pieces: a right engine waits for its newline\n",
            ),
            None => b"",
        }
    }

    /// Returns whether its output ended within a reply, of which something was written that isn't blank.
    fn is_within(&self) -> bool
        ensures { result ≡ is_within self.now.fault self.now.wrote.now }
    {
        match self.fault {
            Fault::CutOff(PipeCause::Ended) => has_more_than_blanks(self.wrote),
            _ => false,
        }
    }

    /// Returns whether a reply may have run on into the next one.
    fn may_run_on(&self) -> bool
        ensures { result ≡ may_run_on self.now }
    {
        runs_on(self.fault, self.answered, self.talk.len(), self.wrote)
    }

    /// Returns the rule that says what is right, in any game.
    fn rule(&self) -> &'static [u8]
        ensures { result.now ≡ rule_text self.now.fault self.now.ending (explained self.now) }
    {
        rule_text(self.fault, self.ending, self.explained())
    }

    /// Returns the note that moves of one colour in a row are legal, if such a move was refused in a known game.
    fn in_a_row(&self) -> &'static [u8]
        ensures { result.now ≡ in_a_row self.now.game self.now.fault (explained self.now) }
    {
        match (self.game, self.fault, self.explained()) {
            (Some(game), Fault::Wrote(kind), Some(command)) => in_a_row_line(game, &command, kind),
            _ => b"",
        }
    }

    /// Returns the command to explain, if there is one.
    fn explained(&self) -> Option<CheckCommand>
        ensures { result ≡ explained self.now }
    {
        let said = self.talk.get(self.answered)?;
        Some(with_letter(said.command))
    }

    /// Returns what was asked and answered correctly before the faulty command.
    fn said_before(&self) -> &'t [Said]
        ensures { result.now ≡ said_before self.now }
    {
        &self.talk[..self.answered.min(self.talk.len())]
    }

    /// Returns the note that the colour in full may be the cause, if such a command was refused.
    fn spelling(&self) -> &'static [u8]
        ensures { result.now ≡ spelling (said_before self.now) self.now.fault (faulty_said self.now) }
    {
        match (self.fault, self.talk.get(self.answered)) {
            (Fault::Wrote(kind), Some(said)) => {
                spelling_line(self.said_before(), &said.command, kind)
            }
            _ => b"",
        }
    }

    /// Returns the line that says what to try, if there is one.
    fn hint(&self) -> &'static [u8]
        ensures { result.now ≡ hint_of self.now }
    {
        hint_line(self.is_positional, self.fault, self.explained())
    }

    /// Returns what a correct engine answers, if that is shown.
    fn answer(&self) -> ArrayVec<u8, ANSWER_ROOM>
        ensures { result.items ≡ answer_of self.now }
    {
        right_answer(self.fault, said_at(self.talk, self.answered))
    }
}

/// Returns the first `count` bytes of a text.
fn front(text: &[u8], count: usize) -> &[u8]
    ensures { result.now ≡ take count text.entry.now }
{
    &text[..count.min(text.len())]
}

/// Returns a line without its newline.
pub fn without_newline(line: &[u8]) -> &[u8]
    ensures { result.now ≡ strip_last newline line.entry.now }
{
    match line {
        [text @ .., b'\n'] => text,
        _ => line,
    }
}

/// Appends the first line: the number, the lesson, the command and what was wrong.
fn add_head(text: &mut Vec<u8>, complaint: &Complaint<'_>) -> Result<(), AllocError>
    ensures { OnOk result (text.new.items ≡ text.old.items ++ head_line complaint.now) }
{
    add_all(
        text,
        &[
            b"# ",
            &write_int(complaint.number),
            b" ",
            complaint.lesson.name().as_bytes(),
            b": \"",
        ],
    )?;
    text.extend_from_slice(complaint.faulty_line())?;
    add_wrong(text, complaint)
}

/// Appends what was wrong: of a late answer only that, and otherwise also how the process ended, if it was lost.
fn add_wrong(text: &mut Vec<u8>, complaint: &Complaint<'_>) -> Result<(), AllocError>
    ensures { OnOk result (text.new.items ≡ text.old.items ++ wrong_text complaint.now) }
{
    match (complaint.fault, complaint.ending) {
        (Fault::CutOff(_), Ending::Late(seconds)) => {
            add_all(text, &[b"\": ", &late_text(seconds), b"\n"])
        }
        (fault, ending) => add_all(
            text,
            &[
                b"\": ",
                fault_text(fault),
                within_text(complaint.is_within()),
                &ended_text(fault, ending),
                b"\n",
            ],
        ),
    }
}

/// Returns that there was no answer within this many seconds.
fn late_text(seconds: u32) -> ArrayVec<u8, 31>
    ensures { result.items ≡ late_text seconds }
{
    let mut text = ArrayVec::new();
    push_late(&mut text, seconds);
    text
}

/// Returns whether something is written that isn't blank.
fn has_more_than_blanks(wrote: &[u8]) -> bool
    ensures { result ≡ list_any (λ byte. nat_lt space byte) wrote.now }
{
    wrote.iter().any(|byte| *byte > b' ')
}

/// Returns the note that its output ended within a reply, if it did.
fn within_text(is_within: bool) -> &'static [u8]
    ensures { result.now ≡ within_text is_within }
{
    if is_within { b" within a reply" } else { b"" }
}

/// Returns how the process ended, if that is what was wrong.
fn ended_text(fault: Fault, ending: Ending) -> ArrayVec<u8, 33>
    ensures { result.items ≡ ended_text fault ending }
{
    let mut text = ArrayVec::new();
    match fault {
        Fault::Wrote(_) => {}
        Fault::CutOff(_) => push_ending(&mut text, ending),
    }
    text
}

/// Appends the line with what the engine wrote.
fn add_wrote(text: &mut Vec<u8>, wrote: &[u8]) -> Result<(), AllocError>
    ensures { OnOk result (text.new.items ≡ text.old.items ++ wrote_line wrote.now) }
{
    add_all(text, &[b"# it wrote: ", &shown(wrote), b"\n"])
}

/// Returns the beginning of what the engine wrote, as it is shown.
fn shown(wrote: &[u8]) -> ArrayVec<u8, 322>
    ensures { result.items ≡ quoted (take most_shown wrote.now) }
{
    let mut text = ArrayVec::new();
    push_quoted(&mut text, beginning(wrote));
    text
}

/// Returns the beginning of what the engine wrote.
fn beginning(wrote: &[u8]) -> &[u8]
    ensures beginning { result.now ≡ take most_shown wrote.entry.now }
    ensures few { length result.now ≤ 80 }
{
    &wrote[..MOST_SHOWN.min(wrote.len())]
}

/// Appends what the engine was asked: the lines before the faulty command, the board, that command, and the note that
/// it came in chunks.
fn add_asked(alloc: Global, text: &mut Vec<u8>, complaint: &Complaint<'_>) -> Result<(), AllocError>
    ensures { OnOk result (text.new.items ≡ text.old.items ++ asked_lines complaint.now) }
{
    add_before(alloc, text, complaint)?;
    add_board_if(text, complaint.game)?;
    text.extend_from_slice(complaint.asked_line())?;
    text.extend_from_slice(complaint.pieces_line())
}

/// Appends the lines before the faulty command, or only the last game of them.
fn add_before(
    alloc: Global,
    text: &mut Vec<u8>,
    complaint: &Complaint<'_>,
) -> Result<(), AllocError>
    ensures { OnOk result (text.new.items
        ≡ text.old.items ++ shown_before complaint.now complaint.now.shown) }
{
    match complaint.shown {
        Shown::Whole => add_lines(text, complaint, None),
        Shown::LastGame => add_last_game(alloc, text, complaint),
    }
}

/// Appends the board of a game, if it is known.
fn add_board_if(text: &mut Vec<u8>, game: Option<&Game>) -> Result<(), AllocError>
    ensures { OnOk result (text.new.items ≡ text.old.items ++ board_lines game.entry) }
{
    match game {
        Some(game) => add_board(text, game),
        None => Ok(()),
    }
}

/// Appends the line that says what is right, and further ones about the colour of a move if there are any.
fn add_rule(text: &mut Vec<u8>, complaint: &Complaint<'_>) -> Result<(), AllocError>
    ensures { OnOk result (text.new.items ≡ text.old.items ++ rule_line complaint.now) }
{
    text.extend_from_slice(b"# right: ")?;
    add_answer(text, &complaint.answer())?;
    add_decided(text, complaint)?;
    add_rule_end(text, complaint)
}

/// Appends the end of that line, and further ones about the colour of a move if there are any.
fn add_rule_end(text: &mut Vec<u8>, complaint: &Complaint<'_>) -> Result<(), AllocError>
    ensures { OnOk result (text.new.items ≡ text.old.items ++ rule_end complaint.now) }
{
    add_id_due(text, complaint.fault, complaint.faulty_line())?;
    text.extend_from_slice(b"\n")?;
    text.extend_from_slice(complaint.in_a_row())?;
    text.extend_from_slice(complaint.spelling())
}

/// Appends what is right, without the answer itself.
fn add_decided(text: &mut Vec<u8>, complaint: &Complaint<'_>) -> Result<(), AllocError>
    ensures { OnOk result (text.new.items ≡ text.old.items
        ++ rule_of complaint.now (is_within complaint.now.fault complaint.now.wrote.now)) }
{
    if complaint.is_within() {
        return text.extend_from_slice(b"an answer ends with an empty line: two newlines");
    }
    match (complaint.game, complaint.fault, complaint.explained()) {
        (Some(game), Fault::Wrote(kind), Some(command)) => {
            add_reason(text, game, &command, kind, None)
        }
        _ => text.extend_from_slice(complaint.rule()),
    }
}

/// Appends what a correct engine answers, if that is known.
fn add_answer(text: &mut Vec<u8>, answer: &[u8]) -> Result<(), AllocError>
    ensures { OnOk result (text.new.items ≡ text.old.items ++ before_rule answer.now) }
{
    if answer.is_empty() {
        return Ok(());
    }
    add_all(text, &[answer, b"; "])
}

/// Appends the line about a reply that may have run on into the next one, if one may.
fn add_run_on(text: &mut Vec<u8>, complaint: &Complaint<'_>) -> Result<(), AllocError>
    ensures { OnOk result (text.new.items
        ≡ text.old.items ++ run_on_line (may_run_on complaint.now)) }
{
    text.extend_from_slice(text_if(
        complaint.may_run_on(),
        b"# an answer may have run on into the next: does each end with an empty line, a failure too?\n",
    ))
}

/// Appends what was asked after the faulty command and before the reply to it, if anything was.
fn add_ahead(text: &mut Vec<u8>, lines: &[u8]) -> Result<(), AllocError>
    ensures { OnOk result (text.new.items ≡ text.old.items ++ ahead_lines lines.now) }
{
    text.extend_from_slice(text_if(!lines.is_empty(), b"# asked before this answer was read:\n"))?;
    text.extend_from_slice(lines)
}
