//! A running engine: what it is asked, and what it writes.
ghost use Rattle.std.specs.Prelude.{◌≡◌, ◌↔◌, ◌⊎◌, ◌+◌, ◌-◌, ◌++◌, ◌≤◌, ◌<◌, true, [], ◌∷◌, length, drop, take};
ghost use Rattle.std.specs.Prelude.{IsTrue, IfNone, IfSome, OnOk, false, is_some, option_map};
ghost use Rattle.arrayvec.specs.ArrayVec.{array_vec_len};
ghost use Rattle.gtp_wire.specs.Replies.{most_shown, with_reply};
ghost use Rattle.gtp_check_judge.specs.Asking.{written_check};
ghost use Rattle.gtp_check_judge.specs.Check.{with_exam};
ghost use Rattle.gtp_check_judge.specs.declared.exam.Exam.{Exam};
ghost use Rattle.gtp_check_judge.specs.Exam.{Asks, HasRoomFor, hearing};
ghost use Rattle.gtp_check_judge.specs.Judging.{oldest};
ghost use Rattle.gtp_check_talk.specs.declared.notes.Notes.{Notes};
ghost use Rattle.gtp_check_talk.specs.Dialogues.{AreHeard, PiecesAreSent, IsAsked, IsHeard, IsRead, IsExchanged, IsSent};
ghost use Rattle.gtp_check_talk.specs.Dialogues.{begun_with, dialogue, two_pieces};
ghost use Rattle.gtp_check_talk.specs.Dialogues.{IsFull, IsIllegal, IsWrittenWhole, IsWrittenInPart, MayFollow, ends_in_pieces};
ghost use Rattle.gtp_check_talk.specs.Dialogues.{kept_after, last_move, owed_purpose, purpose_of, through_line};
ghost use Rattle.gtp_check_talk.specs.private.Hearing.{AreNotesOf};
ghost use Rattle.gtp_check_talk.specs.private.Illegal.{is_bad_move};

use crate::fault::Fault;
use crate::held::Held;
use crate::lines::line_len;
use crate::notes::{Beginning, Notes};
use crate::said::{Purpose, Said, said_at};
use arrayvec::ArrayVec;
use go_base::{Move, push};
use go_board::Game;
use gtp_check_course::Lesson;
use gtp_check_judge::{Cause, CheckCommand, Due, Examiner, Heard};
use gtp_process::{CutOff, Ending, PipeCause, Process, READ_ROOM, read_some, write_whole};
use gtp_wire::{CommandText, MOST_COMMAND_BYTES, MOST_SHOWN, Reply};
use std::alloc::{AllocError, Global};

/// The buffer size for the lines of commands that are sent at once.
pub const LINES_ROOM: usize = 16 * MOST_COMMAND_BYTES;

/// How many bytes are sent later if a line is sent in two chunks: its newline, and the byte before that.
const LATER_BYTES: usize = 2;

/// The lines of commands that are sent at once.
pub type Lines = ArrayVec<u8, LINES_ROOM>;

/// The buffers for what is read.
#[derive(Drop)]
pub struct Room {
    /// The buffer of one read.
    pub buffer: [u8; READ_ROOM],
    /// The buffer of a reply.
    pub reply: Reply,
}

impl Room {
    /// Returns buffers without any output.
    pub fn new() -> Room {
        Room {
            buffer: [0u8; READ_ROOM],
            reply: Reply::new(),
        }
    }
}

/// A running engine. It is not `Drop`: its process has to be ended.
pub struct Engine<P> {
    /// Its process.
    pub process: P,
    /// The lines of all that it was asked.
    pub sent: Vec<u8>,
    /// The commands.
    pub talk: Vec<Said>,
    /// The lines of commands that aren't sent yet.
    pub waiting: Lines,
    /// Output that was read past the end of one reply. The next exchange takes it before it reads again.
    pub held: Held,
    /// The beginning of what it wrote since its last complete reply.
    pub wrote: Beginning,
}

impl<P: Process> Engine<P> {
    /// Returns an engine that was asked nothing yet.
    pub fn new(alloc: Global, process: P) -> Self
        ensures { (exam : Exam) → (notes : Notes)
            → dialogue result exam notes ≡ begun_with exam process notes }
    {
        Engine {
            process,
            sent: Vec::new(alloc),
            talk: Vec::new(alloc),
            waiting: ArrayVec::new(),
            held: Held::new(),
            wrote: ArrayVec::new(),
        }
    }

    /// Returns whether another line can wait to be sent. It can't follow one that is sent in two chunks.
    pub fn has_room(&self) -> bool
        ensures room { result ≡ true
            → array_vec_len self.now.waiting + MOST_COMMAND_BYTES ≤ LINES_ROOM }
        ensures follows { result ≡ true
            → MayFollow self.now.talk.items self.now.waiting.items }
        ensures full { result ≡ false → IsFull self.now.talk.items self.now.waiting.items }
    {
        let is_cut = !self.waiting.is_empty() && ends_in_pieces(&self.talk);
        !is_cut && self.waiting.len() + MOST_COMMAND_BYTES <= LINES_ROOM
    }

    /// Asks the engine a command: the line waits with those that are sent next.
    ///
    /// # Errors
    ///
    /// If memory can't be allocated.
    pub fn ask(
        &mut self,
        examiner: &mut Examiner,
        command: CheckCommand,
        purpose: Purpose,
        notes: &mut Notes,
    ) -> Result<(), AllocError>
        requires may { HasRoomFor examiner.old.exam command }
        requires room { array_vec_len self.old.waiting + MOST_COMMAND_BYTES ≤ LINES_ROOM }
        requires follows { MayFollow self.old.talk.items self.old.waiting.items }
        ensures asked { OnOk result (IsAsked purpose (dialogue self.old examiner.old.exam notes.old)
            command (dialogue self.new examiner.new.exam notes.new)) }
        ensures process { self.new.process ≡ self.old.process }
        ensures check { examiner.new ≡ with_exam examiner.old examiner.new.exam }
    {
        let size = examiner.game().size();
        let moves = examiner.game().moves().len();
        let last = last_move(examiner.game());
        let line = line_of(examiner, &command);
        self.sent.extend_from_slice(line.text.as_slice())?;
        let said = Said {
            command,
            purpose,
            is_illegal: line.is_illegal,
            size,
            moves,
            last,
            end: self.sent.len(),
        };
        self.talk.extend_from_slice(&[said])?;
        push(&mut self.waiting, line.text.as_slice());
        notes.count();
        Ok(())
    }

    /// Takes at most one reply of the engine: from what it wrote earlier, if any of that is left. Otherwise it sends
    /// the waiting lines, and reads the engine once. Returns what is wrong with the engine, if anything.
    ///
    /// So the engine is asked the next commands after each reply, however many replies come at once. What it was asked
    /// when something is found doesn't depend on timing; how much of that was sent may.
    pub fn exchange(
        &mut self,
        examiner: &mut Examiner,
        room: &mut Room,
        notes: &mut Notes,
    ) -> Option<Fault>
        ensures exchanged { IsExchanged P.Process (dialogue self.old examiner.old.exam notes.old)
            result (dialogue self.new examiner.new.exam notes.new) }
        ensures check { examiner.new ≡ with_exam examiner.old examiner.new.exam }
    {
        if examiner.unanswered() == 0 {
            self.send_waiting();
            return None;
        }
        if !self.held.is_empty() {
            return self.hear_held(examiner, &mut room.reply, notes);
        }
        self.send_waiting();
        self.read(examiner, room, notes)
    }

    /// Sends the waiting lines, the last one in two chunks if its part asks for that.
    fn send_waiting(&mut self)
        ensures sent { IsSent P.Process (ends_in_pieces self.old.talk.items) self.old.waiting.items
            self.old.process self.new.process }
        ensures rest { (exam : Exam) → (notes : Notes) → dialogue self.new exam notes
            ≡ record (dialogue self.old exam notes) { process = self.new.process; waiting = [] } }
    {
        let in_pieces = ends_in_pieces(&self.talk);
        send(&mut self.process, self.waiting.as_slice(), in_pieces);
        self.waiting.clear();
    }

    /// Reads the engine once, and takes what it wrote. An engine that owes several replies may run first.
    fn read(&mut self, examiner: &mut Examiner, room: &mut Room, notes: &mut Notes) -> Option<Fault>
        ensures read { IsRead P.Process (dialogue self.old examiner.old.exam notes.old) result
            (dialogue self.new examiner.new.exam notes.new) }
        ensures check { examiner.new ≡ with_exam examiner.old examiner.new.exam }
    {
        if examiner.unanswered() > 1 {
            self.process.let_run_first();
        }
        match read_some(&mut self.process, &mut room.buffer) {
            Ok(0) => Some(Fault::CutOff(PipeCause::Ended)),
            Ok(count) => self.hear_read(examiner, &room.buffer[..count], &mut room.reply, notes),
            Err(CutOff) => Some(Fault::CutOff(PipeCause::Reading)),
        }
    }

    /// Takes what was read, and holds what is left of it.
    fn hear_read(
        &mut self,
        examiner: &mut Examiner,
        bytes: &[u8],
        reply: &mut Reply,
        notes: &mut Notes,
    ) -> Option<Fault>
        requires { length bytes.now ≤ READ_ROOM }
        ensures heard { AreHeard bytes.now (dialogue self.old examiner.old.exam notes.old) result
            (dialogue self.new examiner.new.exam notes.new) }
        ensures check { examiner.new ≡ with_exam examiner.old examiner.new.exam }
    {
        let lesson = self.owed_purpose(examiner).lesson;
        let heard = hear(bytes, &mut self.wrote, examiner, reply);
        match heard.finding {
            Some(finding) => Some(Fault::Wrote(finding.kind)),
            None => {
                notes.take(&heard, lesson, reply, examiner.skills());
                self.held.hold(&bytes[heard.used..]);
                None
            }
        }
    }

    /// Takes what the engine wrote earlier.
    fn hear_held(
        &mut self,
        examiner: &mut Examiner,
        reply: &mut Reply,
        notes: &mut Notes,
    ) -> Option<Fault>
        ensures heard { AreHeard self.old.held (record (dialogue self.old examiner.old.exam
            notes.old) { held = [] }) result (dialogue self.new examiner.new.exam notes.new) }
        ensures check { examiner.new ≡ with_exam examiner.old examiner.new.exam }
    {
        let lesson = self.owed_purpose(examiner).lesson;
        let heard = hear(self.held.bytes(), &mut self.wrote, examiner, reply);
        match heard.finding {
            Some(finding) => {
                self.held.clear();
                Some(Fault::Wrote(finding.kind))
            }
            None => {
                notes.take(&heard, lesson, reply, examiner.skills());
                self.held.pass(heard.used);
                None
            }
        }
    }

    /// Returns how many commands the engine has answered.
    pub fn answered(&self, examiner: &Examiner) -> usize
        ensures { result ≡ length self.now.talk.items - length examiner.now.exam.unanswered }
    {
        self.talk.len().saturating_sub(examiner.unanswered())
    }

    /// Returns the lesson and part for which the oldest unanswered command was asked.
    pub fn owed_purpose(&self, examiner: &Examiner) -> Purpose
        ensures { result ≡ owed_purpose self.now.talk.items examiner.now.exam }
    {
        purpose_of(said_at(self.talk.as_slice(), self.answered(examiner)))
    }

    /// Returns whether the engine was sent all that it was asked, and has answered it.
    pub fn owes_nothing(&self, examiner: &Examiner) -> bool
        ensures sent { result ≡ true → self.now.waiting.items ≡ [] }
        ensures answered { result ≡ true → examiner.now.exam.unanswered ≡ [] }
        ensures owes { result ≡ false → (0 < length self.now.waiting.items)
            ⊎ (0 < length examiner.now.exam.unanswered) }
    {
        self.waiting.is_empty() && examiner.unanswered() == 0
    }

    /// Ends the process, and returns the conversation.
    pub fn end(self) -> Ended
        ensures said { (result.sent.items ≡ self.sent.items)
            × (result.talk.items ≡ self.talk.items) × (result.wrote.items ≡ self.wrote.items) }
        ensures out { result.delivered ≡ length self.sent.items - length self.waiting.items }
        ensures ended { P.leaves self.process result.ending }
    {
        let delivered = self.sent.len().saturating_sub(self.waiting.len());
        let Engine {
            process,
            sent,
            talk,
            waiting: _,
            held: _,
            wrote,
        } = self;
        let ending = process.end();
        Ended {
            sent,
            delivered,
            talk,
            wrote,
            ending,
        }
    }
}

/// Takes output of an engine, up to the end of one reply, or to something wrong. Keeps the beginning of what it wrote
/// since its last complete reply: if something is wrong, up to the end of that line.
fn hear(bytes: &[u8], wrote: &mut Beginning, examiner: &mut Examiner, reply: &mut Reply) -> Heard
    ensures used { result.used ≤ length bytes.now }
    ensures heard { IsHeard examiner.old.exam bytes.now (hearing result.used
        (option_map (with_reply reply.new) result.read) result.finding) examiner.new.exam }
    ensures quiet { IfNone result.finding (wrote.new.items
        ≡ kept_after wrote.old.items (take result.used bytes.now) (is_some result.read)) }
    ensures found { IfSome result.finding (λ finding. wrote.new.items
        ≡ take most_shown (wrote.old.items ++ through_line result.used bytes.now)) }
    ensures noted { IfNone result.finding (AreNotesOf result reply.new
        (oldest examiner.old.exam.unanswered) examiner.new.exam.skills) }
    ensures check { examiner.new ≡ with_exam examiner.old examiner.new.exam }
{
    let heard = examiner.heard(bytes, reply);
    if heard.finding.is_some() {
        keep(wrote, through_line(bytes, heard.used));
        return heard;
    }
    keep_since(wrote, &bytes[..heard.used], heard.read.is_some());
    heard
}

/// Returns the bytes up to the end of the line that has the last of the first `used` bytes, with its newline, as far as
/// they are there.
fn through_line(bytes: &[u8], used: usize) -> &[u8]
    requires { used ≤ length bytes.now }
    ensures { result.now ≡ through_line used bytes.entry.now }
{
    let before = used.saturating_sub(1);
    let (_front, rest) = bytes.split_at(before);
    let end = before + line_len(rest) + 1;
    &bytes[..end.min(bytes.len())]
}

/// Keeps the beginning of what an engine wrote since its last complete reply: nothing if these bytes end one.
fn keep_since(wrote: &mut Beginning, bytes: &[u8], is_read: bool)
    ensures { wrote.new.items ≡ kept_after wrote.old.items bytes.now is_read }
{
    if is_read {
        wrote.clear();
        return;
    }
    keep(wrote, bytes);
}

/// Keeps the beginning of what an engine wrote.
fn keep(wrote: &mut Beginning, bytes: &[u8])
    ensures { wrote.new.items ≡ take most_shown (wrote.old.items ++ bytes.now) }
{
    let room = MOST_SHOWN - wrote.len();
    push(wrote, &bytes[..room.min(bytes.len())]);
}

/// Returns the lesson and part that a command was asked for, if there is one.
pub fn purpose_of(said: Option<Said>) -> Purpose
    ensures { result ≡ purpose_of said }
{
    match said {
        Some(said) => said.purpose,
        None => Purpose {
            lesson: Lesson::Start,
            part: 0,
        },
    }
}

/// Returns whether the line of the command that was asked last is sent in two chunks.
fn ends_in_pieces(talk: &[Said]) -> bool
    ensures { result ≡ ends_in_pieces talk.now }
{
    match talk {
        [.., last] => last.purpose.lesson.is_in_pieces(last.purpose.part),
        [] => false,
    }
}

/// Sends lines, if there are any: all at once, or in two chunks, with the last bytes a moment later. If a process is
/// cut off then, what it wrote before is still taken, up to the end of its output.
fn send<P: Process>(process: &mut P, lines: &[u8], in_pieces: bool)
    ensures { IsSent P.Process in_pieces lines.now process.old process.new }
{
    if lines.is_empty() {
        return;
    }
    if in_pieces {
        send_in_two(process, lines);
    } else {
        send_at_once(process, lines);
    }
}

/// Sends all but the last bytes, and these a moment later.
fn send_in_two<P: Process>(process: &mut P, lines: &[u8])
    ensures { PiecesAreSent P.Process (two_pieces lines.now) process.old process.new }
{
    let (first, second) = lines.split_at(lines.len().saturating_sub(LATER_BYTES));
    if !is_written_whole(process, first) {
        return;
    }
    process.let_read();
    send_at_once(process, second);
}

/// Sends a chunk.
fn send_at_once<P: Process>(process: &mut P, piece: &[u8])
    ensures { PiecesAreSent P.Process (piece.now ∷ []) process.old process.new }
{
    let _ = is_written_whole(process, piece);
}

/// Sends a chunk. Returns whether the process took all of it.
fn is_written_whole<P: Process>(process: &mut P, piece: &[u8]) -> bool
    ensures whole { result ≡ true → IsWrittenWhole P.Process piece.now process.old process.new }
    ensures part { result ≡ false → IsWrittenInPart P.Process piece.now process.old process.new }
{
    match write_whole(process, piece) {
        Ok(()) => true,
        Err(CutOff) => false,
    }
}

/// A command to ask.
#[derive(Drop)]
struct Line {
    /// Its line.
    text: CommandText,
    /// Whether it is a `play` that isn't legal.
    is_illegal: bool,
}

/// Asks the examiner for the line of a command. What is due to it says whether it is a `play` that isn't legal.
fn line_of(examiner: &mut Examiner, command: &CheckCommand) -> Line
    requires may { HasRoomFor examiner.old.exam command.now }
    ensures asks { Asks examiner.old.exam command.now examiner.new.exam }
    ensures check { examiner.new ≡ with_exam examiner.old examiner.new.exam }
    ensures text { result.text.items ≡ written_check examiner.new.exam.sent command.now }
    ensures illegal { IsTrue result.is_illegal ↔ IsIllegal examiner.old.exam.game command.now }
{
    let asking = examiner.ask(*command);
    let is_illegal = is_bad_move(&asking.due);
    Line {
        text: asking.text,
        is_illegal,
    }
}

/// Returns whether a failure is due because a move isn't legal.
fn is_bad_move(due: &Due) -> bool
    ensures { result ≡ is_bad_move due.now }
{
    match due {
        Due::Fails(Cause::BadMove(_)) => true,
        _ => false,
    }
}

/// Returns the last move of a game, if it has one.
fn last_move(game: &Game) -> Option<Move>
    ensures { result ≡ last_move game.now }
{
    match game.moves() {
        [.., last] => Some(*last),
        [] => None,
    }
}

/// The conversation with an engine that was ended.
#[derive(Drop)]
pub struct Ended {
    /// The lines of all that it was asked.
    pub sent: Vec<u8>,
    /// How many bytes of these lines were sent to it. The rest was still waiting.
    pub delivered: usize,
    /// The commands.
    pub talk: Vec<Said>,
    /// The beginning of what it wrote since its last complete reply.
    pub wrote: Beginning,
    /// How its process ended.
    pub ending: Ending,
}
