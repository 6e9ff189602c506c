//! The examiner of one engine.
ghost use Rattle.std.specs.Prelude.{◌≡◌, ◌<◌, ◌≤◌, true, false, [], ◌∷◌, ◌++◌, length, option_map, None};
ghost use Rattle.gtp_wire.specs.Replies.{with_reply};
ghost use Rattle.gtp_check_judge.specs.Asking.{written_check};

use crate::asking::CheckCommand;
use crate::exam::{Asking, Exam, Heard};
use crate::opinions::Opinion;
use crate::setups::Board;
use crate::skills::Skills;
use go_board::{Game, KoRule};
use gtp_wire::Reply;
use std::marker::Model;

/// Judges one engine: it knows what a correct engine would have answered to the commands since the start, and counts
/// the starts.
///
/// Its model is the exam of the engine that was started last, the number of starts, and how many there may be.
#[derive(Drop)]
pub struct Examiner {
    exam: Exam,
    starts: u32,
    most_starts: u32,
}

impl Model for Examiner {
    ghost use Rattle.gtp_check_judge.specs.Check.{Check, IsWithin};

    ghost Value = { Check };

    ghost view = { λ m. record { exam = m.exam; starts = m.starts; most_starts = m.most_starts } };

    ghost invariant = { λ m. IsWithin m.exam m.starts m.most_starts };
}

impl Examiner {
    ghost use Rattle.gtp_check_judge.specs.Check.{opening, started, with_exam, after_loss};
    ghost use Rattle.gtp_check_judge.specs.Dues.{IsDue};
    ghost use Rattle.gtp_check_judge.specs.Exam.{engine_of, Asks, Hears, HearsDown, HasRoomFor, IsOrderly, hearing};
    ghost use Rattle.gtp_check_judge.specs.Exam.{answered_by, refused_what};
    ghost use Rattle.gtp_check_judge.specs.Judging.{oldest};

    /// Returns an examiner for engines with this ko rule, which may be started at most `most_starts` times. None has
    /// been started yet.
    pub fn new(rule: KoRule, most_starts: u32) -> Examiner
        ensures { result ≡ opening rule most_starts }
    {
        Examiner {
            exam: Exam::new(rule, false),
            starts: 0,
            most_starts,
        }
    }

    /// Returns whether the engine may be started once more.
    pub fn may_start(&self) -> bool
        ensures may { result ≡ true → self.now.starts < self.now.most_starts }
        ensures only { self.now.starts < self.now.most_starts → result ≡ true }
    {
        self.starts < self.most_starts
    }

    /// Notes that an engine was started. It forgets what the previous one was asked and wrote.
    pub fn started(&mut self)
        requires { self.old.starts < self.old.most_starts }
        ensures { self.new ≡ started self.old }
    {
        self.exam = Exam::new(self.exam.game.rule(), true);
        self.starts += 1;
    }

    /// Returns whether the engine may be asked this command now.
    ///
    /// The engine has to be up, with fewer than eight commands unanswered and none of these a `genmove`, a `boardsize`,
    /// an `undo` that may fail or a `final_score`. Such a command itself may be asked only if nothing is unanswered. A
    /// `play` or a `genmove` may be asked only if the record has space, and no `genmove` after two passes. A
    /// `final_score` may be asked only if no move was made and no handicap placed. A `quit` never may.
    ///
    /// A command that depends on the board may be asked only once the engine accepted a size and was sent a
    /// `clear_board` after that. A score may be asked only if the last `komi` was at most 16,777,216 half points either
    /// way. `fixed_handicap`, `undo` and `final_score` may be asked only once the engine has answered whether it knows
    /// them, and not if it said `false`.
    pub fn has_room(&self, command: &CheckCommand) -> bool
        ensures may { result ≡ true → HasRoomFor self.now.exam command.now }
        ensures only { HasRoomFor self.now.exam command.now → result ≡ true }
    {
        self.exam.has_room(command)
    }

    /// Notes that the engine is asked a command. Returns its line, with the next id, for the caller to send, and what
    /// is due to it: what every correct engine answers then.
    pub fn ask(&mut self, command: CheckCommand) -> Asking
        requires { HasRoomFor self.old.exam command }
        ensures asks { Asks self.old.exam command self.new.exam }
        ensures starts { self.new ≡ with_exam self.old self.new.exam }
        ensures text { result.text.items ≡ written_check self.new.exam.sent command }
        ensures is_due { IsDue (engine_of self.old.exam) command result.due }
        ensures due { self.new.exam.unanswered ≡ self.old.exam.unanswered
            ++ record { id = self.new.exam.sent; command = command; due = result.due } ∷ [] }
    {
        self.exam.ask(command)
    }

    /// Takes output of the engine. It uses the bytes up to the end of one reply, or up to the byte that shows a fault,
    /// or all of them; pass what is left to the next call. It writes a complete reply to `reply`.
    ///
    /// After a finding the engine counts as down. Then all bytes are used and nothing changes.
    ///
    /// It judges a reply by what is due to the oldest unanswered command. A score is an opinion: it is compared, as a
    /// number, only with one of the same size that the engine gave three times in a row.
    pub fn heard(&mut self, bytes: &[u8], reply: &mut Reply) -> Heard
        ensures within { result.used ≤ length bytes.now }
        // of a chunk that isn't empty one byte at least is used
        ensures progress { 0 < length bytes.now → 0 < result.used }
        ensures up { self.old.exam.up ≡ true → Hears self.old.exam bytes.now (hearing result.used
            (option_map (with_reply reply.new) result.read) result.finding) self.new.exam }
        ensures down { self.old.exam.up ≡ false
            → HearsDown self.old.exam bytes.now result.used result.finding self.new.exam }
        ensures still { self.old.exam.up ≡ false
            → (result.read ≡ None) × (result.answered ≡ None) × (result.refused ≡ None) }
        ensures starts { self.new ≡ with_exam self.old self.new.exam }
        ensures answered { self.old.exam.up ≡ true → result.answered
            ≡ answered_by (oldest self.old.exam.unanswered)
            (option_map (with_reply reply.new) result.read) result.finding }
        // a size that an engine refuses is no finding, nor is an `undo` after one that succeeded
        ensures refused { self.old.exam.up ≡ true → result.refused
            ≡ refused_what (oldest self.old.exam.unanswered)
            (option_map (with_reply reply.new) result.read) result.finding }
    {
        if !self.exam.up {
            return Heard {
                used: bytes.len(),
                read: None,
                finding: None,
                answered: None,
                refused: None,
            };
        }
        self.exam.hear(bytes, reply)
    }

    /// Notes that the engine's output ended, or that a read or a write failed. The engine is down then.
    pub fn lost(&mut self)
        ensures { self.new ≡ after_loss self.old }
    {
        self.exam.up = false;
    }

    /// Returns the game of a correct engine that has answered all that was asked.
    pub fn game(&self) -> &Game
        ensures game { result.now ≡ self.now.exam.game }
        ensures orderly { IsOrderly self.now.exam }
    {
        &self.exam.game
    }

    /// Returns whether an `undo` of a correct engine has succeeded since its last move, once it has answered all that
    /// was asked. Then the next `undo` may fail.
    pub fn undone(&self) -> bool
        ensures { result ≡ self.now.exam.undone }
    {
        self.exam.undone
    }

    /// Returns the engine's opinion of an empty board, by its scores.
    pub fn opinion(&self) -> Opinion
        ensures { result ≡ self.now.exam.opinion }
    {
        self.exam.opinion
    }

    /// Returns whether an engine was started, and has been neither lost nor found wrong since.
    pub fn is_up(&self) -> bool
        ensures { result ≡ self.now.exam.up }
    {
        self.exam.up
    }

    /// Returns what is known of the engine's board.
    pub fn board(&self) -> Board
        ensures { result ≡ self.now.exam.board }
    {
        self.exam.board
    }

    /// Returns how many commands are unanswered.
    pub fn unanswered(&self) -> usize
        ensures { result ≡ length self.now.exam.unanswered }
    {
        self.exam.unanswered.len()
    }

    /// Returns what the engine said of the commands that it may lack.
    pub fn skills(&self) -> Skills
        ensures { result ≡ self.now.exam.skills }
    {
        self.exam.skills
    }

    /// Returns how often an engine was started.
    pub fn starts(&self) -> u32
        ensures starts { result ≡ self.now.starts }
        ensures few { result ≤ self.now.most_starts }
    {
        self.starts
    }
}
