//! What a correct engine answers, if that depends on what was asked before.
ghost use Rattle.std.specs.Prelude.{◌≡◌, ◌++◌, OnOk};
ghost use Rattle.gtp_check_texts.specs.reasons.Answers.{id_due, points_of, right_answer, right_points, stones_on};

use crate::texts::add_all;
use arrayvec::ArrayVec;
use go_base::{Size, VERTICES_ROOM, handicap, split_digits, write_vertices};
use gtp_check_judge::{CheckCommand, Kind};
use gtp_check_talk::{Fault, Said};
use gtp_wire::Command;
use std::alloc::AllocError;

/// The buffer size for an answer: the vertices of a handicap.
pub const ANSWER_ROOM: usize = VERTICES_ROOM;

/// An answer.
type Answer = ArrayVec<u8, ANSWER_ROOM>;

/// Returns what a correct engine answers to a command that was answered with wrong points of a handicap.
pub fn right_answer(fault: Fault, said: Option<Said>) -> Answer
    ensures { result.items ≡ right_answer fault said }
{
    match fault {
        Fault::Wrote(Kind::OtherPoints) => right_points(said),
        _ => ArrayVec::new(),
    }
}

/// Returns the points of the handicap that a command places on the board that it was asked on.
fn right_points(said: Option<Said>) -> Answer
    ensures { result.items ≡ right_points said }
{
    match &said {
        Some(said) => points_of(&said.command, said.size),
        None => ArrayVec::new(),
    }
}

/// Returns the points of the handicap that a command places on a board of this size.
fn points_of(command: &CheckCommand, size: Size) -> Answer
    ensures { result.items ≡ points_of command.now size }
{
    match command {
        CheckCommand::Match(Command::FixedHandicap(stones)) => stones_on(*stones, size),
        _ => ArrayVec::new(),
    }
}

/// Returns the points of this many stones on a board of this size, if it allows them.
fn stones_on(stones: u32, size: Size) -> Answer
    ensures { result.items ≡ stones_on stones size }
{
    match handicap(size, stones) {
        Some(points) => write_vertices(&points),
        None => ArrayVec::new(),
    }
}

/// Appends that the id of this line is due, if another one came.
pub fn add_id_due(text: &mut Vec<u8>, fault: Fault, line: &[u8]) -> Result<(), AllocError>
    ensures { OnOk result (text.new.items ≡ text.old.items ++ id_due fault line.now) }
{
    match fault {
        Fault::Wrote(Kind::WrongId) => add_all(text, &[b": ", split_digits(line).0]),
        _ => Ok(()),
    }
}
