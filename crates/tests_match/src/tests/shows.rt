//! What tests look at in a match.
use crate::asserts::{assert_equal_for, some};
use go_base::Side;
use gtp_match::{Action, Match, Status, Verdict, record_line, result_line};
use std::process::Abort;

/// Where a test is: the name of its row, and the number of a step in it.
pub type Place = (&'static str, usize);

/// What a match shows.
#[derive(Clone, Copy)]
pub enum Shows {
    /// This comes next.
    Next(Action),
    /// It ended by this verdict, and has this line as game 1.
    Ended(Verdict, &'static [u8]),
    /// It has no line.
    NoLine,
    /// A side is up, and was not asked for a move: this many commands are confirmed, and this many unanswered.
    Up(Side, u32, u32),
    /// A side is up, and was asked for a move: the same two numbers.
    Asked(Side, u32, u32),
    /// A side is down.
    Down(Side),
    /// Whether a side is in step.
    InStep(Side, bool),
    /// How many moves the record has.
    Moves(usize),
    /// The moves of the record, as its line has them.
    Record(&'static [u8]),
    /// How often the move of this number was retaken.
    Retakes(u32, u32),
    /// How often a side was restarted.
    Restarts(Side, u32),
    /// Whose move is to be undone.
    TakingBack(Option<Side>),
}

/// Asserts that the match shows this.
pub fn assert_shows(rt: &impl Abort, place: Place, played: &Match, what: &Shows) {
    match what {
        Shows::Next(action) => assert_equal_for(rt, place, played.next(), *action),
        Shows::Ended(verdict, text) => {
            assert_equal_for(rt, place, played.next(), Action::Done(*verdict));
            let line = some(rt, result_line(1, played));
            assert_equal_for(rt, place, line.as_slice(), *text);
        }
        Shows::NoLine => assert_equal_for(rt, place, result_line(1, played).is_none(), true),
        Shows::Up(side, confirmed, unanswered) => {
            let up = Status::Up {
                confirmed: *confirmed,
                unanswered: *unanswered,
                asked: false,
            };
            assert_equal_for(rt, place, played.status(*side), up);
        }
        Shows::Asked(side, confirmed, unanswered) => {
            let asked = Status::Up {
                confirmed: *confirmed,
                unanswered: *unanswered,
                asked: true,
            };
            assert_equal_for(rt, place, played.status(*side), asked);
        }
        Shows::Down(side) => assert_equal_for(rt, place, played.status(*side), Status::Down),
        Shows::InStep(side, holds) => {
            assert_equal_for(rt, place, played.in_step(*side), *holds);
        }
        Shows::Moves(count) => {
            assert_equal_for(rt, place, played.game().moves().len(), *count);
        }
        Shows::Record(text) => {
            assert_equal_for(rt, place, record_line(played).as_slice(), *text);
        }
        Shows::Retakes(number, count) => {
            assert_equal_for(rt, place, played.retakes(*number), *count);
        }
        Shows::Restarts(side, count) => {
            assert_equal_for(rt, place, played.restarts(*side), *count);
        }
        Shows::TakingBack(side) => assert_equal_for(rt, place, played.taking_back(), *side),
    }
}
