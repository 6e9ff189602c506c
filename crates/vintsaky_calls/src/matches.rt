//! The calls of a match: the controller between two engines, and the rulings of a referee.
ghost use Rattle.std.specs.Prelude.{◌≡◌};
ghost use Rattle.gtp_match.specs.ResultLine.{record_text};
ghost use Rattle.gtp_match.specs.Retakes.{retakes_of};
ghost use Rattle.gtp_match.specs.Setup.{setup_of};
ghost use Rattle.gtp_match.specs.Taking.{taking_back};
ghost use Rattle.vintsaky_calls.specs.Matches.{maybe_side_code, BeginCall, NextCall, StartedCall, SendCall, HearCall};
ghost use Rattle.vintsaky_calls.specs.Matches.{HearReportingCall, owed_out, OwedCall, StatusCall, LostCall, InStepCall};
ghost use Rattle.vintsaky_calls.specs.Matches.{RestartsCall, VerdictCall, ResultCall, AdjudicateCall};
ghost use Rattle.gtp_match.specs.referee.Ruling.{reason_of};
ghost use Rattle.vintsaky_calls.specs.Texts.{Writes};

use crate::causes::Cause;
use crate::codes::{colour_of, number_of_colour};
use crate::endings::{
    number_of_ending, number_of_ruling, number_of_side, score_of_ending, side_of_ending,
};
use crate::losses::{number_of_loss, number_of_retake, put_owed, put_reported};
use crate::texts::put;
use go_base::{Komi, Size};
use go_board::Game;
use gtp_match::referee::{RefereedMatch, RulingFault, result_line};
use gtp_match::{Action, Setup, SetupFault, Status, record_line};
use gtp_wire::MOST_COMMAND_BYTES;

/// Implements `vintsaky_match_begin`.
pub fn begin(
    held: &mut RefereedMatch,
    size: u32,
    half_komi: i32,
    handicap: u32,
    max_moves: u32,
    max_restarts: u32,
) -> Result<(), Cause>
    ensures { BeginCall (setup_of size half_komi handicap max_moves max_restarts)
        held.old held.new result }
{
    let size = Size::new(size).ok_or(Cause::BadSize)?;
    let komi = Komi::from_half_points(half_komi).ok_or(Cause::BadKomi)?;
    match Setup::new(size, komi, handicap, max_moves, max_restarts) {
        Ok(setup) => {
            *held = RefereedMatch::new(setup);
            Ok(())
        }
        Err(SetupFault::Handicap) => Err(Cause::BadHandicap),
        Err(SetupFault::MaxMoves) => Err(Cause::BadMaxMoves),
        Err(SetupFault::MaxRestarts) => Err(Cause::BadMaxRestarts),
    }
}

/// Implements `vintsaky_match_next`.
pub fn next(held: &RefereedMatch, side: &mut u32) -> u32
    ensures { NextCall held.now result side.new }
{
    let (action, with) = match held.next() {
        Some(Action::Start(with)) => (1, number_of_colour(with)),
        Some(Action::Send(with)) => (2, number_of_colour(with)),
        Some(Action::Wait(with)) => (3, number_of_colour(with)),
        None | Some(Action::Done(_)) => (4, 0),
    };
    *side = with;
    action
}

/// Implements `vintsaky_match_started`.
pub fn started(held: &mut RefereedMatch, side: u32) -> Result<(), Cause>
    ensures { StartedCall side held.old held.new result }
{
    let side = colour_of(side)?;
    if held.next() != Some(Action::Start(side)) {
        return Err(Cause::NotNext);
    }
    held.started(side);
    Ok(())
}

/// Implements `vintsaky_match_send`.
pub fn send(
    held: &mut RefereedMatch,
    side: u32,
    text: &mut [u8],
    count: &mut usize,
) -> Result<(), Cause>
    ensures { SendCall side held.old held.new text.old text.new count.old count.new result }
{
    let side = colour_of(side)?;
    if held.next() != Some(Action::Send(side)) {
        return Err(Cause::NotNext);
    }
    if text.len() <= MOST_COMMAND_BYTES {
        return Err(Cause::NoRoom);
    }
    let command = held.send(side);
    *count = put(&command, text);
    Ok(())
}

/// Implements `vintsaky_match_hear`.
pub fn hear(held: &mut RefereedMatch, side: u32, bytes: &[u8], loss: &mut u32) -> Result<(), Cause>
    ensures { HearCall side bytes.now held.old held.new loss.old loss.new result }
{
    let side = colour_of(side)?;
    let heard = held.hear_reporting(side, bytes);
    *loss = number_of_loss(&heard.loss);
    Ok(())
}

/// Implements `vintsaky_match_hear_reporting`.
pub fn hear_reporting(
    held: &mut RefereedMatch,
    side: u32,
    bytes: &[u8],
    loss: &mut u32,
    retake: &mut u32,
    unanswered: &mut u32,
    command: &mut [u8],
    command_count: &mut usize,
    wrote: &mut [u8],
    wrote_count: &mut usize,
) -> Result<(), Cause>
    ensures { HearReportingCall side bytes.now held.old held.new loss.old loss.new
        retake.old retake.new
        (owed_out unanswered.old command.old command_count.old wrote.old wrote_count.old)
        (owed_out unanswered.new command.new command_count.new wrote.new wrote_count.new) result }
{
    let side = colour_of(side)?;
    let report = held.hear_reporting(side, bytes);
    *loss = number_of_loss(&report.loss);
    *retake = number_of_retake(&report.retake);
    put_reported(
        &report,
        unanswered,
        command,
        command_count,
        wrote,
        wrote_count,
    );
    Ok(())
}

/// Implements `vintsaky_match_owed`.
pub fn owed(
    held: &RefereedMatch,
    side: u32,
    unanswered: &mut u32,
    command: &mut [u8],
    command_count: &mut usize,
    wrote: &mut [u8],
    wrote_count: &mut usize,
) -> Result<(), Cause>
    ensures { OwedCall held.now side
        (owed_out unanswered.old command.old command_count.old wrote.old wrote_count.old)
        (owed_out unanswered.new command.new command_count.new wrote.new wrote_count.new) result }
{
    let side = colour_of(side)?;
    let owes = held.owed(side).ok_or(Cause::Down)?;
    put_owed(
        &owes,
        unanswered,
        command,
        command_count,
        wrote,
        wrote_count,
    );
    Ok(())
}

/// Implements `vintsaky_match_status`.
pub fn status(
    held: &RefereedMatch,
    side: u32,
    confirmed: &mut u32,
    unanswered: &mut u32,
    asked: &mut u32,
) -> Result<(), Cause>
    ensures { StatusCall held.now side confirmed.old confirmed.new unanswered.old unanswered.new
        asked.old asked.new result }
{
    let side = colour_of(side)?;
    match held.played().status(side) {
        Status::Down => Err(Cause::Down),
        Status::Up {
            confirmed: count,
            unanswered: left,
            asked: is_asked,
        } => {
            *confirmed = count;
            *unanswered = left;
            *asked = if is_asked { 1 } else { 0 };
            Ok(())
        }
    }
}

/// Implements `vintsaky_match_lost`.
pub fn lost(held: &mut RefereedMatch, side: u32) -> Result<(), Cause>
    ensures { LostCall side held.old held.new result }
{
    held.lost(colour_of(side)?);
    Ok(())
}

/// Implements `vintsaky_match_in_step`.
pub fn in_step(held: &RefereedMatch, side: u32, holds: &mut u32) -> Result<(), Cause>
    ensures { InStepCall held.now side holds.old holds.new result }
{
    let side = colour_of(side)?;
    *holds = if held.played().in_step(side) { 1 } else { 0 };
    Ok(())
}

/// Implements `vintsaky_match_restarts`.
pub fn restarts(held: &RefereedMatch, side: u32, restarts: &mut u32) -> Result<(), Cause>
    ensures { RestartsCall held.now side restarts.old restarts.new result }
{
    *restarts = held.played().restarts(colour_of(side)?);
    Ok(())
}

/// Implements `vintsaky_match_retakes`.
pub fn retakes(held: &RefereedMatch, number: u32) -> u32
    ensures { result ≡ retakes_of held.now.controller.retakes number }
{
    held.played().retakes(number)
}

/// Implements `vintsaky_match_taking_back`.
pub fn taking_back(held: &RefereedMatch) -> u32
    ensures { result ≡ maybe_side_code (taking_back held.now.controller) }
{
    number_of_side(held.played().taking_back())
}

/// Implements `vintsaky_match_verdict`.
pub fn verdict(
    held: &RefereedMatch,
    ending: &mut u32,
    side: &mut u32,
    half_points: &mut i32,
) -> Result<(), Cause>
    ensures { VerdictCall held.now ending.old ending.new side.old side.new
        half_points.old half_points.new result }
{
    if let Some(given) = held.ruled() {
        *ending = number_of_ruling(&given.ruling);
        *side = number_of_colour(given.loser);
        *half_points = 0;
        return Ok(());
    }
    let given = held.verdict().ok_or(Cause::NotOver)?;
    *ending = number_of_ending(given);
    *side = side_of_ending(given);
    *half_points = score_of_ending(given);
    Ok(())
}

/// Implements `vintsaky_match_copy_game`.
pub fn copy_game(held: &RefereedMatch, game: &mut Game)
    ensures { game.new ≡ held.now.controller.game }
{
    game.copy_from(held.played().game());
}

/// Implements `vintsaky_match_result`.
pub fn result(
    held: &RefereedMatch,
    number: u32,
    text: &mut [u8],
    count: &mut usize,
) -> Result<(), Cause>
    ensures { ResultCall held.now number text.old text.new count.old count.new result }
{
    let line = result_line(number, held).ok_or(Cause::NotOver)?;
    *count = put(&line, text);
    Ok(())
}

/// Implements `vintsaky_match_record`.
pub fn record(held: &RefereedMatch, text: &mut [u8]) -> usize
    ensures { Writes (record_text held.now.controller.game) text.old text.new result }
{
    put(&record_line(held.played()), text)
}

/// Implements `vintsaky_match_adjudicate`.
pub fn adjudicate(held: &mut RefereedMatch, side: u32, reason: &[u8]) -> Result<(), Cause>
    ensures { AdjudicateCall side reason.now held.old held.new result }
{
    let side = colour_of(side)?;
    match held.adjudicate(side, reason) {
        Ok(()) => Ok(()),
        Err(RulingFault::Over) => Err(Cause::IsOver),
        Err(RulingFault::BadReason) => Err(Cause::BadReason),
    }
}

/// Implements `vintsaky_match_reason`.
pub fn reason(held: &RefereedMatch, text: &mut [u8]) -> usize
    ensures { Writes (reason_of held.now.ruled) text.old text.new result }
{
    put(held.reason(), text)
}
