//! The calls of a match.
ghost use Rattle.std.specs.Prelude.{◌≡◌};
ghost use Rattle.std.specs.Borrow.{full_share, sem};
ghost use Rattle.std.specs.Ptr.{lies_at, room_at};
ghost use base.Fml.{fsep};
ghost use Rattle.gtp_match.specs.ResultLine.{record_text};
ghost use Rattle.gtp_match.specs.Retakes.{retakes_of};
ghost use Rattle.gtp_match.specs.Setup.{setup_of};
ghost use Rattle.gtp_match.specs.Taking.{taking_back};
ghost use Rattle.std.specs.Align.{type_align};
ghost use Rattle.std.specs.Mem.{type_size};
ghost use Rattle.gtp_match.specs.referee.Ruling.{reason_of};
ghost use Rattle.gtp_match.specs.contracts.referee.refereed.RefereedMatch.{the_row as match_row};
ghost use Rattle.vintsaky.specs.contracts.matches.MatchHandle.{the_row};
ghost use Rattle.vintsaky.specs.Fresh.{fresh_match};
ghost use Rattle.vintsaky_calls.specs.Codes.{Returns};
ghost use Rattle.vintsaky_calls.specs.Matches.{maybe_side_code, BeginCall, NextCall, StartedCall, SendCall, HearCall};
ghost use Rattle.vintsaky_calls.specs.Matches.{HearReportingCall, owed_out, OwedCall, StatusCall, LostCall, InStepCall};
ghost use Rattle.vintsaky_calls.specs.Matches.{RestartsCall, VerdictCall, ResultCall, AdjudicateCall};
ghost use Rattle.vintsaky_calls.specs.Texts.{Writes};

use crate::game::GameHandle;
use crate::matches::MatchHandle;
use go_base::{Komi, Size};
use gtp_match::Setup;
use gtp_match::referee::RefereedMatch;
use std::mem::{align_of, size_of};
use vintsaky_calls::{code_of, matches};

/// Initialises a match in the caller's memory, and its handle. It has size 19, no komi, no handicap, at most 2,000
/// moves, and no restart.
///
/// # Safety
///
/// The memory must have the size and the alignment that the calls for these return, and must be the object's alone.
/// Neither the memory nor the handle may move as long as the handle is used.
#[unsafe(no_mangle)]
pub unsafe extern "C" fn vintsaky_match_place(out: *mut MatchHandle, at: *mut u8)
    requires* { sem 𝓛 (fsep (room_at the_row out) (room_at match_row at)) }
    ensures* { sem 𝓛
        (lies_at the_row full_share out (record { at = at; value = fresh_match })) }
{
    let fresh = fresh_match();
    (at as *mut RefereedMatch).write(fresh);
    out.write(MatchHandle { at });
}

/// A match of size 19 without komi, handicap or restarts.
fn fresh_match() -> RefereedMatch
    ensures { result ≡ fresh_match }
{
    let (Some(size), Some(komi)) = (Size::new(19), Komi::from_half_points(0)) else {
        unreachable!()
    };
    match Setup::new(size, komi, 0, 2000, 0) {
        Ok(setup) => RefereedMatch::new(setup),
        Err(_) => unreachable!(),
    }
}

/// Returns the size of a match in bytes.
#[unsafe(no_mangle)]
pub extern "C" fn vintsaky_match_bytes() -> usize
    ensures { result ≡ type_size match_row }
{
    size_of::<RefereedMatch>()
}

/// Returns the alignment of a match in bytes.
#[unsafe(no_mangle)]
pub extern "C" fn vintsaky_match_align() -> usize
    ensures { result ≡ type_align match_row }
{
    align_of::<RefereedMatch>()
}

/// Begins a match between two engines that aren't started yet.
///
/// # Errors
///
/// `BadSize`, `BadKomi`, `BadHandicap`, `BadMaxMoves` or `BadMaxRestarts`, the first of these that applies. The match
/// is unchanged.
#[unsafe(no_mangle)]
pub extern "C" fn vintsaky_match_begin(
    held: &mut MatchHandle,
    size: u32,
    half_komi: i32,
    handicap: u32,
    max_moves: u32,
    max_restarts: u32,
) -> u32
    ensures call { Returns result (BeginCall
        (setup_of size half_komi handicap max_moves max_restarts) held.old.value held.new.value) }
{
    code_of(matches::begin(
        held.get_mut(),
        size,
        half_komi,
        handicap,
        max_moves,
        max_restarts,
    ))
}

/// Returns what to do next, as a number. Writes the side with which to do it, or 0 if the match is over, as it is after
/// a ruling.
#[unsafe(no_mangle)]
pub extern "C" fn vintsaky_match_next(held: &mut MatchHandle, side: &mut u32) -> u32
    ensures call { NextCall held.old.value result side.new }
    ensures object { held.new.value ≡ held.old.value }
{
    matches::next(held.get_mut(), side)
}

/// Reports that a side was started. If it can't be started, call this all the same, and then [`vintsaky_match_lost`].
///
/// # Errors
///
/// `BadColour`, or else `NotNext` if its start isn't what is next. The match is unchanged.
#[unsafe(no_mangle)]
pub extern "C" fn vintsaky_match_started(held: &mut MatchHandle, side: u32) -> u32
    ensures call { Returns result (StartedCall side held.old.value held.new.value) }
{
    code_of(matches::started(held.get_mut(), side))
}

/// Writes the next command for a side, and its length. It counts as sent.
///
/// # Errors
///
/// `BadColour`, or else `NotNext` if no command for this side is next, or else `NoRoom` if the buffer has fewer than 65
/// bytes, even for a shorter line. The match is unchanged, and nothing is written.
#[unsafe(no_mangle)]
pub extern "C" fn vintsaky_match_send(
    held: &mut MatchHandle,
    side: u32,
    text: &mut [u8],
    count: &mut usize,
) -> u32
    ensures call { Returns result (SendCall side held.old.value held.new.value text.old text.new
        count.old count.new) }
{
    code_of(matches::send(held.get_mut(), side, text, count))
}

/// Takes a side's output, in any chunks. Writes why the side fails by it, or 0. The output of a side that is down is
/// ignored, and so is all output once the match is over, also by a ruling.
///
/// # Errors
///
/// `BadColour`. The match is unchanged, and nothing is written.
#[unsafe(no_mangle)]
pub extern "C" fn vintsaky_match_hear(
    held: &mut MatchHandle,
    side: u32,
    bytes: &[u8],
    loss: &mut u32,
) -> u32
    ensures call { Returns result (HearCall side bytes.now held.old.value held.new.value
        loss.old loss.new) }
{
    code_of(matches::hear(held.get_mut(), side, bytes, loss))
}

/// Takes a side's output as [`vintsaky_match_hear`] does, and writes more about it. If the side refused a play that is
/// retaken, `retake` becomes the number of this retake at its move number, 1 to 3; otherwise it becomes 0. For a loss,
/// or else for a retake, the call writes how many commands the side hadn't answered, including the one that this reply
/// answers; the oldest of these commands, as it was sent but without its newline; and the first 80 bytes of the reply.
/// If the bytes aren't a reply, it writes the first 80 of all bytes that came since the last whole reply. Each text
/// comes with its length. Without a loss or a retake, the numbers are 0 and the texts empty.
///
/// # Errors
///
/// `BadColour`. The match is unchanged, and nothing is written.
#[unsafe(no_mangle)]
pub extern "C" fn vintsaky_match_hear_reporting(
    held: &mut MatchHandle,
    side: u32,
    bytes: &[u8],
    loss: &mut u32,
    retake: &mut u32,
    unanswered: &mut u32,
    command: &mut [u8],
    command_count: &mut usize,
    wrote: &mut [u8],
    wrote_count: &mut usize,
) -> u32
    ensures call { Returns result (HearReportingCall side bytes.now held.old.value held.new.value
        loss.old loss.new retake.old retake.new
        (owed_out unanswered.old command.old command_count.old wrote.old wrote_count.old)
        (owed_out unanswered.new command.new command_count.new wrote.new wrote_count.new)) }
{
    code_of(matches::hear_reporting(
        held.get_mut(),
        side,
        bytes,
        loss,
        retake,
        unanswered,
        command,
        command_count,
        wrote,
        wrote_count,
    ))
}

/// Writes what a side owes: how many commands it hasn't answered; the oldest of them, as it was sent but without its
/// newline, or an empty text; and the first 80 bytes that it wrote since its last whole reply. Each text comes with its
/// length.
///
/// # Errors
///
/// `BadColour`, or else `Down`, also if the match is over. Nothing is written.
#[unsafe(no_mangle)]
pub extern "C" fn vintsaky_match_owed(
    held: &mut MatchHandle,
    side: u32,
    unanswered: &mut u32,
    command: &mut [u8],
    command_count: &mut usize,
    wrote: &mut [u8],
    wrote_count: &mut usize,
) -> u32
    ensures call { Returns result (OwedCall held.old.value side
        (owed_out unanswered.old command.old command_count.old wrote.old wrote_count.old)
        (owed_out unanswered.new command.new command_count.new wrote.new wrote_count.new)) }
    ensures object { held.new.value ≡ held.old.value }
{
    code_of(matches::owed(
        held.get_mut(),
        side,
        unanswered,
        command,
        command_count,
        wrote,
        wrote_count,
    ))
}

/// Writes how many commands of its script a side has confirmed, how many commands it hasn't answered, and 1 if a
/// `genmove` is among the unanswered ones, else 0. The script consists of the setup commands and a `play` for each move
/// of the record. It doesn't matter whether the match is over.
///
/// # Errors
///
/// `BadColour`, or else `Down` if the side isn't up. Nothing is written.
#[unsafe(no_mangle)]
pub extern "C" fn vintsaky_match_status(
    held: &mut MatchHandle,
    side: u32,
    confirmed: &mut u32,
    unanswered: &mut u32,
    asked: &mut u32,
) -> u32
    ensures call { Returns result (StatusCall held.old.value side confirmed.old confirmed.new
        unanswered.old unanswered.new asked.old asked.new) }
    ensures object { held.new.value ≡ held.old.value }
{
    code_of(matches::status(held.get_mut(), side, confirmed, unanswered, asked))
}

/// Reports that a side is gone: its output has ended, a read or a write failed, or it couldn't be started. After a
/// ruling nothing changes.
///
/// # Errors
///
/// `BadColour`. The match is unchanged.
#[unsafe(no_mangle)]
pub extern "C" fn vintsaky_match_lost(held: &mut MatchHandle, side: u32) -> u32
    ensures call { Returns result (LostCall side held.old.value held.new.value) }
{
    code_of(matches::lost(held.get_mut(), side))
}

/// Writes 1 if a side is in step: it is up, owes no answer, and has confirmed its whole script, as
/// [`vintsaky_match_status`] counts it. Else it writes 0.
///
/// # Errors
///
/// `BadColour`. Nothing is written.
#[unsafe(no_mangle)]
pub extern "C" fn vintsaky_match_in_step(held: &mut MatchHandle, side: u32, holds: &mut u32) -> u32
    ensures call { Returns result (InStepCall held.old.value side holds.old holds.new) }
    ensures object { held.new.value ≡ held.old.value }
{
    code_of(matches::in_step(held.get_mut(), side, holds))
}

/// Writes how often a side was restarted.
///
/// # Errors
///
/// `BadColour`. Nothing is written.
#[unsafe(no_mangle)]
pub extern "C" fn vintsaky_match_restarts(
    held: &mut MatchHandle,
    side: u32,
    restarts: &mut u32,
) -> u32
    ensures call { Returns result (RestartsCall held.old.value side restarts.old restarts.new) }
    ensures object { held.new.value ≡ held.old.value }
{
    code_of(matches::restarts(held.get_mut(), side, restarts))
}

/// Returns how often the move of this number, counted from 1, was retaken because it was refused: at most 3, and 0 for
/// a number without a retake.
#[unsafe(no_mangle)]
pub extern "C" fn vintsaky_match_retakes(held: &mut MatchHandle, number: u32) -> u32
    ensures call { result ≡ retakes_of held.old.value.controller.retakes number }
    ensures object { held.new.value ≡ held.old.value }
{
    matches::retakes(held.get_mut(), number)
}

/// Returns the side whose last move is to be undone because the other side refused it, or 0.
#[unsafe(no_mangle)]
pub extern "C" fn vintsaky_match_taking_back(held: &mut MatchHandle) -> u32
    ensures call { result ≡ maybe_side_code (taking_back held.old.value.controller) }
    ensures object { held.new.value ≡ held.old.value }
{
    matches::taking_back(held.get_mut())
}

/// Writes how the match ended, the side concerned (or 0), and the score in half points (positive: Black leads; or 0).
/// By a ruling, the side is the one that loses.
///
/// # Errors
///
/// `NotOver`. Nothing is written.
#[unsafe(no_mangle)]
pub extern "C" fn vintsaky_match_verdict(
    held: &mut MatchHandle,
    ending: &mut u32,
    side: &mut u32,
    half_points: &mut i32,
) -> u32
    ensures call { Returns result (VerdictCall held.old.value ending.old ending.new
        side.old side.new half_points.old half_points.new) }
    ensures object { held.new.value ≡ held.old.value }
{
    code_of(matches::verdict(held.get_mut(), ending, side, half_points))
}

/// Copies the match's game into another one.
#[unsafe(no_mangle)]
pub extern "C" fn vintsaky_match_copy_game(held: &mut MatchHandle, game: &mut GameHandle)
    ensures call { game.new.value ≡ held.old.value.controller.game }
    ensures object { held.new.value ≡ held.old.value }
{
    matches::copy_game(held.get_mut(), game.get_mut())
}

/// Writes the result line of a match that is over, without its newline, and its length. `number` is the number of the
/// game in that line. If Black loses by a ruling, the verdict is `W+T`, or `W+F(REASON)` if there is a reason.
///
/// # Errors
///
/// `NotOver`. Nothing is written.
#[unsafe(no_mangle)]
pub extern "C" fn vintsaky_match_result(
    held: &mut MatchHandle,
    number: u32,
    text: &mut [u8],
    count: &mut usize,
) -> u32
    ensures call { Returns result (ResultCall held.old.value number text.old text.new
        count.old count.new) }
    ensures object { held.new.value ≡ held.old.value }
{
    code_of(matches::result(held.get_mut(), number, text, count))
}

/// Writes the moves of a match as `twogtp --record` prints them, without the newline, and returns their length.
#[unsafe(no_mangle)]
pub extern "C" fn vintsaky_match_record(held: &mut MatchHandle, text: &mut [u8]) -> usize
    ensures call { Writes (record_text held.old.value.controller.game) text.old text.new result }
    ensures object { held.new.value ≡ held.old.value }
{
    matches::record(held.get_mut(), text)
}

/// Ends a match that isn't over: the side loses. An empty reason means that it loses on time. Otherwise the reason has
/// 1 to 20 letters and spaces, and is none of `refused play`, `no move`, `no vertex` and `illegal move`. After that
/// only [`vintsaky_match_begin`] changes the match.
///
/// # Errors
///
/// `BadColour`, or else `IsOver`, or else `BadReason`. The match is unchanged.
#[unsafe(no_mangle)]
pub extern "C" fn vintsaky_match_adjudicate(held: &mut MatchHandle, side: u32, reason: &[u8]) -> u32
    ensures call { Returns result (AdjudicateCall side reason.now held.old.value held.new.value) }
{
    code_of(matches::adjudicate(held.get_mut(), side, reason))
}

/// Writes the reason of the ruling that ended a match, and returns its length: 0 if the side lost on time, or if there
/// is no ruling.
#[unsafe(no_mangle)]
pub extern "C" fn vintsaky_match_reason(held: &mut MatchHandle, text: &mut [u8]) -> usize
    ensures call { Writes (reason_of held.old.value.ruled) text.old text.new result }
    ensures object { held.new.value ≡ held.old.value }
{
    matches::reason(held.get_mut(), text)
}
