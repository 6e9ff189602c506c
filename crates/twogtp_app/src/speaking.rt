//! Sends a side's process its commands, and reads its replies.
ghost use Rattle.std.specs.Prelude.{◌≡◌, None, Option};
ghost use Rattle.gtp_match.specs.declared.verdicts.Action.TheVariants as action;
ghost use Rattle.gtp_match.specs.Controller.{lost};
ghost use Rattle.gtp_match.specs.Next.{next};
ghost use Rattle.gtp_match.specs.Sides.{side_of, status_of};
ghost use Rattle.twogtp_app.specs.Speaking.{AreSent, HearsFromSide, IsHeard, ReportedBy, SendsToSide, cut_off, in_turn};
ghost use Rattle.twogtp_app.specs.Why.{ReportCanBeShown, only_loss};
ghost use Rattle.twogtp_app.specs.private.Several.{has_several_unanswered};

use crate::next_commands::take_commands;
use crate::why::{TurnLoss, TurnReport};
use go_base::Side;
use gtp_match::{Match, Report, Status};
use gtp_process::{CutOff, PipeCause, Process, READ_ROOM, read_some, write_whole};

/// Sends a side all commands that come next for it, and returns why the side failed, if it did. A side without a
/// process fails.
pub fn send<P: Process>(game: &mut Match, side: Side, process: &mut Option<P>) -> TurnReport
    requires { next game.old ≡ action.Send side }
    ensures sends { SendsToSide P.Process side (in_turn game.old process.old)
        (in_turn game.new process.new) result.loss }
    ensures retake { result.retake ≡ None }
    ensures shown { ReportCanBeShown result }
{
    match process {
        Some(process) => send_to(game, side, process),
        None => {
            // The bytes go nowhere, since there is no process to take them.
            let _ = game.send(side);
            cut_off(game, side, PipeCause::Writing)
        }
    }
}

/// Writes a side's commands to its process in one text. A side whose pipe breaks fails.
fn send_to<P: Process>(game: &mut Match, side: Side, process: &mut P) -> TurnReport
    ensures sent { AreSent P.Process game.old side process.old process.new game.new result.loss }
    ensures retake { result.retake ≡ None }
    ensures shown { ReportCanBeShown result }
{
    let text = take_commands(game, side);
    match write_whole(process, text.as_slice()) {
        Ok(()) => TurnReport::only_loss(None),
        Err(CutOff) => cut_off(game, side, PipeCause::Writing),
    }
}

/// Reads once what a side wrote, passes it to the match, and returns what to report. A side without a process fails.
pub fn hear<P: Process>(
    game: &mut Match,
    side: Side,
    process: &mut Option<P>,
    buffer: &mut [u8; READ_ROOM],
) -> TurnReport
    requires { next game.old ≡ action.Wait side }
    ensures hears { HearsFromSide P.Process side (in_turn game.old process.old)
        (in_turn game.new process.new) result }
    ensures shown { ReportCanBeShown result }
{
    match process {
        Some(process) => hear_from(game, side, process, buffer),
        None => cut_off(game, side, PipeCause::Reading),
    }
}

/// Reads once, and passes all that was read to the match before anything else is done. A side whose output has ended or
/// whose pipe breaks fails. A process that has several commands to answer may run first.
fn hear_from<P: Process>(
    game: &mut Match,
    side: Side,
    process: &mut P,
    buffer: &mut [u8; READ_ROOM],
) -> TurnReport
    ensures heard { IsHeard P.Process game.old side process.old process.new
        game.new result }
    ensures shown { ReportCanBeShown result }
{
    if has_several_unanswered(game, side) {
        process.let_run_first();
    }
    match read_some(process, buffer) {
        Ok(0) => cut_off(game, side, PipeCause::Ended),
        Ok(count) => hear_bytes(game, side, &buffer[..count]),
        Err(CutOff) => cut_off(game, side, PipeCause::Reading),
    }
}

/// Passes all bytes of a side to the match, and returns what to report: a refused `play` that is retaken, and why the
/// side failed.
fn hear_bytes(game: &mut Match, side: Side, bytes: &[u8]) -> TurnReport
    ensures reported { ReportedBy side game.old bytes.now game.new result }
    ensures shown { ReportCanBeShown result }
{
    let Report { retake, loss } = game.hear_reporting(side, bytes);
    TurnReport {
        retake,
        loss: match loss {
            Some(loss) => Some(TurnLoss::Wrote(loss)),
            None => None,
        },
    }
}

/// Records that a side's pipe broke or ended, so that it fails, and returns why, with what the side owed.
fn cut_off(game: &mut Match, side: Side, cause: PipeCause) -> TurnReport
    ensures lost { game.new ≡ lost game.old side }
    ensures report { result ≡ only_loss (cut_off cause game.old side) }
    ensures shown { ReportCanBeShown result }
{
    let owed = game.owed(side);
    game.lost(side);
    TurnReport::only_loss(match owed {
        Some(owed) => Some(TurnLoss::CutOff(cause, owed)),
        None => None,
    })
}

/// Whether a side is up and has more than one unanswered command.
fn has_several_unanswered(game: &Match, side: Side) -> bool
    ensures { result ≡ has_several_unanswered (status_of (side_of game.now.sides side).up) }
{
    match game.status(side) {
        Status::Up { unanswered, .. } => unanswered > 1,
        Status::Down => false,
    }
}
