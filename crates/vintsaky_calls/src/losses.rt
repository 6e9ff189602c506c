//! Why a side fails, and what it owes, in numbers and texts.
ghost use Rattle.std.specs.Prelude.{◌≡◌, IfSome};
ghost use Rattle.gtp_match.specs.Losing.{CanBeShown};
ghost use Rattle.gtp_wire.specs.Commands.{IsWritable};
ghost use Rattle.vintsaky_calls.specs.Matches.{fault_code, rule_loss_code, loss_cause_code, loss_code, retake_code};
ghost use Rattle.vintsaky_calls.specs.Matches.{oldest_text, reported_owed, PutsOwed, owed_out};

use crate::texts::put;
use arrayvec::ArrayVec;
use go_base::{push, write_int};
use go_board::PlayFault;
use gtp_match::{Loss, LossCause, Owed, Report, Retake, SentCommand, SideFault};
use gtp_wire::write_command;

/// The bytes of a command as it was sent.
type SentText = ArrayVec<u8, SENT_ROOM>;

/// The space for ten digits, a space and the words of a command.
const SENT_ROOM: usize = 75;

/// The number of a loss, or 0.
pub(crate) fn number_of_loss(loss: &Option<Loss>) -> u32
    ensures { result ≡ loss_code loss.now }
{
    match loss {
        None => 0,
        Some(loss) => number_of_cause(loss.cause),
    }
}

/// The number of why a side fails.
fn number_of_cause(cause: LossCause) -> u32
    ensures { result ≡ loss_cause_code cause }
{
    match cause {
        LossCause::Shows(fault) => number_of_fault(fault),
        // It failed at a setup command, or placed other handicap stones. It is unfit.
        LossCause::Unfit => 5,
        // It refused a play that isn't retaken. It forfeits.
        LossCause::RefusesPlay => 6,
        // It didn't undo its move, which the other side refused. The other side forfeits.
        LossCause::KeepsMove => 7,
        // It failed at a genmove. It forfeits.
        LossCause::NoMove => 8,
        // Its answer to a genmove is neither a vertex nor a resignation. It forfeits.
        LossCause::NoVertex => 9,
        LossCause::Illegal(fault) => number_of_rule(fault),
    }
}

/// The number of a fault that bytes show.
fn number_of_fault(fault: SideFault) -> u32
    ensures { result ≡ fault_code fault }
{
    match fault {
        // What it wrote isn't a reply: it begins with neither = nor ?. It goes down.
        SideFault::NoStatus => 1,
        // More than 8,192 bytes came since its last reply. It goes down.
        SideFault::Overlong => 2,
        // The reply doesn't have the id of the oldest unanswered command. It goes down.
        SideFault::WrongId => 3,
        // A reply came when no command was unanswered. It goes down.
        SideFault::Unasked => 4,
    }
}

/// The number of the rule that a move breaks.
fn number_of_rule(fault: PlayFault) -> u32
    ensures { result ≡ rule_loss_code fault }
{
    match fault {
        // Its move is illegal: the record is full. It forfeits.
        PlayFault::Full => 10,
        // Its move is illegal: the point isn't on the board. It forfeits.
        PlayFault::OffBoard => 11,
        // Its move is illegal: a stone is on the point. It forfeits.
        PlayFault::Occupied => 12,
        // Its move is illegal: suicide. It forfeits.
        PlayFault::Suicide => 13,
        // Its move is illegal: ko. It forfeits.
        PlayFault::Ko => 14,
    }
}

/// Which retake of its move number it is, or 0.
pub(crate) fn number_of_retake(retake: &Option<Retake>) -> u32
    ensures { result ≡ retake_code retake.now }
{
    match retake {
        None => 0,
        Some(retake) => retake.count,
    }
}

/// Writes what a side owed at a loss, or else at a retake, or else nothing.
pub(crate) fn put_reported(
    report: &Report,
    unanswered: &mut u32,
    command: &mut [u8],
    command_count: &mut usize,
    wrote: &mut [u8],
    wrote_count: &mut usize,
)
    requires loss_shown { IfSome report.now.loss (λ loss. CanBeShown loss.owed) }
    requires retake_shown { IfSome report.now.retake (λ retake. CanBeShown retake.owed) }
    ensures { PutsOwed (reported_owed report.now.loss report.now.retake)
        (owed_out unanswered.old command.old command_count.old wrote.old wrote_count.old)
        (owed_out unanswered.new command.new command_count.new wrote.new wrote_count.new) }
{
    match (&report.loss, &report.retake) {
        (Some(loss), _) => put_owed(
            &loss.owed,
            unanswered,
            command,
            command_count,
            wrote,
            wrote_count,
        ),
        (None, Some(retake)) => put_owed(
            &retake.owed,
            unanswered,
            command,
            command_count,
            wrote,
            wrote_count,
        ),
        (None, None) => {
            *unanswered = 0;
            *command_count = put(b"", command);
            *wrote_count = put(b"", wrote);
        }
    }
}

/// Writes what a side owes: how many commands it hasn't answered, the oldest of them, and what it wrote.
pub(crate) fn put_owed(
    owes: &Owed,
    unanswered: &mut u32,
    command: &mut [u8],
    command_count: &mut usize,
    wrote: &mut [u8],
    wrote_count: &mut usize,
)
    requires { CanBeShown owes.now }
    ensures { PutsOwed owes.now
        (owed_out unanswered.old command.old command_count.old wrote.old wrote_count.old)
        (owed_out unanswered.new command.new command_count.new wrote.new wrote_count.new) }
{
    *unanswered = owes.unanswered;
    *command_count = put(&oldest_text(owes.oldest), command);
    *wrote_count = put(&owes.bytes, wrote);
}

/// The oldest unanswered command as it was sent, without its newline: its id, a space and its words. Empty if there is
/// none.
fn oldest_text(oldest: Option<SentCommand>) -> SentText
    requires { IfSome oldest (λ entry. IsWritable entry.command) }
    ensures { result.items ≡ oldest_text oldest }
{
    let mut text = ArrayVec::new();
    if let Some(entry) = oldest {
        let mut words = write_command(None, &entry.command);
        words.pop();
        push(&mut text, &write_int(entry.id));
        text.push(b' ');
        push(&mut text, &words);
    }
    text
}
