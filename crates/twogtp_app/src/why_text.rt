//! The lines of `--why` about a turn.
ghost use Rattle.std.specs.Prelude.{◌≡◌, ◌+◌, ◌<◌, ◌≤◌, ◌++◌, length, IfSome};
ghost use Rattle.arrayvec.specs.ArrayVec.{array_vec_len};
ghost use Rattle.gtp_match.specs.Losing.{CanBeShown};
ghost use Rattle.gtp_wire.specs.Replies.{most_shown};
ghost use Rattle.std.specs.Fmt.{decimal};
ghost use Rattle.gtp_wire.specs.Commands.{IsWritable};
ghost use Rattle.twogtp_app.specs.Why.{LossCanBeShown, rule_text, wrong_text, before_oldest, oldest_text};
ghost use Rattle.twogtp_app.specs.Why.{owed_text, wrote_text, read_text, loss_text, line_head};
ghost use Rattle.twogtp_app.specs.Why.{retake_line};
ghost use Rattle.twogtp_app.specs.Why.{loss_line};

use crate::why::TurnLoss;
use arrayvec::ArrayVec;
use go_base::{Side, push, write_int};
use go_board::PlayFault;
use gtp_match::{LossCause, Owed, Retake, SentCommand, SideFault, side_name};
use gtp_process::{Ending, PipeCause, pipe_text, push_ending, push_quoted, push_unstarted};
use gtp_wire::write_command;

/// The buffer size for a line: 320 bytes of what a side wrote, and less than 280 for the rest.
const LINE_ROOM: usize = 600;

/// A line of `--why` about a side.
pub type ReportLine = ArrayVec<u8, LINE_ROOM>;

/// The line about a side that refused a `play` which is retaken, with its newline: at most 600 bytes.
pub fn retake_line(number: u32, side: Side, retake: &Retake) -> ReportLine
    requires { CanBeShown retake.now.owed }
    ensures { result.items ≡ retake_line number side retake.now }
{
    let mut line = begin_line(number, side);
    push_owed(&mut line, &retake.owed);
    push(&mut line, b"the play was refused (retake ");
    push_number(&mut line, retake.count);
    push(&mut line, b" of 3)");
    push_wrote(&mut line, &retake.owed.bytes);
    push(&mut line, b"\n");
    line
}

/// The line about a side that failed, and how its process ended, with its newline: at most 600 bytes.
pub fn loss_line(number: u32, side: Side, loss: &TurnLoss, ending: Ending) -> ReportLine
    requires { LossCanBeShown loss.now }
    ensures { result.items ≡ loss_line number side loss.now ending }
{
    let mut line = begin_line(number, side);
    push_loss(&mut line, loss, ending);
    push(&mut line, b"\n");
    line
}

/// The beginning of a line: `twogtp: game N: SIDE: `.
fn begin_line(number: u32, side: Side) -> ReportLine
    ensures bytes { result.items ≡ line_head number side }
    ensures few { array_vec_len result ≤ 32 }
{
    let mut line = ArrayVec::new();
    push(&mut line, b"twogtp: game ");
    push_number(&mut line, number);
    push(&mut line, b": ");
    push(&mut line, side_name(side));
    push(&mut line, b": ");
    line
}

/// Appends why a side failed.
fn push_loss(line: &mut ReportLine, loss: &TurnLoss, ending: Ending)
    requires room { array_vec_len line.old ≤ 32 }
    requires shown { LossCanBeShown loss.now }
    ensures bytes { line.new.items ≡ line.old.items ++ loss_text loss.now ending }
    ensures len { array_vec_len line.new ≤ array_vec_len line.old + 560 }
{
    match loss {
        TurnLoss::NotStarted(start) => push_unstarted(line, start),
        TurnLoss::CutOff(cause, owed) => {
            push_owed(line, owed);
            push(line, pipe_text(*cause));
            push_ending(line, ending);
            push_read(line, *cause, &owed.bytes);
        }
        TurnLoss::Wrote(loss) => {
            push_owed(line, &loss.owed);
            push(line, wrong_text(loss.cause));
            push_wrote(line, &loss.owed.bytes);
        }
    }
}

fn wrong_text(cause: LossCause) -> &'static [u8]
    ensures text { result.now ≡ wrong_text cause }
    ensures few { length result.now ≤ 60 }
{
    match cause {
        LossCause::Shows(SideFault::NoStatus) =>
            b"not a GTP reply (it begins with neither = nor ?)",
        LossCause::Shows(SideFault::Overlong) => b"no end of a reply in 8192 bytes",
        LossCause::Shows(SideFault::WrongId) => b"a reply without the awaited id",
        LossCause::Shows(SideFault::Unasked) => b"a reply to nothing that was asked",
        LossCause::Unfit => b"unfit: the command failed, or was answered wrongly",
        LossCause::RefusesPlay => b"the play was refused",
        LossCause::KeepsMove => b"the refused move was not taken back: the other side forfeits",
        LossCause::NoMove => b"no move: the genmove failed",
        LossCause::NoVertex => b"neither a vertex nor resign",
        LossCause::Illegal(fault) => rule_text(fault),
    }
}

fn rule_text(fault: PlayFault) -> &'static [u8]
    ensures text { result.now ≡ rule_text fault }
    ensures few { length result.now ≤ 60 }
{
    match fault {
        PlayFault::Full => b"an illegal move: the record is full",
        PlayFault::OffBoard => b"an illegal move: off the board",
        PlayFault::Occupied => b"an illegal move: the point is occupied",
        PlayFault::Suicide => b"an illegal move: suicide",
        PlayFault::Ko => b"an illegal move: ko",
    }
}

/// Appends the number of a side's unanswered commands, and the oldest of them.
fn push_owed(line: &mut ReportLine, owed: &Owed)
    requires room { array_vec_len line.old ≤ 100 }
    requires shown { CanBeShown owed.now }
    ensures bytes { line.new.items ≡ line.old.items ++ owed_text owed.now }
    ensures len { array_vec_len line.new ≤ array_vec_len line.old + 120 }
{
    push_number(line, owed.unanswered);
    push(line, b" unanswered");
    push_oldest(line, owed.unanswered, owed.oldest);
    push(line, b": ");
}

/// Appends the oldest of `number` unanswered commands as it was sent, in quotes, if there is one.
fn push_oldest(line: &mut ReportLine, number: u32, oldest: Option<SentCommand>)
    requires room { array_vec_len line.old ≤ 300 }
    requires shown { IfSome oldest (λ entry. IsWritable entry.command) }
    ensures bytes { line.new.items ≡ line.old.items ++ oldest_text number oldest }
    ensures len { array_vec_len line.new ≤ array_vec_len line.old + 93 }
{
    let Some(entry) = oldest else {
        return;
    };
    let mut words = write_command(None, &entry.command);
    words.pop();
    push(line, before_oldest(number));
    push_number(line, entry.id);
    push(line, b" ");
    push(line, &words);
    push(line, b"\"");
}

/// The text before the oldest of `number` unanswered commands.
fn before_oldest(number: u32) -> &'static [u8]
    ensures text { result.now ≡ before_oldest number }
    ensures few { length result.now ≤ 13 }
{
    match number {
        1 => b", \"",
        _ => b", the first \"",
    }
}

/// Appends what was read of a side whose pipe broke or ended.
fn push_read(line: &mut ReportLine, cause: PipeCause, bytes: &[u8])
    requires few { length bytes.now ≤ most_shown }
    requires room { array_vec_len line.old ≤ 250 }
    ensures bytes { line.new.items ≡ line.old.items ++ read_text cause bytes.now }
    ensures len { array_vec_len line.new ≤ array_vec_len line.old + 333 }
{
    match (cause, bytes) {
        (PipeCause::Writing | PipeCause::Reading, []) => push(line, b"; nothing of it was read"),
        _ => push_wrote(line, bytes),
    }
}

/// Appends the beginning of what a side wrote.
fn push_wrote(line: &mut ReportLine, bytes: &[u8])
    requires few { length bytes.now ≤ most_shown }
    requires room { array_vec_len line.old ≤ 250 }
    ensures bytes { line.new.items ≡ line.old.items ++ wrote_text bytes.now }
    ensures len { array_vec_len line.new ≤ array_vec_len line.old + 333 }
{
    push(line, b"; it wrote ");
    push_quoted(line, bytes);
}

/// Appends a number.
fn push_number(line: &mut ReportLine, number: u32)
    requires { array_vec_len line.old + 10 ≤ LINE_ROOM }
    ensures bytes { line.new.items ≡ line.old.items ++ decimal number }
    ensures len { array_vec_len line.new ≤ array_vec_len line.old + 10 }
{
    push(line, &write_int(number));
}
