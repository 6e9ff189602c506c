//! Writes the lines of `--why`.
ghost use Rattle.std.specs.Prelude.{OnOk, OnErr};
ghost use Rattle.twogtp_app.specs.Turns.{turn_lines};
ghost use Rattle.twogtp_app.specs.Why.{ReportCanBeShown};
ghost use Rattle.byte_streams.specs.Writing.{LinesBreak, AreFlushed};

use crate::why::SideTurn;
use crate::why_text::{loss_line, retake_line};
use byte_streams::{Broken, WriteOnce, write_text};

/// With `--why` writes what is reported about a turn: first the `play` that is retaken, then why the side failed. Each
/// line is flushed before the next.
pub fn write_turn<E: WriteOnce>(
    why: bool,
    number: u32,
    turn: &SideTurn,
    errors: &mut E,
) -> Result<(), Broken>
    requires { ReportCanBeShown turn.now.report }
    ensures whole { OnOk result
        (AreFlushed E.WriteOnce (turn_lines why number turn.now) errors.old errors.new) }
    ensures broke { OnErr result
        (LinesBreak E.WriteOnce (turn_lines why number turn.now) errors.old errors.new) }
{
    if !why {
        return Ok(());
    }
    if let Some(retake) = &turn.report.retake {
        write_text(errors, retake_line(number, turn.side, retake).as_slice())?;
    }
    match &turn.report.loss {
        Some(loss) => write_text(
            errors,
            loss_line(number, turn.side, loss, turn.ending).as_slice(),
        ),
        None => Ok(()),
    }
}
