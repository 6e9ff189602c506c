//! Writes the text of a game that is over, and then ends its processes.
ghost use Rattle.std.specs.Prelude.{◌≡◌, IfOk, OnOk, OnErr};
ghost use Rattle.gtp_match.specs.Sides.{side_of, status_of};
ghost use Rattle.twogtp_app.specs.Closing.{AreClosed, has_answered_all};
ghost use Rattle.twogtp_app.specs.Games.{game_lines};
ghost use Rattle.twogtp_app.specs.Processes.{AreEnded};
ghost use Rattle.byte_streams.specs.Writing.{BreaksAt, IsFlushed};
ghost use Rattle.twogtp_app.specs.private.Leaving.{IsLeft};

use crate::game::GameInPlay;
use crate::game_text::game_text;
use crate::processes::Processes;
use crate::task::Task;
use byte_streams::{Broken, WriteOnce, write_text};
use go_base::Side;
use gtp_match::{Match, Status, Verdict};
use gtp_process::{Process, Starter, end, quit_and_end};

/// A game that is over, and its verdict. Only `write` makes one, after it has written and flushed the game's text; only
/// `close` sends `quit`, and it needs one. So no process is sent `quit` before the text is written.
pub struct WrittenGame<S: Starter> {
    played: GameInPlay<S>,
    verdict: Verdict,
}

impl<S: Starter> GameInPlay<S> {
    /// Writes the text of a game that ended with this verdict, and sends its processes nothing.
    ///
    /// # Errors
    ///
    /// `Broken` if the text can't be written. The processes are ended at once then.
    pub fn write<O: WriteOnce>(
        self,
        task: &Task,
        number: u32,
        verdict: Verdict,
        output: &mut O,
    ) -> Result<WrittenGame<S>, Broken>
        ensures whole { OnOk result
            (IsFlushed O.WriteOnce (game_lines task.now number self.game) output.old output.new) }
        ensures played { IfOk result (λ written. written.played ≡ self) }
        ensures verdict { IfOk result (λ written. written.verdict ≡ verdict) }
        ensures broke { OnErr result
            (BreaksAt O.WriteOnce (game_lines task.now number self.game) output.old output.new) }
        ensures ended { OnErr result (AreEnded S.Process.Process self.processes) }
    {
        let text = game_text(task, number, &self.game);
        match write_text(output, text.as_slice()) {
            Ok(()) => Ok(WrittenGame {
                played: self,
                verdict,
            }),
            Err(Broken) => {
                self.end();
                Err(Broken)
            }
        }
    }
}

impl<S: Starter> WrittenGame<S> {
    /// Ends all processes, and returns the verdict. A side that is down or still owes an answer is ended at once, then
    /// each other side is sent `quit` and ended once it has answered.
    pub fn close(self) -> Verdict
        ensures verdict { result ≡ self.verdict }
        ensures closed { AreClosed S.Process.Process self.played.game self.played.processes }
    {
        let WrittenGame { played, verdict } = self;
        let GameInPlay {
            game,
            processes,
            mut buffer,
        } = played;
        let Processes { black, white } = processes;
        let black = end_unless_answered(&game, Side::Black, black);
        let white = end_unless_answered(&game, Side::White, white);
        quit_and_end(black, &mut buffer);
        quit_and_end(white, &mut buffer);
        verdict
    }
}

/// Ends the process of a side that is down or still owes an answer, and returns any other.
fn end_unless_answered<P: Process>(game: &Match, side: Side, process: Option<P>) -> Option<P>
    ensures { IsLeft P.Process
        (has_answered_all (status_of (side_of game.now.sides side).up)) process result }
{
    if has_answered_all(game, side) {
        process
    } else {
        end(process);
        None
    }
}

/// Whether a side is up and has no unanswered command.
fn has_answered_all(game: &Match, side: Side) -> bool
    ensures { result ≡ has_answered_all (status_of (side_of game.now.sides side).up) }
{
    match game.status(side) {
        Status::Up { unanswered, .. } => unanswered == 0,
        Status::Down => false,
    }
}
