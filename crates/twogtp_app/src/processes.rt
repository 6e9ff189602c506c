//! The processes of both sides.
ghost use Rattle.std.specs.Prelude.{◌≡◌, Some};
ghost use Rattle.std.specs.Borrow.{sem};
ghost use Rattle.twogtp_app.specs.Processes.{AreEnded, Ends, OtherStays};
ghost use Rattle.twogtp_app.specs.Processes.{kept_by, no_processes, process_of};
ghost use Rattle.twogtp_app.specs.private.Borrowing.{BorrowsProcess};

use go_base::Side;
use gtp_match::{Match, Status};
use gtp_process::{Ending, Process, end, end_known};

/// The process of each side that has one. It is not `Drop`: `end` ends them all, and so does `close` of a
/// `WrittenGame`.
pub struct Processes<P> {
    /// Black's.
    pub black: Option<P>,
    /// White's.
    pub white: Option<P>,
}

impl<P: Process> Processes<P> {
    /// No process.
    pub fn none() -> Self
        ensures { result ≡ no_processes }
    {
        Processes {
            black: None,
            white: None,
        }
    }

    /// Replaces a side's process, and returns the one that it had.
    pub fn replace(&mut self, side: Side, process: P) -> Option<P>
        ensures put { process_of self.new side ≡ Some process }
        ensures had { result ≡ process_of self.old side }
        ensures rests { OtherStays side self.old self.new }
    {
        match side {
            Side::Black => self.black.replace(process),
            Side::White => self.white.replace(process),
        }
    }

    /// A mutable reference to a side's process, if it has one.
    pub fn process_mut(&mut self, side: Side) -> &mut Option<P>
        ensures* writes_back { sem 𝓛 (BorrowsProcess P.row self.entry side result) }
        ensures value { result.now ≡ process_of self.old side }
    {
        match side {
            Side::Black => &mut self.black,
            Side::White => &mut self.white,
        }
    }

    /// Ends the process of a side that is down, and returns how it ended.
    pub fn end_if_down(&mut self, game: &Match, side: Side) -> Ending
        ensures kept { process_of self.new side ≡ kept_by game.now side (process_of self.old side) }
        ensures rests { OtherStays side self.old self.new }
        ensures ended { Ends P.Process game.now side (process_of self.old side) result }
    {
        match game.status(side) {
            Status::Down => end_known(self.process_mut(side).take()),
            Status::Up { .. } => Ending::Unknown,
        }
    }

    /// Ends all processes at once.
    pub fn end(self)
        ensures { AreEnded P.Process self }
    {
        let Processes { black, white } = self;
        end(black);
        end(white);
    }
}
