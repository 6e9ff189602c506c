//! What `--why` reports about a turn: a refused `play` that is retaken, and why a side failed.
ghost use Rattle.std.specs.Prelude.{◌≡◌};
ghost use Rattle.twogtp_app.specs.Why.{only_loss};

use go_base::Side;
use gtp_match::{Loss, Owed, Retake};
use gtp_process::{Ending, PipeCause, Unstarted};

/// Why a side failed in a turn.
#[derive(Drop)]
pub enum TurnLoss {
    /// Its program couldn't be started.
    NotStarted(Unstarted),
    /// Its pipe broke or ended, and it owed this.
    CutOff(PipeCause, Owed),
    /// It wrote something wrong.
    Wrote(Loss),
}

/// What `--why` reports about a turn.
#[derive(Drop)]
pub struct TurnReport {
    /// The refused `play` that is retaken, if any. No side fails by this.
    pub retake: Option<Retake>,
    /// Why the side failed, if it did.
    pub loss: Option<TurnLoss>,
}

impl TurnReport {
    /// A report of this failure, if any, and of no retake.
    pub fn only_loss(loss: Option<TurnLoss>) -> Self
        ensures { result ≡ only_loss loss }
    {
        TurnReport { retake: None, loss }
    }
}

/// A turn of a side.
#[derive(Drop)]
pub struct SideTurn {
    /// Whose turn it was.
    pub side: Side,
    /// What to report about it.
    pub report: TurnReport,
    /// How the side's process ended, if the side is down after the turn.
    pub ending: Ending,
}
