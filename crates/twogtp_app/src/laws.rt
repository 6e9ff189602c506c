//! Laws of the program: theorems about its definitions. Each is the contract of a function that does nothing.
ghost use Rattle.twogtp_app.specs.Losses.{LossesHaveLines};

use gtp_process::Process;

/// With `--why` a turn has at most two lines, both about the side whose turn it was. It has the line of a retake
/// exactly if the match counts one more retake, and that line comes first: the side refused the last move, which the
/// other side made. It has the line of a failure exactly if a side fails in it: a program can't be started, or a side
/// goes down, forfeits or is unfit. No other turn has a line.
pub fn losses_have_lines<P: Process>()
    ensures { LossesHaveLines P.Process }
{}
