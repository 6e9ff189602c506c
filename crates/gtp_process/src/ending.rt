//! How to end a process, and how it ended.
ghost use Rattle.std.specs.Prelude.{◌≡◌};
ghost use Rattle.gtp_process.specs.Endings.{EndsAs, IsEnded, after_kill, reported_ending};

use crate::starter::{Ending, Process};

/// The number of the signal that kills a process: the same on Linux, the BSDs and macOS.
const SIGKILL: u32 = 9;

/// Ends a process, if there is one, and returns how it ended. Without a process this is `Unknown`.
pub fn end_known<P: Process>(process: Option<P>) -> Ending
    ensures { EndsAs P.Process process result }
{
    match process {
        Some(process) => process.end(),
        None => Ending::Unknown,
    }
}

/// Ends a process, if there is one.
pub fn end<P: Process>(process: Option<P>)
    ensures { IsEnded P.Process process }
{
    let _ = end_known(process);
}

/// Returns how a process ended, by its exit status and the number of the signal that ended it.
pub(crate) fn reported_ending(status: Option<i32>, signal: Option<i32>) -> Ending
    ensures { result ≡ reported_ending status signal }
{
    match (status, signal) {
        (Some(number), _) => Ending::Status(number.unsigned_abs()),
        (None, Some(number)) => Ending::Signal(number.unsigned_abs()),
        (None, None) => Ending::Unknown,
    }
}

/// Returns how a process ended that was still running when it was killed, by what the system reports then. It may have
/// exited by itself just before.
pub(crate) fn after_kill(reported: Ending) -> Ending
    ensures { result ≡ after_kill reported }
{
    match reported {
        Ending::Signal(SIGKILL) => Ending::Running,
        reported => reported,
    }
}
