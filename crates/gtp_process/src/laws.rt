//! Laws of waiting. Each is the contract of a function that does nothing.
ghost use Rattle.gtp_process.specs.Laws.{OnlyTheLateAreLate};

/// An engine is late only if polls that timed out add up to its limit, and no answer ended since the first of them.
pub fn only_the_late_are_late()
    ensures { OnlyTheLateAreLate }
{}
