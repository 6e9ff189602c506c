//! Starters whose processes can have limits.
ghost use Rattle.std.specs.Prelude.{◌≡◌};

use crate::patience::Limits;
use crate::starter::Starter;

/// Starts processes that are waited for only so long, if it is told so.
pub trait LimitedStarter: Starter {
    /// Sets the limits of the processes that are started from now on. At first there are none.
    fn limit(&mut self, limits: Limits)
        ensures { Self.asked self.new ≡ Self.asked self.old };
}
