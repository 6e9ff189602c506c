//! How much a reduction may try.
ghost use Rattle.std.specs.Prelude.{◌≡◌};
ghost use Rattle.gtp_check_shortening.specs.Reduction.{allow, spent};

/// How many trials may be made, and how many commands they may ask together.
#[derive(Clone, Copy, Debug, PartialEq, Eq)]
pub struct Limits {
    /// The most trials.
    pub trials: u32,
    /// The most commands in all trials together.
    pub commands: usize,
}

impl Limits {
    /// Returns whether they allow a trial of this many commands.
    pub(crate) fn allow(&self, count: usize) -> bool
        ensures { result ≡ allow count self.now }
    {
        0 < self.trials && count <= self.commands
    }

    /// Returns what is left of them after a trial in which this many commands were asked.
    pub(crate) fn after(self, asked: usize) -> Limits
        ensures { result ≡ spent asked self }
    {
        Limits {
            trials: self.trials.saturating_sub(1),
            commands: self.commands.saturating_sub(asked),
        }
    }
}
