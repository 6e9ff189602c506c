//! How long an answer was waited for.
ghost use Rattle.std.specs.Prelude.{◌≡◌, ◌&&◌, is_none, nat_le};
ghost use Rattle.gtp_process.specs.Waiting.{after_newline, begun, is_ended_by, late_after, late_in, limit_in};
ghost use Rattle.gtp_process.specs.Waiting.{place_after, with_byte, with_bytes, with_step};

/// How many polls that time out make a second.
const STEPS_A_SECOND: u64 = 5;

/// After how many such polls a wait without a limit is long: a minute.
const LONG_STEPS: u32 = 300;

/// The most seconds that an engine may take for an answer; without a number it may take any time.
#[derive(Clone, Copy, Debug, PartialEq, Eq, Drop)]
pub struct Limits {
    /// For the first answer after a start.
    pub first: Option<u32>,
    /// For each later answer.
    pub later: Option<u32>,
}

/// Where an engine's output is.
#[derive(Clone, Copy, Debug, PartialEq, Eq, Drop)]
pub enum Place {
    /// Before an answer: after the last one there were at most empty lines.
    Before,
    /// In a line of an answer.
    InLine,
    /// After a line of an answer.
    AfterLine,
}

impl Place {
    /// Returns where the output is after one more byte. An answer ends with an empty line; carriage returns don't count.
    fn after(self, byte: u8) -> Place
        ensures { result ≡ place_after self byte }
    {
        match byte {
            b'\r' => self,
            b'\n' => self.after_newline(),
            _ => Place::InLine,
        }
    }

    /// Returns where it is after a newline.
    fn after_newline(self) -> Place
        ensures { result ≡ after_newline self }
    {
        match self {
            Place::InLine => Place::AfterLine,
            Place::Before | Place::AfterLine => Place::Before,
        }
    }

    /// Returns whether this byte ends an answer.
    fn is_ended_by(self, byte: u8) -> bool
        ensures { result ≡ is_ended_by self byte }
    {
        match self {
            Place::AfterLine => byte == b'\n',
            Place::Before | Place::InLine => false,
        }
    }
}

/// How long an engine was waited for since its last answer ended, or since it was started.
#[derive(Clone, Copy, Debug, PartialEq, Eq, Drop)]
pub struct Patience {
    /// The limits.
    pub limits: Limits,
    /// How many polls timed out.
    pub steps: u32,
    /// Where its output is.
    pub place: Place,
    /// Whether it has answered.
    pub has_answered: bool,
}

impl Patience {
    /// Returns the patience with an engine that was just started.
    pub fn new(limits: Limits) -> Patience
        ensures { result ≡ begun limits }
    {
        Patience {
            limits,
            steps: 0,
            place: Place::Before,
            has_answered: false,
        }
    }

    /// Takes a poll that timed out.
    pub fn wait(&mut self)
        ensures { self.new ≡ with_step self.old }
    {
        self.steps = self.steps.saturating_add(1);
    }

    /// Takes output of the engine.
    pub fn hear(&mut self, bytes: &[u8])
        ensures { self.new ≡ with_bytes self.old bytes.now }
    {
        for byte in bytes {
            self.hear_byte(*byte);
        }
    }

    /// Takes a byte of its output.
    fn hear_byte(&mut self, byte: u8)
        ensures { self.new ≡ with_byte self.old byte }
    {
        if self.place.is_ended_by(byte) {
            self.steps = 0;
            self.has_answered = true;
        }
        self.place = self.place.after(byte);
    }

    /// Returns the limit for the answer that is waited for, in seconds, if it has one.
    fn limit(&self) -> Option<u32>
        ensures { result ≡ limit_in self.now }
    {
        if self.has_answered {
            self.limits.later
        } else {
            self.limits.first
        }
    }

    /// Returns the limit, in seconds, if the answer is late.
    pub fn late(&self) -> Option<u32>
        ensures { result ≡ late_in self.now }
    {
        late_after(self.limit(), self.steps)
    }

    /// Returns whether the wait has no limit, and has been long: for a minute.
    pub fn is_long(&self) -> bool
        ensures { result ≡ (is_none (limit_in self.now) && nat_le 300 self.now.steps) }
    {
        self.limit().is_none() && self.steps >= LONG_STEPS
    }
}

/// Returns the limit, in seconds, if an answer is late after this many polls that timed out.
fn late_after(limit: Option<u32>, steps: u32) -> Option<u32>
    ensures { result ≡ late_after limit steps }
{
    match limit {
        Some(seconds) if STEPS_A_SECOND * seconds as u64 <= steps as u64 => Some(seconds),
        _ => None,
    }
}
