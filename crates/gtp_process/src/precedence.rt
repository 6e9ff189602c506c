//! Which runs first: a process, or the program that reads what it writes.
ghost use Rattle.std.specs.Prelude.{◌≡◌};

use std::thread::yield_now;
use std::time::{Clock, Duration, Instant};

/// How many milliseconds the processor may be away if the process is to go first again.
const MOST_MILLISECONDS: u64 = 1;

/// Whether a process goes first: if it has several commands to answer, it runs before it is read.
///
/// When both share a processor, the process has mostly answered them all by the time it is read, and the system needn't
/// wake the reading program for each answer. The bytes are the same, though maybe in other chunks.
#[derive(Clone, Copy, Debug, PartialEq, Eq, Drop)]
pub enum Precedence {
    /// It was just started. It doesn't go first at its first read, because its startup time would count.
    Starting,
    /// It goes first.
    First,
    /// It no longer goes first, because the processor came back too late: the process is thinking, or others want the
    /// processor too.
    Over,
}

impl Precedence {
    /// Lets the process run first, if it goes first, and returns its precedence at the next read.
    pub fn let_run_first<C: Clock>(self, clock: &C) -> Precedence
        ensures starting { self ≡ Precedence.Starting → result ≡ Precedence.First }
        ensures over { self ≡ Precedence.Over → result ≡ Precedence.Over }
    {
        match self {
            Precedence::Starting => Precedence::First,
            Precedence::First if is_back_soon(clock) => Precedence::First,
            Precedence::First | Precedence::Over => Precedence::Over,
        }
    }
}

/// Yields the processor, and returns whether it came back soon. If the clock can't be read, it returns `false`.
fn is_back_soon<C: Clock>(clock: &C) -> bool {
    let Ok(start) = Instant::now(clock) else {
        return false;
    };
    yield_now();
    match start.elapsed(clock) {
        Ok(time) => time <= Duration::from_millis(MOST_MILLISECONDS),
        Err(_) => false,
    }
}
