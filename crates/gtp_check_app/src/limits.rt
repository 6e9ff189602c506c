//! From the options to the limits of answers.
ghost use Rattle.std.specs.Prelude.{◌≡◌};
ghost use Rattle.gtp_check_app.specs.Plans.{first_limit, limit_of, limits_of};

use crate::options::Options;
use gtp_process::Limits;

/// Returns the limits that the options ask for. That of first answers is by default that of all.
pub fn limits_of(options: &Options<'_>) -> Limits
    ensures { result ≡ limits_of options.now }
{
    Limits {
        first: first_limit(options.start_timeout, options.timeout),
        later: limit_of(options.timeout),
    }
}

/// Returns the limit of the first answer after a start: its own, if it is given, else that of all.
fn first_limit(start: u32, all: u32) -> Option<u32>
    ensures { result ≡ first_limit start all }
{
    if start == 0 {
        limit_of(all)
    } else {
        Some(start)
    }
}

/// Returns the limit of this many seconds, if they are given.
fn limit_of(seconds: u32) -> Option<u32>
    ensures { result ≡ limit_of seconds }
{
    if seconds == 0 { None } else { Some(seconds) }
}
