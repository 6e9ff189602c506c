//! Which komis every engine has to accept.
ghost use Rattle.std.specs.Prelude.{◌≡◌};
ghost use Rattle.gtp_check_judge.specs.Komis.{is_exact_komi};

use go_base::Komi;

/// Up to this many half points either way, 2 to the 24, each number is exact as a float of 32 bits.
const MOST_EXACT: u32 = 16_777_216;

/// Returns whether every engine has to accept this komi: it is at most 16,777,216 half points either way, and so exact
/// as a float of 32 bits.
pub(crate) fn is_exact_komi(komi: Komi) -> bool
    ensures { result ≡ is_exact_komi komi }
{
    komi.half_points().unsigned_abs() <= MOST_EXACT
}
