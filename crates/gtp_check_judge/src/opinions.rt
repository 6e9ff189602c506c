//! An engine's opinion of an empty board, by its scores.
ghost use Rattle.std.specs.Prelude.{◌≡◌};
ghost use Rattle.gtp_check_judge.specs.Komis.{is_near_komi};
ghost use Rattle.gtp_check_judge.specs.Opinions.{view_of, distance, is_same, differ_as_komis, agrees, opinion_with};
ghost use Rattle.gtp_check_judge.specs.Scores.{IsInReach};

use crate::scores::SaidScore;
use go_base::{Komi, Size};

/// The greatest komi at which scores are compared, in half points either way: a thousand points.
const MOST_NEAR: u32 = 2_000;

/// How many millionths of a point two scores may differ, however many digits they have, since engines may compute in
/// floats of 32 bits. (The standard's topic float.)
const LEAST_ALLOWED: u64 = 10_000;

/// A score that an engine gave for an empty board, without komi.
#[derive(Clone, Copy, Debug, PartialEq, Eq)]
pub struct View {
    /// The size of the board.
    pub size: Size,
    /// The komi with which it was given.
    pub komi: Komi,
    /// How many millionths of a point Black leads by on the board alone: the score plus komi.
    pub lead: i64,
    /// One unit of the last digit that was written, in millionths of a point.
    pub unit: u64,
}

/// An engine's opinion of an empty board.
#[derive(Clone, Copy, Debug, PartialEq, Eq)]
pub enum Opinion {
    /// None: it gave no score that is compared.
    Unheard,
    /// The score that it gave last, and not twice in a row.
    Once(View),
    /// The score that it gave twice in a row last, and not three times.
    Twice(View),
    /// The score that it gave three times in a row. Scores of this size are compared with it.
    Thrice(View),
}

/// Returns what a score says of a board of this size with this komi, without komi, if it is compared at all.
pub(crate) fn view_of(size: Size, komi: Komi, said: SaidScore) -> Option<View>
    requires { IsInReach said }
    ensures { result ≡ view_of size komi said }
{
    match said {
        SaidScore::Long => None,
        SaidScore::Number(score) => {
            if !is_near_komi(komi) {
                return None;
            }
            Some(View {
                size,
                komi,
                lead: score.millionths + 500_000 * i64::from(komi.half_points()),
                unit: score.unit,
            })
        }
    }
}

/// Returns whether scores are compared at this komi: at most a thousand points either way.
fn is_near_komi(komi: Komi) -> bool
    ensures { result ≡ is_near_komi komi }
{
    komi.half_points().unsigned_abs() <= MOST_NEAR
}

/// Returns whether two scores are the same number, at one size and komi.
fn is_same(old: &View, new: &View) -> bool
    ensures { result ≡ is_same old.now new.now }
{
    old.size.get() == new.size.get()
        && old.komi.half_points().abs_diff(new.komi.half_points()) == 0
        && old.lead.abs_diff(new.lead) == 0
}

/// Returns whether two scores differ as their komis do, within one unit of the last digit that is written or a
/// hundredth of a point.
fn differ_as_komis(old: &View, new: &View) -> bool
    ensures { result ≡ differ_as_komis old.now new.now }
{
    old.lead.abs_diff(new.lead) <= old.unit.max(new.unit).max(LEAST_ALLOWED)
}

/// Returns whether a score is correct by the opinion so far.
pub(crate) fn agrees(opinion: &Opinion, new: &View) -> bool
    ensures { result ≡ agrees opinion.now new.now }
{
    match opinion {
        Opinion::Unheard | Opinion::Once(_) | Opinion::Twice(_) => true,
        Opinion::Thrice(old) => old.size.get() != new.size.get() || differ_as_komis(old, new),
    }
}

/// Returns the opinion after a correct score.
pub(crate) fn opinion_with(opinion: &Opinion, new: &View) -> Opinion
    ensures { result ≡ opinion_with opinion.now new.now }
{
    match opinion {
        Opinion::Once(old) if is_same(old, new) => Opinion::Twice(*old),
        Opinion::Twice(old) if is_same(old, new) => Opinion::Thrice(*old),
        Opinion::Thrice(old) if old.size.get() == new.size.get() => Opinion::Thrice(*old),
        Opinion::Unheard | Opinion::Once(_) | Opinion::Twice(_) | Opinion::Thrice(_) => {
            Opinion::Once(*new)
        }
    }
}
