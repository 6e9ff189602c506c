//! How a match ended, in numbers.
ghost use Rattle.std.specs.Prelude.{◌≡◌};
ghost use Rattle.vintsaky_calls.specs.Matches.{maybe_side_code, ending_code, ending_side, ending_score, ruling_code};

use crate::codes::number_of_colour;
use go_base::Side;
use gtp_match::referee::Ruling;
use gtp_match::{ForfeitCause, Verdict};

/// The number of a side, or 0.
pub(crate) fn number_of_side(side: Option<Side>) -> u32
    ensures { result ≡ maybe_side_code side }
{
    match side {
        None => 0,
        Some(side) => number_of_colour(side),
    }
}

/// The number of how a match ended.
pub(crate) fn number_of_ending(given: Verdict) -> u32
    ensures { result ≡ ending_code given }
{
    match given {
        // two passes ended the game
        Verdict::Score(_) => 1,
        // the side resigned
        Verdict::Resign(_) => 2,
        // the record has as many moves as the match allows
        Verdict::Limit => 3,
        // the side refused a play that isn't retaken, or that the other side didn't undo: it forfeits
        Verdict::Forfeit(_, ForfeitCause::RefusedPlay) => 4,
        // the side failed at a genmove: it forfeits
        Verdict::Forfeit(_, ForfeitCause::NoMove) => 5,
        // the side answered a genmove by what is neither a vertex nor a resignation: it forfeits
        Verdict::Forfeit(_, ForfeitCause::NoVertex) => 6,
        // the side answered a genmove by an illegal move: it forfeits
        Verdict::Forfeit(_, ForfeitCause::IllegalMove) => 7,
        // the side failed at a setup command, or placed other handicap stones: it is unfit
        Verdict::Unfit(_) => 8,
        // the side went down too often
        Verdict::Abandoned(_) => 9,
    }
}

/// The number of why a side loses by a ruling.
pub(crate) fn number_of_ruling(ruling: &Ruling) -> u32
    ensures { result ≡ ruling_code ruling.now }
{
    match ruling {
        // the side lost on time, by a ruling
        Ruling::Time => 10,
        // the side lost by a ruling with a reason
        Ruling::Reason(_) => 11,
    }
}

/// The number of the side that an ending concerns, or 0.
pub(crate) fn side_of_ending(given: Verdict) -> u32
    ensures { result ≡ ending_side given }
{
    match given {
        Verdict::Score(_) | Verdict::Limit => 0,
        Verdict::Resign(side) => number_of_colour(side),
        Verdict::Forfeit(side, _) => number_of_colour(side),
        Verdict::Unfit(side) => number_of_colour(side),
        Verdict::Abandoned(side) => number_of_colour(side),
    }
}

/// The score in half points, or 0.
pub(crate) fn score_of_ending(given: Verdict) -> i32
    ensures { result ≡ ending_score given }
{
    match given {
        Verdict::Score(half_points) => half_points,
        Verdict::Resign(_)
        | Verdict::Limit
        | Verdict::Forfeit(_, _)
        | Verdict::Unfit(_)
        | Verdict::Abandoned(_) => 0,
    }
}
