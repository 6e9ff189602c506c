//! The status of a check that is over.
ghost use Rattle.std.specs.Prelude.{◌≡◌};
ghost use Rattle.std.specs.List.{list_all};
ghost use Rattle.gtp_check_talk.specs.Among.{is_among};
ghost use Rattle.gtp_check_app.specs.Status.{is_earned, status_of};

use gtp_check_course::Lesson;
use gtp_check_talk::is_among;

/// Returns the status of a check with this many complaints: 1 if there are any, else 0 if the engine has passed, and 4
/// if it hasn't.
pub fn status_of(complaints: u32, is_earned: bool) -> u8
    ensures { result ≡ status_of complaints is_earned }
{
    if complaints > 0 {
        1
    } else if is_earned {
        0
    } else {
        4
    }
}

/// Returns whether an engine has passed: none of these lessons was missed, and each had a move that was answered
/// correctly.
pub fn is_earned(lessons: &[Lesson], missed: &[Lesson], answered: &[Lesson]) -> bool
    ensures { result ≡ is_earned lessons.now missed.now answered.now }
{
    missed.is_empty() && are_among(lessons, answered)
}

/// Returns whether each of these lessons is among those.
fn are_among(lessons: &[Lesson], those: &[Lesson]) -> bool
    ensures { result ≡ list_all (is_among those.now) lessons.now }
{
    lessons.iter().all(|lesson| is_among(those, *lesson))
}
