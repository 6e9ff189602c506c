//! Whether a lesson is among others.
ghost use Rattle.std.specs.Prelude.{◌≡◌};
ghost use Rattle.gtp_check_talk.specs.Among.{is_among};

use gtp_check_course::Lesson;

/// Returns whether a lesson is among these.
pub fn is_among(lessons: &[Lesson], lesson: Lesson) -> bool
    ensures { result ≡ is_among lessons.now lesson }
{
    lessons.iter().any(|one| one.number() == lesson.number())
}
