//! Laws of the course. Each is the contract of a function that does nothing.
ghost use Rattle.gtp_check_course.specs.KoRules.{EachKoRuleAgrees};
ghost use Rattle.gtp_check_course.specs.Laws.{EveryCourseIsBounded, EachKoIsAnswered, NothingUnaskedIsAsked};
ghost use Rattle.gtp_check_course.specs.Laws.{EachLessonBeginsAnew, EachRuleIsAskedInBoth};
ghost use Rattle.gtp_check_course.specs.Posing.{EachQuestionIsAsked};

/// Whatever is answered, and whenever a part is left: the commands that are asked, the steps that are passed over and
/// the engines that are ended are together at most 67,200,000 for each lesson and once more, plus five after each
/// start.
pub fn every_course_is_bounded()
    ensures { EveryCourseIsBounded }
{}

/// What a step asks is asked whenever it may be asked and isn't left out: a probe as a `play`, and if that is legal an
/// `undo` comes next. A step is passed over only if that isn't so, or if it asks nothing. Then the next step comes.
pub fn each_question_is_asked()
    ensures { EachQuestionIsAsked }
{}

/// What isn't asked is left out throughout: `final_score`, and each `play` that the examiner's game refuses as suicide, or
/// for ko, however its colour is written.
pub fn nothing_unasked_is_asked()
    ensures { NothingUnaskedIsAsked }
{}

/// If ko isn't asked, and the examiner's game is one of positional superko, simple ko, situational superko and positional
/// superko agree on each `play` that is asked. What a `genmove` may choose by one of them is legal in that game, or one
/// that ko refuses.
pub fn each_ko_rule_agrees()
    ensures { EachKoRuleAgrees }
{}

/// Each lesson but `start` begins with a start of the engine, where it comes after another one.
pub fn each_lesson_begins_anew()
    ensures { EachLessonBeginsAnew }
{}

/// Each scene of the lessons `ko`, `captures`, `suicide` and `joining` is asked in a game without a handicap, and in
/// one that begins with two handicap stones, on a board that allows them. Right after that come the moves of the scene,
/// and then a play of each colour on the point of each of them.
pub fn each_rule_is_asked_in_both()
    ensures { EachRuleIsAskedInBoth }
{}

/// Each part of the lesson `ko` has a ko: the last move of its scene, the act, takes one stone by a stone alone that
/// has no other liberty then. The board is cleared, the moves of the scene are asked, and the act is undone. Then its
/// colour fills the board except for the act's point, two gaps and the far corner, and acts. Right after that the
/// engine is asked for a move of the other colour. That is undone, the points of the scene's moves are probed, where
/// the retake is, and the engine is asked for the move again.
pub fn each_ko_is_answered()
    ensures { EachKoIsAnswered }
{}
