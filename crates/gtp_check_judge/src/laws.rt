//! Laws of the examiner. Each is the contract of a function that does nothing.
ghost use Rattle.gtp_check_judge.specs.Laws.{SilenceSaysAllIsRight, FindingsAreJustified, AskedCommandsAreLines};
ghost use Rattle.gtp_check_judge.specs.Laws.{WhoAnswersRightlyIsNotBlamed, NoRightEngineIsBlamed};
ghost use Rattle.gtp_check_judge.specs.Check.{EveryCheckIsBounded};

use gtp_session::policy::Policy;

/// As long as nothing was found, each reply that was heard is a correct one: by the table of the engine's commands, or
/// as the refusal of something that may be refused. The engine that it is compared with is the one that the commands
/// and replies before it lead to. What is unanswered was asked of the engine after them.
pub fn silence_says_all_is_right()
    ensures { SilenceSaysAllIsRight }
{}

/// A finding is the first wrong reply of its engine: all before it were correct, and no correct engine, whatever it
/// chooses, gives this reply in the game that they lead to. It names the oldest unanswered command, and what was due to
/// that by the rules of the game. Its kind is true, also for a fault in the form of replies; a reply with another id is
/// named as just that.
pub fn findings_are_justified()
    ensures { FindingsAreJustified }
{}

/// A command that is asked is written as one line, with the next id and the command's words.
pub fn asked_commands_are_lines()
    ensures { AskedCommandsAreLines }
{}

/// An engine that wrote only correct replies isn't blamed, however its output is chunked, and however many replies they
/// are.
pub fn who_answers_rightly_is_not_blamed()
    ensures { WhoAnswersRightlyIsNotBlamed }
{}

/// An engine that read just the bytes that were asked is never blamed, under the examiner's ko rule, whatever its
/// policy chooses, however its output is chunked, and however much of it there is.
pub fn no_right_engine_is_blamed<P: Policy>()
    ensures { NoRightEngineIsBlamed P.may }
{}

/// Over every list of calls, whatever is heard: there are no more starts than were allowed, at most eight commands are
/// unanswered, and one engine is asked at most 2,147,483,647 of them.
pub fn every_check_is_bounded()
    ensures { EveryCheckIsBounded }
{}
