//! Laws of the conversation with an engine. Each is the contract of a function that does nothing.
ghost use Rattle.gtp_check_talk.specs.Laws.{ComplaintsAreJustified, KoRulesStay, LossesAreNoWrongAnswers};
ghost use Rattle.gtp_check_talk.specs.Laws.{MovesAreNotedOnceAnswered, SilenceSaysAllIsRight};

use gtp_check_judge::laws::{findings_are_justified, silence_says_all_is_right};
use gtp_process::Process;

/// What is found in the output of an engine is justified: all its replies before were correct, and no correct reply to
/// the command is what was heard.
pub fn complaints_are_justified<P: Process>()
    ensures { ComplaintsAreJustified P.Process }
{
    findings_are_justified();
}

/// As long as nothing is found, each reply of an engine that was heard is correct, and what was heard and is held is
/// all that it wrote.
pub fn silent_conversations_are_right<P: Process>()
    ensures { SilenceSaysAllIsRight P.Process }
{
    silence_says_all_is_right();
}

/// An engine that is lost owed a reply, and then its output ended or it was cut off. All that it answered before was
/// correct.
pub fn losses_are_no_wrong_answers<P: Process>()
    ensures { LossesAreNoWrongAnswers P.Process }
{
    silence_says_all_is_right();
}

/// Whatever is said with an engine, its ko rule stays.
pub fn ko_rules_stay<P: Process>()
    ensures { KoRulesStay P.Process }
{}

/// A lesson is noted exactly when a `play` or a `genmove` that was asked in it is answered correctly, and then it stays
/// noted.
pub fn moves_are_noted_once_answered<P: Process>()
    ensures { MovesAreNotedOnceAnswered P.Process }
{}
