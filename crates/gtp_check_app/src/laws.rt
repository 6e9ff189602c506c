//! Laws of the check. Each is the contract of a function that does nothing.
ghost use Rattle.gtp_check_app.specs.Laws.{APassIsEarned};
ghost use Rattle.gtp_check_app.specs.RunLaws.{EachComplaintIsJust, SilentChecksAreRight, StatusesSay};
ghost use Rattle.gtp_check_app.specs.Sequence.{known_of};

use byte_streams::WriteOnce;
use gtp_check_talk::laws::{
    complaints_are_justified, ko_rules_stay, losses_are_no_wrong_answers,
    moves_are_noted_once_answered, silent_conversations_are_right,
};
use gtp_process::Process;

/// The status of a check that is over is 1 exactly if something was found. It is 0 exactly if nothing was found, each
/// lesson was completed, and each is noted. A lesson is noted exactly if a `play` or a `genmove` was answered correctly
/// in it.
pub fn a_pass_is_earned<P: Process>()
    ensures { APassIsEarned P.Process }
{
    moves_are_noted_once_answered::<P>();
}

/// As long as nothing is found, nothing that is judged was wrong in any turn. At each point of a check, each reply of
/// its engine that was heard is a correct one.
pub fn silent_checks_are_right<P: Process, O: WriteOnce, E: WriteOnce>()
    ensures { SilentChecksAreRight (known_of P.Process O.WriteOnce E.WriteOnce) }
{
    complaints_are_justified::<P>();
    ko_rules_stay::<P>();
    losses_are_no_wrong_answers::<P>();
    silent_conversations_are_right::<P>();
}

/// Each complaint is about a conversation that ended with a wrong reply, or in which the engine was lost.
pub fn each_complaint_is_just<P: Process, O: WriteOnce, E: WriteOnce>()
    ensures { EachComplaintIsJust (known_of P.Process O.WriteOnce E.WriteOnce) }
{
    complaints_are_justified::<P>();
    ko_rules_stay::<P>();
    losses_are_no_wrong_answers::<P>();
    silent_conversations_are_right::<P>();
}

/// A run with status 1 wrote a complaint. One with status 0 passed the engine, or was only asked for a text. In one
/// with status 4 nothing that is judged was wrong, and the engine hasn't passed. To pass, an engine has to be asked
/// each lesson to its end, and to answer a `play` or a `genmove` of each correctly.
pub fn statuses_say<P: Process, O: WriteOnce, E: WriteOnce>()
    ensures { StatusesSay (known_of P.Process O.WriteOnce E.WriteOnce) }
{
    a_pass_is_earned::<P>();
    complaints_are_justified::<P>();
    ko_rules_stay::<P>();
    losses_are_no_wrong_answers::<P>();
    silent_conversations_are_right::<P>();
}
