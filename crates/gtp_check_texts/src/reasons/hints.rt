//! What to try, if the engine isn't to be blamed.
ghost use Rattle.std.specs.Prelude.{◌≡◌};
ghost use Rattle.gtp_check_texts.specs.reasons.Hints.{known_hint, hint_line};

use go_board::PlayFault;
use gtp_check_judge::{Cause, CheckCommand, Kind};
use gtp_check_talk::Fault;
use gtp_wire::Command;

/// For engines that allow suicide.
const SUICIDE: &[u8] = b"# if its rules allow suicide: try --suicide unasked\n";

/// For engines whose scores are no count.
const SCORE: &[u8] = b"# if it estimates scores: try --score unasked\n";

/// Returns the line that says what to try, by what was wrong with the answer to a command: options for engines with
/// other rules, or what `known_command` has to say. Positional ko may explain a refusal.
pub fn hint_line(is_positional: bool, fault: Fault, command: Option<CheckCommand>) -> &'static [u8]
    ensures { result.now ≡ hint_line is_positional fault command }
{
    match (is_positional, fault) {
        (true, _) => {
            b"# under positional ko the refusal is right: try --ko positional, or --ko unasked\n"
        }
        (
            false,
            Fault::Wrote(
                Kind::Took(Cause::BadMove(PlayFault::Suicide)) | Kind::Unlawful(PlayFault::Suicide),
            ),
        ) => SUICIDE,
        (false, Fault::Wrote(Kind::NoScore | Kind::OtherScore)) => SCORE,
        (false, Fault::Wrote(Kind::Refused)) => known_hint(command),
        (false, _) => b"",
    }
}

/// Returns what an engine has to say that never can do what this command asks for, if it may say so.
fn known_hint(command: Option<CheckCommand>) -> &'static [u8]
    ensures { result.now ≡ known_hint command }
{
    match command {
        Some(CheckCommand::Match(Command::Undo)) => {
            b"# if it never can: it has to answer known_command undo with false\n"
        }
        Some(CheckCommand::Match(Command::FixedHandicap(_))) => {
            b"# if it never can: it has to answer known_command fixed_handicap with false\n"
        }
        Some(CheckCommand::FinalScore) => {
            b"# if it never can: it has to answer known_command final_score with false\n"
        }
        _ => b"",
    }
}
