//! What is right if the game isn't known, or if the engine was lost.
ghost use Rattle.std.specs.Prelude.{◌≡◌};
ghost use Rattle.gtp_check_texts.specs.reasons.Rules.{lost_rule, refused_rule, rule_text};

use super::sentences::{command_sentence, kind_sentence, other_sentence};
use gtp_check_judge::{CheckCommand, Kind};
use gtp_check_talk::Fault;
use gtp_process::Ending;

/// The status with which a program with a timeout ends a late engine; `timeout` has the same.
const LATE: u32 = 124;

/// Returns what a correct engine answers to the command in any game, and the rule that says so.
pub fn rule_text(fault: Fault, ending: Ending, command: Option<CheckCommand>) -> &'static [u8]
    ensures { result.now ≡ rule_text fault ending command }
{
    match fault {
        Fault::CutOff(_) => lost_rule(ending),
        Fault::Wrote(Kind::Refused) => refused_rule(command),
        Fault::Wrote(kind) => kind_sentence(kind),
    }
}

/// Returns the rule for an engine that was lost and whose process ended so.
fn lost_rule(ending: Ending) -> &'static [u8]
    ensures { result.now ≡ lost_rule ending }
{
    match ending {
        Ending::Status(LATE) | Ending::Late(_) => {
            b"an engine answers in time: does it flush each answer, and end it with an empty line?"
        }
        _ => b"an engine answers each command, and reads on until quit",
    }
}

/// Returns why a correct engine accepts a command.
fn refused_rule(command: Option<CheckCommand>) -> &'static [u8]
    ensures { result.now ≡ refused_rule command }
{
    match command {
        Some(CheckCommand::Match(command)) => command_sentence(&command),
        Some(command) => other_sentence(&command),
        None => b"the command succeeds",
    }
}
