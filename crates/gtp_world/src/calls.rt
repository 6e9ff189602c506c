//! The calls of a sans-IO engine, with contracts that say what they do to a world. Each function only makes its call.
ghost use Rattle.std.specs.Prelude.{[], OnOk, OnErr, IfErr};
ghost use Rattle.gtp_session.specs.OwnCommands.{RefusesName};
ghost use Rattle.gtp_session.specs.Steps.{RefusesChoice, RefusesAnswer, declined_text};
ghost use Rattle.gtp_session.specs.Steps.{IsTitle, SetsName, SetsVersion, AddsCommand};
ghost use Rattle.gtp_world.specs.Kinds.{Call, Calls, Feeds};

use gtp_session::policy::Choice;
use gtp_session::steps::{AnswerFault, ChoiceFault, CommandFault, NoTitle, Steps, StepsFed};

/// Feeds the engine these bytes. Returns what came of it.
pub fn feed(steps: &mut Steps, input: &[u8]) -> StepsFed
    ensures { Feeds steps.old input.now result steps.new }
{
    steps.feed(input)
}

/// Supplies a choice. Its reply is then ready.
///
/// # Errors
///
/// Those of `Steps::choose`. The engine stays as it was, and no reply is written.
pub fn choose(steps: &mut Steps, choice: Choice) -> Result<(), ChoiceFault>
    ensures made { OnOk result (Calls steps.old (Call.choose choice) steps.new steps.new.reply) }
    ensures refused { OnErr result (Calls steps.old (Call.choose choice) steps.new []) }
    ensures why { IfErr result (RefusesChoice steps.old choice) }
{
    steps.choose(choice)
}

/// Supplies an answer. Its reply is then ready.
///
/// # Errors
///
/// Those of `Steps::answer`. The engine stays as it was, and no reply is written.
pub fn answer(steps: &mut Steps, ok: bool, text: &[u8]) -> Result<(), AnswerFault>
    ensures made { OnOk result
        (Calls steps.old (Call.answer ok text.now) steps.new steps.new.reply) }
    ensures refused { OnErr result (Calls steps.old (Call.answer ok text.now) steps.new []) }
    ensures why { IfErr result (RefusesAnswer steps.old text.now) }
{
    steps.answer(ok, text)
}

/// Declines a line. The reply is then ready.
///
/// # Errors
///
/// Those of `Steps::decline`. The engine stays as it was, and no reply is written.
pub fn decline(steps: &mut Steps) -> Result<(), AnswerFault>
    ensures made { OnOk result (Calls steps.old Call.decline steps.new steps.new.reply) }
    ensures refused { OnErr result (Calls steps.old Call.decline steps.new []) }
    ensures why { IfErr result (RefusesAnswer steps.old declined_text) }
{
    steps.decline()
}

/// Sets the engine's name. No reply is written.
///
/// # Errors
///
/// Those of `Steps::set_name`. The engine stays as it was.
pub fn set_name(steps: &mut Steps, text: &[u8]) -> Result<(), NoTitle>
    ensures comes { Calls steps.old (Call.set_name text.now) steps.new [] }
    ensures set { OnOk result (SetsName steps.old text.now steps.new) }
    ensures refused { OnErr result (¬ IsTitle text.now) }
{
    steps.set_name(text)
}

/// Sets the engine's version. No reply is written.
///
/// # Errors
///
/// Those of `Steps::set_version`. The engine stays as it was.
pub fn set_version(steps: &mut Steps, text: &[u8]) -> Result<(), NoTitle>
    ensures comes { Calls steps.old (Call.set_version text.now) steps.new [] }
    ensures set { OnOk result (SetsVersion steps.old text.now steps.new) }
    ensures refused { OnErr result (¬ IsTitle text.now) }
{
    steps.set_version(text)
}

/// Adds a custom command. No reply is written.
///
/// # Errors
///
/// Those of `Steps::add_command`. The engine stays as it was.
pub fn add_command(steps: &mut Steps, name: &[u8]) -> Result<(), CommandFault>
    ensures comes { Calls steps.old (Call.add_command name.now) steps.new [] }
    ensures added { OnOk result (AddsCommand steps.old name.now steps.new) }
    ensures refused { IfErr result (RefusesName steps.old.commands name.now) }
{
    steps.add_command(name)
}
