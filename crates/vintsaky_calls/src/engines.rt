//! The calls of a sans-IO engine.
ghost use Rattle.std.specs.Prelude.{◌≡◌, IfOk, IfErr};
ghost use Rattle.vintsaky_calls.specs.declared.causes.Cause.TheVariants as cause;
ghost use Rattle.vintsaky_calls.specs.Codes.{choice_cause, answer_cause, command_cause};
ghost use Rattle.vintsaky_calls.specs.Engines.{event_code, wait_code, IsChoiceOf, NoChoice, BeginCall, FeedCall};
ghost use Rattle.vintsaky_calls.specs.Engines.{ChooseCall, AnswerCall, DeclineCall, SetNameCall, SetVersionCall};
ghost use Rattle.vintsaky_calls.specs.Engines.{AddCommandCall, WordCall, IdCall};
ghost use Rattle.vintsaky_calls.specs.Texts.{Writes};

use crate::causes::{Cause, cause_of_play};
use crate::codes::{number_of_colour, rule_of, vertex_of};
use crate::texts::put;
use go_base::Choice;
use go_board::Game;
use gtp_session::steps::{AnswerFault, ChoiceFault, CommandFault, Event, Steps, Wait};

/// The number of a resignation, which no vertex has.
const RESIGN: u32 = 65535;

/// Implements `vintsaky_engine_begin`.
pub fn begin(engine: &mut Steps, rule: u32) -> Result<(), Cause>
    ensures { BeginCall rule engine.old engine.new result }
{
    *engine = Steps::new(rule_of(rule)?);
    Ok(())
}

/// Implements `vintsaky_engine_feed`.
pub fn feed(engine: &mut Steps, bytes: &[u8], used: &mut usize) -> u32
    ensures { FeedCall bytes.now engine.old engine.new used.new result }
{
    let fed = engine.feed(bytes);
    *used = fed.used;
    number_of_event(fed.event)
}

/// The number of what came of a chunk.
fn number_of_event(event: Event) -> u32
    ensures { result ≡ event_code event }
{
    match event {
        // all bytes were used: read more, which no other result asks for
        Event::More => 0,
        Event::Asked(colour) => number_of_colour(colour),
        // a command that isn't in the protocol's table: answer or decline it, then write the reply
        Event::Other => 3,
        // a line was answered, also a quit: write the reply
        Event::Reply => 4,
        // a quit was answered before: stop
        Event::Ended => 5,
    }
}

/// Implements `vintsaky_engine_wait`.
pub fn wait(engine: &Steps) -> u32
    ensures { result ≡ wait_code engine.now.wait }
{
    match engine.wait() {
        Wait::Nothing => 0,
        Wait::Choice(colour) => number_of_colour(colour),
        Wait::Answer => 3,
    }
}

/// Implements `vintsaky_engine_choose`.
pub fn choose(engine: &mut Steps, vertex: u32) -> Result<(), Cause>
    ensures { ChooseCall vertex engine.old engine.new result }
{
    match choice_of(vertex) {
        Ok(choice) => engine.choose(choice).map_err(cause_of_choice),
        Err(cause) => Err(cause),
    }
}

/// The choice of a number.
fn choice_of(number: u32) -> Result<Choice, Cause>
    ensures some { IfOk result (λ choice. IsChoiceOf number choice) }
    ensures none { IfErr result (λ why. (why ≡ cause.BadVertex) × NoChoice number) }
{
    if number == RESIGN {
        return Ok(Choice::Resign);
    }
    let vertex = vertex_of(number)?;
    Ok(Choice::Play(vertex))
}

/// The error of a choice that is rejected.
fn cause_of_choice(fault: ChoiceFault) -> Cause
    ensures { result ≡ choice_cause fault }
{
    match fault {
        ChoiceFault::NotAsked => Cause::NotAsked,
        ChoiceFault::Illegal(fault) => cause_of_play(fault),
    }
}

/// Implements `vintsaky_engine_answer`.
pub fn answer(engine: &mut Steps, ok: u32, text: &[u8]) -> Result<(), Cause>
    ensures { AnswerCall ok text.now engine.old engine.new result }
{
    engine.answer(ok != 0, text).map_err(cause_of_answer)
}

/// The error of an answer that is rejected.
fn cause_of_answer(fault: AnswerFault) -> Cause
    ensures { result ≡ answer_cause fault }
{
    match fault {
        AnswerFault::NotAsked => Cause::NotAsked,
        AnswerFault::BadText => Cause::BadText,
    }
}

/// Implements `vintsaky_engine_decline`.
pub fn decline(engine: &mut Steps) -> Result<(), Cause>
    ensures { DeclineCall engine.old engine.new result }
{
    engine.decline().map_err(cause_of_answer)
}

/// Implements `vintsaky_engine_set_name`.
pub fn set_name(engine: &mut Steps, text: &[u8]) -> Result<(), Cause>
    ensures { SetNameCall text.now engine.old engine.new result }
{
    match engine.set_name(text) {
        Ok(()) => Ok(()),
        Err(_no_title) => Err(Cause::BadText),
    }
}

/// Implements `vintsaky_engine_set_version`.
pub fn set_version(engine: &mut Steps, text: &[u8]) -> Result<(), Cause>
    ensures { SetVersionCall text.now engine.old engine.new result }
{
    match engine.set_version(text) {
        Ok(()) => Ok(()),
        Err(_no_title) => Err(Cause::BadText),
    }
}

/// Implements `vintsaky_engine_add_command`.
pub fn add_command(engine: &mut Steps, name: &[u8]) -> Result<(), Cause>
    ensures { AddCommandCall name.now engine.old engine.new result }
{
    engine.add_command(name).map_err(cause_of_command)
}

/// The error of a custom command that is rejected.
fn cause_of_command(fault: CommandFault) -> Cause
    ensures { result ≡ command_cause fault }
{
    match fault {
        CommandFault::BadLength => Cause::BadLength,
        CommandFault::BadByte => Cause::BadByte,
        CommandFault::OnlyDigits => Cause::OnlyDigits,
        CommandFault::InTable => Cause::InTable,
        CommandFault::AddedBefore => Cause::AddedBefore,
        CommandFault::TooMany => Cause::TooMany,
    }
}

/// Implements `vintsaky_engine_copy_game`.
pub fn copy_game(engine: &Steps, game: &mut Game)
    ensures { game.new ≡ engine.now.game }
{
    game.copy_from(engine.game());
}

/// Implements `vintsaky_engine_reply`.
pub fn reply(engine: &Steps, text: &mut [u8]) -> usize
    ensures { Writes engine.now.reply text.old text.new result }
{
    put(engine.reply(), text)
}

/// Implements `vintsaky_engine_word`.
pub fn word(engine: &Steps, number: usize, text: &mut [u8], count: &mut usize) -> Result<(), Cause>
    ensures { WordCall engine.now number text.old text.new count.old count.new result }
{
    let line = engine.line().ok_or(Cause::NotAsked)?;
    let word = line.word(number).ok_or(Cause::NoWord)?;
    *count = put(word, text);
    Ok(())
}

/// Implements `vintsaky_engine_id`.
pub fn id(engine: &Steps, id: &mut u32) -> Result<(), Cause>
    ensures { IdCall engine.now id.old id.new result }
{
    let line = engine.line().ok_or(Cause::NotAsked)?;
    *id = line.id().ok_or(Cause::NoId)?;
    Ok(())
}
