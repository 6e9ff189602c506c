//! The calls of a sans-IO engine.
ghost use Rattle.std.specs.Prelude.{◌≡◌};
ghost use Rattle.std.specs.Borrow.{full_share, sem};
ghost use Rattle.std.specs.Ptr.{lies_at, room_at};
ghost use base.Fml.{fsep};
ghost use Rattle.std.specs.Align.{type_align};
ghost use Rattle.std.specs.Mem.{type_size};
ghost use Rattle.gtp_session.specs.contracts.steps.Steps.{the_row as engine_row};
ghost use Rattle.vintsaky.specs.contracts.engine.EngineHandle.{the_row};
ghost use Rattle.vintsaky.specs.Fresh.{fresh_engine};
ghost use Rattle.vintsaky_calls.specs.Codes.{Returns};
ghost use Rattle.vintsaky_calls.specs.Engines.{wait_code, BeginCall, FeedCall, ChooseCall, AnswerCall, DeclineCall};
ghost use Rattle.vintsaky_calls.specs.Engines.{SetNameCall, SetVersionCall, AddCommandCall, WordCall, IdCall};
ghost use Rattle.vintsaky_calls.specs.Texts.{Writes};

use crate::engine::EngineHandle;
use crate::game::GameHandle;
use go_board::KoRule;
use gtp_session::steps::Steps;
use std::mem::{align_of, size_of};
use vintsaky_calls::{code_of, engines};

/// Initialises a sans-IO engine in the caller's memory, and its handle. It has simple ko, and has received nothing.
///
/// # Safety
///
/// The memory must have the size and the alignment that the calls for these return, and must be the object's alone.
/// Neither the memory nor the handle may move as long as the handle is used.
#[unsafe(no_mangle)]
pub unsafe extern "C" fn vintsaky_engine_place(out: *mut EngineHandle, at: *mut u8)
    requires* { sem 𝓛 (fsep (room_at the_row out) (room_at engine_row at)) }
    ensures* { sem 𝓛
        (lies_at the_row full_share out (record { at = at; value = fresh_engine })) }
{
    let fresh = fresh_engine();
    (at as *mut Steps).write(fresh);
    out.write(EngineHandle { at });
}

/// An engine under simple ko that has received nothing.
fn fresh_engine() -> Steps
    ensures { result ≡ fresh_engine }
{
    Steps::new(KoRule::Simple)
}

/// Returns the size of an engine in bytes.
#[unsafe(no_mangle)]
pub extern "C" fn vintsaky_engine_bytes() -> usize
    ensures { result ≡ type_size engine_row }
{
    size_of::<Steps>()
}

/// Returns the alignment of an engine in bytes.
#[unsafe(no_mangle)]
pub extern "C" fn vintsaky_engine_align() -> usize
    ensures { result ≡ type_align engine_row }
{
    align_of::<Steps>()
}

/// Returns whether the session has ended, by a `quit`.
#[unsafe(no_mangle)]
pub extern "C" fn vintsaky_engine_ended(engine: &mut EngineHandle) -> bool
    ensures ended { result ≡ engine.old.value.ended }
    ensures object { engine.new.value ≡ engine.old.value }
{
    engine.get_mut().ended()
}

/// Resets the engine, under a ko rule. It loses its name, its version and its custom commands.
///
/// Call it only before the engine's first byte. Later the engine would lose its game, and what it hasn't answered; no
/// call rejects that.
///
/// # Errors
///
/// `BadRule`. The engine is unchanged.
#[unsafe(no_mangle)]
pub extern "C" fn vintsaky_engine_begin(engine: &mut EngineHandle, rule: u32) -> u32
    ensures call { Returns result (BeginCall rule engine.old.value engine.new.value) }
{
    code_of(engines::begin(engine.get_mut(), rule))
}

/// Takes the next chunk, up to and including the newline of the first line that has a word, or all of it. Writes how
/// many bytes were used: feed the others next. Returns what came of the used bytes. While the engine waits for a choice
/// or an answer, and after the end, no byte is used, and the same result is returned again. A line whose words, joined
/// by single spaces, have more than 1,000 bytes is answered by a failure.
#[unsafe(no_mangle)]
pub extern "C" fn vintsaky_engine_feed(
    engine: &mut EngineHandle,
    bytes: &[u8],
    used: &mut usize,
) -> u32
    ensures call { FeedCall bytes.now engine.old.value engine.new.value used.new result }
{
    engines::feed(engine.get_mut(), bytes, used)
}

/// Returns what the engine waits for: 0 for nothing, VINTSAKY_BLACK or VINTSAKY_WHITE for the choice of a move,
/// VINTSAKY_OTHER for an answer.
#[unsafe(no_mangle)]
pub extern "C" fn vintsaky_engine_wait(engine: &mut EngineHandle) -> u32
    ensures call { result ≡ wait_code engine.old.value.wait }
    ensures object { engine.new.value ≡ engine.old.value }
{
    engines::wait(engine.get_mut())
}

/// Supplies the choice that the engine waits for: a move or a resignation.
///
/// # Errors
///
/// `BadVertex`, or else `NotAsked`, or else why the move is illegal: `OffBoard`, `Occupied`, `Suicide` or `Ko`. The
/// engine is unchanged, and still waits for a choice if it did before.
#[unsafe(no_mangle)]
pub extern "C" fn vintsaky_engine_choose(engine: &mut EngineHandle, vertex: u32) -> u32
    ensures call { Returns result (ChooseCall vertex engine.old.value engine.new.value) }
{
    code_of(engines::choose(engine.get_mut(), vertex))
}

/// Answers a command that isn't in the protocol's table: by a success if `ok` isn't 0, else by a failure.
///
/// # Errors
///
/// `NotAsked`, or else `BadText` if the text isn't allowed in a reply. The engine is unchanged.
#[unsafe(no_mangle)]
pub extern "C" fn vintsaky_engine_answer(engine: &mut EngineHandle, ok: u32, text: &[u8]) -> u32
    ensures call { Returns result (AnswerCall ok text.now engine.old.value engine.new.value) }
{
    code_of(engines::answer(engine.get_mut(), ok, text))
}

/// Answers a command that isn't in the protocol's table by a failure: `unknown command`.
///
/// # Errors
///
/// `NotAsked`. The engine is unchanged.
#[unsafe(no_mangle)]
pub extern "C" fn vintsaky_engine_decline(engine: &mut EngineHandle) -> u32
    ensures call { Returns result (DeclineCall engine.old.value engine.new.value) }
{
    code_of(engines::decline(engine.get_mut()))
}

/// Sets the text that answers `name` from now on.
///
/// # Errors
///
/// `BadText` if it has more than 200 bytes, or isn't allowed in a reply. The engine is unchanged.
#[unsafe(no_mangle)]
pub extern "C" fn vintsaky_engine_set_name(engine: &mut EngineHandle, text: &[u8]) -> u32
    ensures call { Returns result (SetNameCall text.now engine.old.value engine.new.value) }
{
    code_of(engines::set_name(engine.get_mut(), text))
}

/// Sets the text that answers `version` from now on.
///
/// # Errors
///
/// Those of [`vintsaky_engine_set_name`].
#[unsafe(no_mangle)]
pub extern "C" fn vintsaky_engine_set_version(engine: &mut EngineHandle, text: &[u8]) -> u32
    ensures call { Returns result (SetVersionCall text.now engine.old.value engine.new.value) }
{
    code_of(engines::set_version(engine.get_mut(), text))
}

/// Adds a custom command.
///
/// # Errors
///
/// `BadLength`, `BadByte`, `OnlyDigits`, `InTable`, `AddedBefore` or `TooMany`, the first of these that applies. The
/// engine is unchanged.
#[unsafe(no_mangle)]
pub extern "C" fn vintsaky_engine_add_command(engine: &mut EngineHandle, name: &[u8]) -> u32
    ensures call { Returns result (AddCommandCall name.now engine.old.value engine.new.value) }
{
    code_of(engines::add_command(engine.get_mut(), name))
}

/// Copies the engine's game into another one.
#[unsafe(no_mangle)]
pub extern "C" fn vintsaky_engine_copy_game(engine: &mut EngineHandle, game: &mut GameHandle)
    ensures call { game.new.value ≡ engine.old.value.game }
    ensures object { engine.new.value ≡ engine.old.value }
{
    engines::copy_game(engine.get_mut(), game.get_mut())
}

/// Writes the last reply, and returns its length: 0 before the first reply, and at most 2,048.
#[unsafe(no_mangle)]
pub extern "C" fn vintsaky_engine_reply(engine: &mut EngineHandle, text: &mut [u8]) -> usize
    ensures call { Writes engine.old.value.reply text.old text.new result }
    ensures object { engine.new.value ≡ engine.old.value }
{
    engines::reply(engine.get_mut(), text)
}

/// Writes a word of the command line for which the engine waits for a choice or an answer. Words are counted from 0
/// after the id. Also writes the length of the word: at most 1,000 bytes.
///
/// # Errors
///
/// `NotAsked` if nothing is waited for, or else `NoWord`. Nothing is written.
#[unsafe(no_mangle)]
pub extern "C" fn vintsaky_engine_word(
    engine: &mut EngineHandle,
    number: usize,
    text: &mut [u8],
    count: &mut usize,
) -> u32
    ensures call { Returns result (WordCall engine.old.value number text.old text.new
        count.old count.new) }
    ensures object { engine.new.value ≡ engine.old.value }
{
    code_of(engines::word(engine.get_mut(), number, text, count))
}

/// Writes the id of the command line for which the engine waits for a choice or an answer.
///
/// # Errors
///
/// `NotAsked` if nothing is waited for, or else `NoId`. Nothing is written.
#[unsafe(no_mangle)]
pub extern "C" fn vintsaky_engine_id(engine: &mut EngineHandle, id: &mut u32) -> u32
    ensures call { Returns result (IdCall engine.old.value id.old id.new) }
    ensures object { engine.new.value ≡ engine.old.value }
{
    code_of(engines::id(engine.get_mut(), id))
}
