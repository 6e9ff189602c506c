//! The calls that write lines: commands and replies.
ghost use Rattle.std.specs.Prelude.{◌≡◌, ◌≢◌, ◌≤◌, ℕ, pos, IfOk, IfErr, IfSome, IfNone};
ghost use Rattle.go_base.specs.Int.{most_int};
ghost use Rattle.go_base.specs.Size.{IsSize};
ghost use Rattle.gtp_wire.specs.Commands.{IsWritable};
ghost use Rattle.vintsaky_calls.specs.declared.causes.Cause.TheVariants as cause;
ghost use Rattle.vintsaky_calls.specs.Codes.{colour_code};
ghost use Rattle.vintsaky_calls.specs.Writing.{id_code, NoId, NoSize, NoSide, IsCommandOf, RefusesValues};
ghost use Rattle.vintsaky_calls.specs.Writing.{WriteCommandCall, WriteReplyCall};

use crate::causes::Cause;
use crate::codes::{colour_of, vertex_of};
use crate::texts::put;
use go_base::{Colour, Komi, Move, Size};
use gtp_wire::{Command, is_reply_text};

/// Implements `vintsaky_write_command`.
pub fn write_command(
    id: i32,
    command: u32,
    value: i32,
    vertex: u32,
    text: &mut [u8],
    count: &mut usize,
) -> Result<(), Cause>
    ensures { WriteCommandCall id command value vertex text.old text.new count.old count.new
        result }
{
    let id = id_of(id)?;
    match command_of(command, value, vertex) {
        Ok(command) => {
            *count = put(&gtp_wire::write_command(id, &command), text);
            Ok(())
        }
        Err(cause) => Err(cause),
    }
}

/// Implements `vintsaky_write_reply`.
pub fn write_reply(
    id: i32,
    ok: u32,
    said: &[u8],
    text: &mut [u8],
    count: &mut usize,
) -> Result<(), Cause>
    ensures { WriteReplyCall id ok said.now text.old text.new count.old count.new result }
{
    let id = id_of(id)?;
    if !is_reply_text(said) {
        return Err(Cause::BadText);
    }
    *count = put(&gtp_wire::write_reply(ok != 0, id, said), text);
    Ok(())
}

/// The id that a number represents, if any.
fn id_of(number: i32) -> Result<Option<u32>, Cause>
    ensures some { IfOk result (λ id. number ≡ id_code id) }
    ensures fits { IfOk result (λ id. IfSome id (λ n. n ≤ most_int)) }
    ensures none { IfErr result (λ why. (why ≡ cause.BadId) × NoId number) }
{
    if number == -1 {
        return Ok(None);
    }
    let id = natural_of(number).ok_or(Cause::BadId)?;
    Ok(Some(id))
}

/// A number that isn't negative.
fn natural_of(number: i32) -> Option<u32>
    ensures some { IfSome result (λ n. number ≡ pos n) }
    ensures fits { IfSome result (λ n. n ≤ most_int) }
    ensures none { IfNone result ((n : ℕ) → number ≢ pos n) }
{
    if number < 0 {
        None
    } else {
        Some(number as u32)
    }
}

/// The command of a number, a value and a vertex.
fn command_of(number: u32, value: i32, vertex: u32) -> Result<Command, Cause>
    ensures some { IfOk result (λ command. IsCommandOf number value vertex command) }
    ensures fits { IfOk result (λ command. IsWritable command) }
    ensures none { IfErr result (RefusesValues number value vertex) }
{
    match number {
        1 => Ok(Command::Boardsize(size_of(value)?)),
        2 => Ok(Command::Komi(Komi::from_half_points(value).ok_or(Cause::BadKomi)?)),
        3 => Ok(Command::ClearBoard),
        4 => Ok(Command::FixedHandicap(natural_of(value).ok_or(Cause::BadHandicap)?)),
        5 => {
            let colour = side_of(value)?;
            let vertex = vertex_of(vertex)?;
            Ok(Command::Play(Move { colour, vertex }))
        }
        6 => Ok(Command::Genmove(side_of(value)?)),
        7 => Ok(Command::Undo),
        8 => Ok(Command::Quit),
        _ => Err(Cause::BadCommand),
    }
}

/// The size of a value.
fn size_of(value: i32) -> Result<Size, Cause>
    ensures some { IfOk result (λ size. (value ≡ pos size) × IsSize size) }
    ensures none { IfErr result (λ why. (why ≡ cause.BadSize) × NoSize value) }
{
    let size = natural_of(value).ok_or(Cause::BadSize)?;
    Size::new(size).ok_or(Cause::BadSize)
}

/// The colour of a value.
fn side_of(value: i32) -> Result<Colour, Cause>
    ensures some { IfOk result (λ colour. value ≡ pos (colour_code colour)) }
    ensures none { IfErr result (λ why. (why ≡ cause.BadColour) × NoSide value) }
{
    let number = natural_of(value).ok_or(Cause::BadColour)?;
    colour_of(number)
}
