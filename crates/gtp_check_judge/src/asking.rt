//! The commands of a check.
ghost use Rattle.std.specs.Prelude.{◌≡◌, ◌≤◌, ◌∷◌, ◌++◌, [], length, codes};
ghost use Rattle.std.specs.List.{join_with_byte};
ghost use Rattle.go_base.specs.Bytes.{newline, space};
ghost use Rattle.go_base.specs.Int.{most_int, written_int};
ghost use Rattle.go_base.specs.Vertex.{written_vertex};
ghost use Rattle.gtp_check_judge.specs.Asking.{faulty_words, known_name, required_words, written_check};
ghost use Rattle.gtp_check_judge.specs.Asking.{IsCheckWritable, colour_in_full};

use arrayvec::ArrayVec;
use go_base::{Colour, Move, push, write_int};
use gtp_wire::{Command, CommandText, write_command};

/// A command that an engine may lack.
#[derive(Clone, Copy, Debug, PartialEq, Eq)]
pub enum Known {
    /// `fixed_handicap`.
    FixedHandicap,
    /// `undo`.
    Undo,
    /// `final_score`.
    FinalScore,
}

/// A command that each correct engine refuses.
#[derive(Clone, Copy, Debug, PartialEq, Eq)]
pub enum FaultyCommand {
    /// One that no engine has.
    Unknown,
    /// The same, with arguments.
    UnknownWithArguments,
    /// A `boardsize` whose argument is no number.
    Boardsize,
    /// A `komi` whose argument is no number.
    Komi,
    /// A `play` without a vertex.
    PlayNowhere,
    /// A `play` on a point that no board has.
    PlayOutside,
    /// A `genmove` whose argument is no colour.
    Genmove,
}

/// A command that each correct engine has, and that never fails.
#[derive(Clone, Copy, Debug, PartialEq, Eq)]
pub enum RequiredCommand {
    /// `protocol_version`.
    ProtocolVersion,
    /// `name`.
    Name,
    /// `version`.
    Version,
    /// `known_command`, with a command that no engine has.
    KnownCommand,
}

/// A command of a check.
#[derive(Clone, Copy, Debug, PartialEq, Eq)]
pub enum CheckCommand {
    /// A command of a match.
    Match(Command),
    /// `final_score`.
    FinalScore,
    /// `name`.
    Name,
    /// `version`.
    Version,
    /// `known_command` with this command.
    KnownCommand(Known),
    /// `list_commands`.
    ListCommands,
    /// A `play` whose colour is written in full, as `black` or `white`.
    PlayInFull(Move),
    /// A `genmove` whose colour is written in full.
    GenmoveInFull(Colour),
    /// A command that has to fail.
    Faulty(FaultyCommand),
    /// A command that may not fail.
    Required(RequiredCommand),
}

/// Returns the line of a command, with this id.
pub(crate) fn write_check(id: u32, command: &CheckCommand) -> CommandText
    requires id_fits { id ≤ most_int }
    requires handicap_fits { IsCheckWritable command.now }
    ensures { result.items ≡ written_check id command.now }
{
    match command {
        CheckCommand::Match(command) => write_command(Some(id), command),
        CheckCommand::FinalScore => write_line(id, b"final_score"),
        CheckCommand::Name => write_line(id, b"name"),
        CheckCommand::Version => write_line(id, b"version"),
        CheckCommand::KnownCommand(known) => write_line(id, known_text(*known)),
        CheckCommand::ListCommands => write_line(id, b"list_commands"),
        CheckCommand::PlayInFull(made) => write_line(id, &play_text(*made)),
        CheckCommand::GenmoveInFull(colour) => write_line(id, genmove_text(*colour)),
        CheckCommand::Faulty(faulty) => write_line(id, faulty_text(*faulty)),
        CheckCommand::Required(required) => write_line(id, required_text(*required)),
    }
}

/// The text that asks whether the engine knows a command.
fn known_text(known: Known) -> &'static [u8]
    ensures text { result.now
        ≡ join_with_byte space (codes "known_command" ∷ known_name known ∷ []) }
    ensures few { length result.now ≤ 40 }
{
    match known {
        Known::FixedHandicap => b"known_command fixed_handicap",
        Known::Undo => b"known_command undo",
        Known::FinalScore => b"known_command final_score",
    }
}

/// The text of a command that has to fail.
fn faulty_text(faulty: FaultyCommand) -> &'static [u8]
    ensures text { result.now ≡ join_with_byte space (faulty_words faulty) }
    ensures few { length result.now ≤ 40 }
{
    match faulty {
        FaultyCommand::Unknown => b"vintsaky-no-such-command",
        FaultyCommand::UnknownWithArguments => b"vintsaky-no-such-command b D4",
        FaultyCommand::Boardsize => b"boardsize x",
        FaultyCommand::Komi => b"komi x",
        FaultyCommand::PlayNowhere => b"play b",
        FaultyCommand::PlayOutside => b"play b Z99",
        FaultyCommand::Genmove => b"genmove x",
    }
}

/// The text of a command that may not fail.
fn required_text(required: RequiredCommand) -> &'static [u8]
    ensures text { result.now ≡ join_with_byte space (required_words required) }
    ensures few { length result.now ≤ 40 }
{
    match required {
        RequiredCommand::ProtocolVersion => b"protocol_version",
        RequiredCommand::Name => b"name",
        RequiredCommand::Version => b"version",
        RequiredCommand::KnownCommand => b"known_command vintsaky-no-such-command",
    }
}

/// The text of a `genmove` whose colour is written in full.
fn genmove_text(colour: Colour) -> &'static [u8]
    ensures text { result.now
        ≡ join_with_byte space (codes "genmove" ∷ colour_in_full colour ∷ []) }
    ensures few { length result.now ≤ 40 }
{
    match colour {
        Colour::Black => b"genmove black",
        Colour::White => b"genmove white",
    }
}

/// The text of a `play` whose colour is written in full.
fn play_text(made: Move) -> ArrayVec<u8, 40>
    ensures text { result.items ≡ join_with_byte space
        (codes "play" ∷ colour_in_full made.colour ∷ written_vertex made.vertex ∷ []) }
{
    let mut text = ArrayVec::new();
    push(&mut text, play_start(made.colour));
    push(&mut text, &made.vertex.write());
    text
}

/// The text before the vertex.
fn play_start(colour: Colour) -> &'static [u8]
    ensures text { result.now ≡ codes "play" ++ space ∷ (colour_in_full colour ++ space ∷ []) }
    ensures few { length result.now ≤ 30 }
{
    match colour {
        Colour::Black => b"play black ",
        Colour::White => b"play white ",
    }
}

/// Returns the line with an id and this text.
fn write_line(id: u32, text: &[u8]) -> CommandText
    requires { length text.now ≤ 40 }
    ensures { result.items ≡ (written_int id ++ space ∷ text.now) ++ newline ∷ [] }
{
    let mut out = ArrayVec::new();
    // The buffer has space for the ten digits of an id, a space, the text and a newline.
    let _ = out.try_extend_from_slice(&write_int(id));
    let _ = out.try_extend_from_slice(b" ");
    let _ = out.try_extend_from_slice(text);
    let _ = out.try_extend_from_slice(b"\n");
    out
}
