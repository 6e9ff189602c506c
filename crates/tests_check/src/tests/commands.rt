//! Commands by their texts.
use crate::asserts::some;
use go_base::{Colour, Komi, Move, Size, Vertex, read_int};
use gtp_check_judge::{CheckCommand, Known};
use gtp_wire::Command;
use std::process::Abort;

/// The command of this text, where it has no argument that is read.
fn whole(text: &str) -> Option<CheckCommand> {
    match text {
        "name" => Some(CheckCommand::Name),
        "version" => Some(CheckCommand::Version),
        "final_score" => Some(CheckCommand::FinalScore),
        "known_command fixed_handicap" => Some(CheckCommand::KnownCommand(Known::FixedHandicap)),
        "known_command undo" => Some(CheckCommand::KnownCommand(Known::Undo)),
        "known_command final_score" => Some(CheckCommand::KnownCommand(Known::FinalScore)),
        "list_commands" => Some(CheckCommand::ListCommands),
        "clear_board" => Some(CheckCommand::Match(Command::ClearBoard)),
        "undo" => Some(CheckCommand::Match(Command::Undo)),
        "fixed_handicap 2" => Some(CheckCommand::Match(Command::FixedHandicap(2))),
        "fixed_handicap 3" => Some(CheckCommand::Match(Command::FixedHandicap(3))),
        "genmove b" => Some(CheckCommand::Match(Command::Genmove(Colour::Black))),
        "genmove w" => Some(CheckCommand::Match(Command::Genmove(Colour::White))),
        "genmove black" => Some(CheckCommand::GenmoveInFull(Colour::Black)),
        "genmove white" => Some(CheckCommand::GenmoveInFull(Colour::White)),
        _ => None,
    }
}

/// The command of this text.
pub fn command(rt: &impl Abort, text: &str) -> CheckCommand {
    if let Some(command) = whole(text) {
        return command;
    }
    let Some((name, argument)) = text.rsplit_once(' ') else {
        panic!(rt; "no command");
    };
    let argument = argument.as_bytes();
    match name {
        "boardsize" => {
            let size = some(rt, Size::new(some(rt, read_int(argument))));
            CheckCommand::Match(Command::Boardsize(size))
        }
        "komi" => CheckCommand::Match(Command::Komi(some(rt, Komi::read(argument)))),
        "play b" => CheckCommand::Match(Command::Play(move_to(rt, Colour::Black, argument))),
        "play w" => CheckCommand::Match(Command::Play(move_to(rt, Colour::White, argument))),
        "play black" => CheckCommand::PlayInFull(move_to(rt, Colour::Black, argument)),
        "play white" => CheckCommand::PlayInFull(move_to(rt, Colour::White, argument)),
        _ => panic!(rt; "no command"),
    }
}

/// The move of a colour to the vertex of this text.
fn move_to(rt: &impl Abort, colour: Colour, text: &[u8]) -> Move {
    Move {
        colour,
        vertex: some(rt, Vertex::read(text)),
    }
}
