//! What the lesson `errors` asks in each part. Engines and programs go by all of it, but a match sends none of it, so a
//! bug here is against the standard alone.
use crate::stretches::Stretch;
use gtp_check_judge::{FaultyCommand, RequiredCommand};

/// Commands that never fail. (The standard's topics protocol_version, name, version and known_command.)
pub(crate) static REQUIRED: [Stretch; 6] = [
    Stretch::Fresh,
    Stretch::Seek,
    Stretch::Required(RequiredCommand::ProtocolVersion),
    Stretch::Required(RequiredCommand::Name),
    Stretch::Required(RequiredCommand::Version),
    Stretch::Required(RequiredCommand::KnownCommand),
];

/// A command that no engine has, alone and with arguments. Then the last move is undone and made again: what failed is
/// no move. (The standard's topic standard error messages.)
pub(crate) static UNKNOWN: [Stretch; 11] = [
    Stretch::Seek,
    Stretch::Size,
    Stretch::Taken,
    Stretch::Komi,
    Stretch::Clear,
    Stretch::Moves,
    Stretch::Faulty(FaultyCommand::Unknown),
    Stretch::Undo,
    Stretch::Act,
    Stretch::Faulty(FaultyCommand::UnknownWithArguments),
    Stretch::Own,
];

/// A size and a komi that are no numbers, on an empty board and after moves. The scores show whether the komi stays.
pub(crate) static NO_NUMBERS: [Stretch; 21] = [
    Stretch::Seek,
    Stretch::Size,
    Stretch::Taken,
    Stretch::Komi,
    Stretch::Clear,
    Stretch::Score,
    Stretch::Drawn(1),
    Stretch::Clear,
    Stretch::Score,
    Stretch::Drawn(1),
    Stretch::Clear,
    Stretch::Score,
    Stretch::Faulty(FaultyCommand::Komi),
    Stretch::Score,
    Stretch::Moves,
    Stretch::Faulty(FaultyCommand::Boardsize),
    Stretch::Undo,
    Stretch::Act,
    Stretch::Own,
    Stretch::Edges,
    Stretch::Clear,
];

/// Moves that can't be read. After each the last move is undone and made again: what failed is no move. (The same topic.)
pub(crate) static NO_MOVES: [Stretch; 15] = [
    Stretch::Seek,
    Stretch::Size,
    Stretch::Taken,
    Stretch::Komi,
    Stretch::Clear,
    Stretch::Moves,
    Stretch::Faulty(FaultyCommand::PlayNowhere),
    Stretch::Undo,
    Stretch::Act,
    Stretch::Faulty(FaultyCommand::PlayOutside),
    Stretch::Undo,
    Stretch::Act,
    Stretch::Faulty(FaultyCommand::Genmove),
    Stretch::Undo,
    Stretch::Own,
];
