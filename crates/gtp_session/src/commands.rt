//! The commands that the engine knows.
ghost use Rattle.std.specs.Prelude.{◌≡◌, ◌≤◌, length};
ghost use Rattle.gtp_session.specs.Commands.{spelled, command_named, all_names};

use arrayvec::ArrayVec;
use go_base::push_word;

/// A command that the engine knows.
#[derive(Clone, Copy, Debug, PartialEq, Eq)]
pub enum CommandName {
    /// `protocol_version`
    ProtocolVersion,
    /// `name`
    Name,
    /// `version`
    Version,
    /// `known_command`
    KnownCommand,
    /// `list_commands`
    ListCommands,
    /// `quit`
    Quit,
    /// `boardsize`
    Boardsize,
    /// `clear_board`
    ClearBoard,
    /// `komi`
    Komi,
    /// `play`
    Play,
    /// `genmove`
    Genmove,
    /// `fixed_handicap`
    FixedHandicap,
    /// `undo`
    Undo,
    /// `final_score`
    FinalScore,
    /// `showboard`
    Showboard,
}

/// The commands, in the order in which `list_commands` names them.
static COMMANDS: &[CommandName] = &[
    CommandName::ProtocolVersion,
    CommandName::Name,
    CommandName::Version,
    CommandName::KnownCommand,
    CommandName::ListCommands,
    CommandName::Quit,
    CommandName::Boardsize,
    CommandName::ClearBoard,
    CommandName::Komi,
    CommandName::Play,
    CommandName::Genmove,
    CommandName::FixedHandicap,
    CommandName::Undo,
    CommandName::FinalScore,
    CommandName::Showboard,
];

/// The most bytes of a command's name. `protocol_version` has as many.
const MOST_NAME_BYTES: usize = 16;

/// The buffer size for the names of all commands, each with a newline: enough for 20 names.
const NAMES_ROOM: usize = 20 * (MOST_NAME_BYTES + 1);

/// Returns the names of the commands, a line each.
pub(crate) fn all_names() -> ArrayVec<u8, NAMES_ROOM>
    ensures { result.items ≡ all_names }
{
    let mut text = ArrayVec::new();
    for command in COMMANDS {
        push_word(&mut text, b'\n', command.name());
    }
    text
}

impl CommandName {
    /// Returns the command of this name, if there is one. Case matters.
    pub fn read(word: &[u8]) -> Option<CommandName>
        ensures { result ≡ command_named word.now }
    {
        COMMANDS
            .iter()
            .copied()
            .find(|command| command.name() == word)
    }

    /// Returns the command's name.
    pub fn name(self) -> &'static [u8]
        ensures name { result.now ≡ spelled self }
        ensures few { length result.now ≤ 16 }
    {
        match self {
            CommandName::ProtocolVersion => b"protocol_version",
            CommandName::Name => b"name",
            CommandName::Version => b"version",
            CommandName::KnownCommand => b"known_command",
            CommandName::ListCommands => b"list_commands",
            CommandName::Quit => b"quit",
            CommandName::Boardsize => b"boardsize",
            CommandName::ClearBoard => b"clear_board",
            CommandName::Komi => b"komi",
            CommandName::Play => b"play",
            CommandName::Genmove => b"genmove",
            CommandName::FixedHandicap => b"fixed_handicap",
            CommandName::Undo => b"undo",
            CommandName::FinalScore => b"final_score",
            CommandName::Showboard => b"showboard",
        }
    }
}
