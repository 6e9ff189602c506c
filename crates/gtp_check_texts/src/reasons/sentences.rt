//! What is right, in sentences that depend on neither board nor vertex.
ghost use Rattle.std.specs.Prelude.{◌≡◌};
ghost use Rattle.gtp_check_texts.specs.reasons.Sentences.{cause_sentence, command_sentence, faulty_sentence};
ghost use Rattle.gtp_check_texts.specs.reasons.Sentences.{kind_sentence, other_sentence};

use go_board::HandicapFault;
use gtp_check_judge::{Cause, CheckCommand, FaultyCommand, Kind};
use gtp_wire::Command;

/// Returns why a correct engine accepts a command of a match.
pub(crate) fn command_sentence(command: &Command) -> &'static [u8]
    ensures { result.now ≡ command_sentence command.now }
{
    match command {
        Command::FixedHandicap(_) => {
            b"the board is empty, no move was made, and the size allows this number of stones"
        }
        Command::Komi(_) => b"a komi that floats of 32 bits have exactly is taken",
        Command::ClearBoard => b"a board can be cleared at any time",
        Command::Boardsize(_)
        | Command::Play(_)
        | Command::Genmove(_)
        | Command::Undo
        | Command::Quit => b"the command succeeds",
    }
}

/// Returns why a correct engine accepts a command that isn't one of a match.
pub(crate) fn other_sentence(command: &CheckCommand) -> &'static [u8]
    ensures { result.now ≡ other_sentence command.now }
{
    match command {
        CheckCommand::ListCommands => b"each engine has list_commands",
        CheckCommand::Required(_) => b"each engine has this command, and it never fails",
        _ => b"the command succeeds",
    }
}

/// Returns why a correct engine refuses a command.
fn cause_sentence(cause: Cause) -> &'static [u8]
    ensures { result.now ≡ cause_sentence cause }
{
    match cause {
        Cause::BadMove(_) => b"the move isn't legal",
        Cause::BadHandicap(HandicapFault::NotEmpty) => {
            b"a handicap is placed on an empty board alone, before any move"
        }
        Cause::BadHandicap(HandicapFault::BadNumber) => {
            b"the size doesn't allow this number of handicap stones"
        }
        Cause::NoMoves => b"there is no move to take back",
        Cause::BadCommand(faulty) => faulty_sentence(faulty),
    }
}

/// Returns why a correct engine refuses a command that has to fail.
fn faulty_sentence(faulty: FaultyCommand) -> &'static [u8]
    ensures { result.now ≡ faulty_sentence faulty }
{
    match faulty {
        FaultyCommand::Unknown | FaultyCommand::UnknownWithArguments => {
            b"a failure: no engine has this command"
        }
        FaultyCommand::Boardsize => b"a failure, which changes nothing: a size is a number",
        FaultyCommand::Komi => b"a failure, which changes nothing: a komi is a number",
        FaultyCommand::PlayNowhere => {
            b"a failure, which changes nothing: a play has a colour and a vertex"
        }
        FaultyCommand::PlayOutside => {
            b"a failure, which changes nothing: no board has this point"
        }
        FaultyCommand::Genmove => {
            b"a failure, which changes nothing: a colour is b, w, black or white"
        }
    }
}

/// Returns what a correct engine writes instead of what was wrong.
pub(crate) fn kind_sentence(kind: Kind) -> &'static [u8]
    ensures { result.now ≡ kind_sentence kind }
{
    match kind {
        Kind::Refused => b"the command succeeds",
        Kind::Took(cause) => cause_sentence(cause),
        Kind::OtherPoints => b"the points of a handicap are fixed by the size and the number",
        Kind::NoMove => b"a genmove succeeds; a player who has no move passes or resigns",
        Kind::NoVertex => b"a genmove answers a vertex of the board, pass, or resign",
        Kind::Unlawful(_) => b"the move isn't legal",
        Kind::Unlisted => {
            b"each of these has a row of its own: protocol_version name version known_command list_commands quit boardsize clear_board komi play genmove"
        }
        Kind::NoScore => b"a score is B+ or W+ and the points, or 0",
        Kind::OtherScore => {
            b"it scored the empty board of this size three times alike with one komi: its scores differ as the komis do"
        }
        Kind::WrongId => b"a reply has the id of the oldest unanswered command",
        Kind::Unasked => b"each command has one reply",
        Kind::NoStatus => b"a reply begins with = or ?, and ends with two newlines",
        Kind::Overlong => {
            b"two newlines end a reply, within 8,192 bytes: twogtp and this check read no more, though the standard sets no limit"
        }
    }
}
