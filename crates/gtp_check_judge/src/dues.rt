//! What is due to a command: what every correct engine answers to it.
ghost use Rattle.std.specs.Prelude.{◌≡◌, true};
ghost use Rattle.go_board.specs.Game.{HasRoom};
ghost use Rattle.gtp_wire.specs.declared.commands.Command.TheVariants as command;
ghost use Rattle.gtp_check_judge.specs.declared.asking.CheckCommand.TheVariants.{Match};
ghost use Rattle.gtp_check_judge.specs.Dues.{MayBeAsked, MayBeSaid, IsDue, IsDueTo, PlayDue, HandicapDue, UndoDue};
ghost use Rattle.gtp_check_judge.specs.Dues.{after_due, komi_due, undone_once, undone_due, may_place, has_play, is_point};
ghost use Rattle.gtp_check_judge.specs.Judging.{is_open, undo_may_fail, leaves_open, is_awaited};

use crate::asking::{CheckCommand, FaultyCommand};
use crate::komis::is_exact_komi;
use crate::opinions::Opinion;
use go_base::{Colour, Komi, Move, Size, Vertex};
use go_board::{Game, HandicapFault, MOST_MOVES, PlayFault};
use gtp_wire::Command;

/// Why a correct engine refuses a command.
#[derive(Clone, Copy, Debug, PartialEq, Eq)]
pub enum Cause {
    /// The move isn't legal.
    BadMove(PlayFault),
    /// The handicap may not be placed.
    BadHandicap(HandicapFault),
    /// There is no move to undo.
    NoMoves,
    /// No engine has this command, or its arguments can't be read.
    BadCommand(FaultyCommand),
}

/// What is due to a command: the replies that are correct.
#[derive(Clone, Copy, Debug, PartialEq, Eq)]
pub enum Due {
    /// A success.
    Succeeds,
    /// A failure, for this cause.
    Fails(Cause),
    /// A success that lists the points of this many handicap stones on a board of this size.
    Places(Size, u32),
    /// A success, after which the board has this size; or a failure, which changes nothing.
    Resizes(Size),
    /// A success with a score of an empty board of this size with this komi, or a failure. The score has to agree with
    /// one that the engine gave three times in a row.
    Scores(Size, Komi),
    /// A success or a failure, with any text.
    AnyReply,
    /// A success with `resign`, or with a vertex that is legal for this colour.
    Chooses(Colour),
    /// A success, which undoes the last move; or a failure, which changes nothing.
    MayUndo,
    /// A success with a list of commands that includes each one that the standard requires of every engine.
    Lists,
}

/// The greatest integer of the protocol.
const MOST_STONES: u32 = 2_147_483_647;

/// Returns whether a command may be asked in this game.
pub(crate) fn may_be_asked(game: &Game, command: &CheckCommand) -> bool
    ensures may { result ≡ true → MayBeAsked game.now command.now }
    ensures only { MayBeAsked game.now command.now → result ≡ true }
{
    match command {
        CheckCommand::Match(command) => may_be_said(game, command),
        CheckCommand::FinalScore => game.moves().len() == 0 && game.handicap() == 0,
        CheckCommand::Name
        | CheckCommand::Version
        | CheckCommand::KnownCommand(_)
        | CheckCommand::ListCommands
        | CheckCommand::Faulty(_)
        | CheckCommand::Required(_) => true,
        CheckCommand::PlayInFull(made) => may_be_said(game, &Command::Play(*made)),
        CheckCommand::GenmoveInFull(colour) => may_be_said(game, &Command::Genmove(*colour)),
    }
}

/// Returns whether a command of a match may be asked in this game.
fn may_be_said(game: &Game, command: &Command) -> bool
    ensures may { result ≡ true → MayBeSaid game.now command.now }
    ensures only { MayBeSaid game.now command.now → result ≡ true }
{
    match command {
        Command::Boardsize(_) | Command::Komi(_) | Command::ClearBoard | Command::Undo => true,
        Command::FixedHandicap(stones) => *stones <= MOST_STONES && may_place(game),
        Command::Play(_) => game.moves().len() < MOST_MOVES,
        Command::Genmove(_) => game.moves().len() < MOST_MOVES && !game.finished(),
        Command::Quit => false,
    }
}

/// Returns whether a handicap may be asked: no move was made, or a stone was put on the board.
fn may_place(game: &Game) -> bool
    ensures { result ≡ may_place game.now }
{
    match game.moves() {
        [] => true,
        moves => 0 < game.handicap() || has_play(moves),
    }
}

/// Returns whether one of the moves is on a point, and no pass.
fn has_play(moves: &[Move]) -> bool
    ensures { result ≡ has_play moves.now }
{
    moves.iter().any(|made| is_point(made.vertex))
}

/// Returns whether a vertex is a point.
fn is_point(vertex: Vertex) -> bool
    ensures { result ≡ is_point vertex }
{
    match vertex {
        Vertex::Pass => false,
        Vertex::At(_) => true,
    }
}

/// Returns whether what a correct engine does isn't known before its reply.
pub(crate) fn is_open(due: &Due) -> bool
    ensures { result ≡ is_open due.now }
{
    match due {
        Due::Chooses(_) | Due::Resizes(_) | Due::MayUndo | Due::Scores(..) => true,
        Due::Succeeds | Due::Fails(_) | Due::Places(..) | Due::AnyReply | Due::Lists => false,
    }
}

/// Returns whether nothing may be asked before the reply to a command: a `genmove`, a `boardsize`, an `undo` that may
/// fail, or a `final_score`. The game is a correct engine's, and `undone` says whether an `undo` of it has succeeded
/// since the last move. The opinion is only for the contract.
pub(crate) fn is_awaited(
    game: &Game,
    undone: bool,
    opinion: &Opinion,
    command: &CheckCommand,
) -> bool
    ensures { result ≡ is_awaited
        (record { game = game.now; undone = undone; opinion = opinion.now }) command.now }
{
    match command {
        CheckCommand::Match(command) => leaves_open(game, undone, opinion, command),
        CheckCommand::FinalScore => true,
        CheckCommand::GenmoveInFull(_) => true,
        CheckCommand::Name
        | CheckCommand::Version
        | CheckCommand::KnownCommand(_)
        | CheckCommand::ListCommands
        | CheckCommand::PlayInFull(_)
        | CheckCommand::Faulty(_)
        | CheckCommand::Required(_) => false,
    }
}

/// The same for a command of a match.
fn leaves_open(game: &Game, undone: bool, _opinion: &Opinion, command: &Command) -> bool
    ensures { result ≡ leaves_open
        (record { game = game.now; undone = undone; opinion = _opinion.now }) command.now }
{
    match command {
        Command::Genmove(_) | Command::Boardsize(_) => true,
        Command::Undo => undo_may_fail(game.moves(), undone),
        Command::Komi(_)
        | Command::ClearBoard
        | Command::FixedHandicap(_)
        | Command::Play(_)
        | Command::Quit => false,
    }
}

/// Returns whether an `undo` may fail after these moves: one has succeeded since the last of them.
fn undo_may_fail(moves: &[Move], undone: bool) -> bool
    ensures { result ≡ undo_may_fail undone moves.now }
{
    match moves {
        [] => false,
        [..] => undone,
    }
}

/// Returns what is due to a command in this game, and changes the game to the one that a correct engine has then.
/// `undone` says whether an `undo` has succeeded since the last move. The opinion is only for the contract.
pub(crate) fn due_to(
    game: &mut Game,
    undone: bool,
    opinion: &Opinion,
    command: &CheckCommand,
) -> Due
    requires { MayBeAsked game.old command.now }
    ensures due { IsDue
        (record { game = game.old; undone = undone; opinion = opinion.now }) command.now result }
    ensures game { game.new ≡ after_due game.old command.now result }
{
    match command {
        CheckCommand::Match(command) => command_due(game, undone, opinion, command),
        CheckCommand::FinalScore => {
            // Its contract says that the komi is within its limits.
            let _ = game.komi().half_points();
            Due::Scores(game.size(), game.komi())
        }
        CheckCommand::Name | CheckCommand::Version | CheckCommand::KnownCommand(_) => Due::AnyReply,
        CheckCommand::ListCommands => Due::Lists,
        CheckCommand::PlayInFull(made) => play_due(game, *made),
        CheckCommand::GenmoveInFull(colour) => Due::Chooses(*colour),
        CheckCommand::Faulty(faulty) => Due::Fails(Cause::BadCommand(*faulty)),
        CheckCommand::Required(_) => Due::Succeeds,
    }
}

/// Returns whether an `undo` has succeeded since the last move, once a correct engine has answered a command.
pub(crate) fn undone_due(undone: bool, command: &CheckCommand, due: &Due) -> bool
    ensures { result ≡ undone_due undone command.now due.now }
{
    match due {
        Due::Succeeds => undone_once(undone, command),
        Due::Fails(_)
        | Due::Places(..)
        | Due::Resizes(_)
        | Due::Scores(..)
        | Due::AnyReply
        | Due::Chooses(_)
        | Due::MayUndo
        | Due::Lists => undone,
    }
}

/// The same for a command that succeeded.
fn undone_once(undone: bool, command: &CheckCommand) -> bool
    ensures { result ≡ undone_once undone command.now }
{
    match command {
        CheckCommand::Match(Command::Undo) => true,
        CheckCommand::Match(Command::Play(_)) | CheckCommand::PlayInFull(_) => false,
        _ => undone,
    }
}

/// Returns what is due to a command of a match.
fn command_due(game: &mut Game, undone: bool, opinion: &Opinion, command: &Command) -> Due
    requires { MayBeSaid game.old command.now }
    ensures due { IsDueTo
        (record { game = game.old; undone = undone; opinion = opinion.now }) command.now result }
    ensures game { game.new ≡ after_due game.old (Match command.now) result }
{
    match command {
        Command::Boardsize(size) => {
            // Its contract says that the size is within its limits.
            let _ = size.get();
            Due::Resizes(*size)
        }
        Command::Komi(komi) => {
            // Its contract says that the komi is within its limits.
            let _ = komi.half_points();
            game.set_komi(*komi);
            komi_due(*komi)
        }
        Command::ClearBoard => {
            game.clear();
            Due::Succeeds
        }
        Command::FixedHandicap(stones) => handicap_due(game, *stones),
        Command::Play(made) => play_due(game, *made),
        Command::Genmove(colour) => Due::Chooses(*colour),
        Command::Undo => undo_due(game, undone, opinion),
        Command::Quit => Due::Succeeds,
    }
}

/// Returns what is due to a `komi`: a success if every engine has to accept it, else any reply.
fn komi_due(komi: Komi) -> Due
    ensures { result ≡ komi_due komi }
{
    if is_exact_komi(komi) {
        Due::Succeeds
    } else {
        Due::AnyReply
    }
}

/// Returns what is due to a `fixed_handicap`.
fn handicap_due(game: &mut Game, stones: u32) -> Due
    ensures due { HandicapDue game.old stones result }
    ensures game { game.new ≡ after_due game.old (Match (command.FixedHandicap stones)) result }
{
    let size = game.size();
    match game.place_handicap(stones) {
        Ok(_) => Due::Places(size, stones),
        Err(fault) => Due::Fails(Cause::BadHandicap(fault)),
    }
}

/// Returns what is due to a `play`.
fn play_due(game: &mut Game, made: Move) -> Due
    requires { HasRoom game.old }
    ensures due { PlayDue game.old made result }
    ensures game { game.new ≡ after_due game.old (Match (command.Play made)) result }
{
    match game.play(made.colour, made.vertex) {
        Ok(()) => Due::Succeeds,
        Err(fault) => Due::Fails(Cause::BadMove(fault)),
    }
}

/// Returns what is due to an `undo`.
fn undo_due(game: &mut Game, undone: bool, _opinion: &Opinion) -> Due
    ensures due { UndoDue
        (record { game = game.old; undone = undone; opinion = _opinion.now }) result }
    ensures game { game.new ≡ after_due game.old (Match command.Undo) result }
{
    if undo_may_fail(game.moves(), undone) {
        return Due::MayUndo;
    }
    match game.undo() {
        Ok(_) => Due::Succeeds,
        Err(_) => Due::Fails(Cause::NoMoves),
    }
}
