//! The exam of one engine: what the examiner keeps of it, and how that changes.
ghost use Rattle.std.specs.Prelude.{◌≡◌, ◌<◌, ◌≤◌, true, false, [], ◌∷◌, ◌++◌, length, drop, option_map, Some};
ghost use Rattle.std.specs.Prelude.{None};
ghost use Rattle.go_base.specs.Int.{most_int};
ghost use Rattle.gtp_wire.specs.Replies.{with_reply};
ghost use Rattle.gtp_wire.specs.Commands.{IsWritable, IsInLimits};
ghost use Rattle.gtp_check_judge.specs.Asking.{written_check, IsCheckWritable, IsCheckInLimits};
ghost use Rattle.go_base.specs.Vertex.{IsVertex};
ghost use Rattle.gtp_check_judge.specs.declared.setups.Board.TheVariants.{Cleared};
ghost use Rattle.gtp_check_judge.specs.Setups.{needs_board, is_final_score};
ghost use Rattle.gtp_check_judge.specs.Dues.{MayBeAsked, MayBeSaid, IsDue};
ghost use Rattle.gtp_check_judge.specs.Judging.{most_unanswered, oldest, awaits, is_awaited};
ghost use Rattle.gtp_check_judge.specs.Exam.{begun, engine_of, downed, kind_of, Asks, Hears, ReplyLeaves, hearing};
ghost use Rattle.gtp_check_judge.specs.Exam.{after_judged};
ghost use Rattle.gtp_check_judge.specs.Exam.{with_learned, finding_of, MayReply, MayApply, HasRoomFor, answered_by};
ghost use Rattle.gtp_check_judge.specs.Exam.{refused_what};

use crate::asking::{CheckCommand, write_check};
use crate::dues::{Due, due_to, is_awaited, may_be_asked, undone_due};
use crate::judging::{Judgement, Kind, Refusal, has_id, judge, refused_by};
use crate::opinions::Opinion;
use crate::setups::{
    Board, board_after, is_clear_board, is_cleared, is_final_score, komi_after, needs_board,
};
use crate::skills::{Skills, has_needed, learned, none_asked};
use crate::unanswered::{Asked, MOST_UNANSWERED, Unanswered};
use go_base::Vertex;
use go_board::{Game, KoRule};
use gtp_wire::{Command, CommandText, Reply, ReplyFault, ReplyRead, ReplyReader};

/// The greatest id, which is the greatest integer of the protocol.
const MOST_ID: u32 = 2_147_483_647;

/// The first wrong reply of an engine since it was started.
#[derive(Clone, Copy, Debug, PartialEq, Eq)]
pub struct Finding {
    /// The command that should have been answered, if any.
    pub asked: Option<Asked>,
    /// What is wrong.
    pub kind: Kind,
}

/// A command to send.
#[derive(Drop)]
pub struct Asking {
    /// Its line.
    pub text: CommandText,
    /// What is due to it.
    pub due: Due,
}

/// What the examiner found in output of an engine.
#[derive(Clone, Copy, Debug, PartialEq, Eq)]
pub struct Heard {
    /// How many of the bytes were used.
    pub used: usize,
    /// `Ok` if the last of these bytes ended a reply, which was written, or the fault that the bytes showed, if any.
    pub read: Option<Result<(), ReplyFault>>,
    /// What is wrong, if anything.
    pub finding: Option<Finding>,
    /// The command to which this was a correct reply, if any.
    pub answered: Option<Asked>,
    /// What the engine refused, if anything. That was a correct reply, and nothing changed.
    pub refused: Option<Refusal>,
}

/// What is known of an engine since it was started: the game of a correct engine, the commands that aren't answered,
/// and what it said of itself.
#[derive(Drop)]
pub struct Exam {
    /// The game of a correct engine that has answered all that was asked.
    pub game: Game,
    /// Whether an `undo` of that engine has succeeded since its last move: then the next one may fail.
    pub undone: bool,
    /// The engine's opinion of an empty board, by its scores.
    pub opinion: Opinion,
    /// Whether the engine was started, and has been neither lost nor found wrong since.
    pub up: bool,
    /// How many commands it was asked since. The last of them has this number as its id.
    pub sent: u32,
    /// The commands that it hasn't answered.
    pub unanswered: Unanswered,
    /// The reader of its replies, with what it wrote since the last complete one.
    pub reader: ReplyReader,
    /// What is known of its board.
    pub board: Board,
    /// Whether a komi was asked since it was started, and the last one was one that every engine has to accept.
    pub komi_set: bool,
    /// What it said of the commands that it may lack.
    pub skills: Skills,
}

impl Exam {
    /// An engine with this ko rule, running or not, that was asked nothing.
    pub fn new(rule: KoRule, up: bool) -> Exam
        ensures { result ≡ begun rule up }
    {
        Exam {
            game: Game::fresh(rule),
            undone: false,
            opinion: Opinion::Unheard,
            up,
            sent: 0,
            unanswered: Unanswered::new(),
            reader: ReplyReader::new(),
            board: Board::Unknown,
            komi_set: false,
            skills: none_asked(),
        }
    }

    /// Returns whether the engine may be asked this command now.
    pub fn has_room(&self, command: &CheckCommand) -> bool
        ensures may { result ≡ true → HasRoomFor self.now command.now }
        ensures only { HasRoomFor self.now command.now → result ≡ true }
    {
        self.up
            && self.sent < MOST_ID
            && self.has_place(command)
            && may_be_asked(&self.game, command)
            && self.has_setup(command)
            && has_needed(&self.skills, command)
    }

    /// Returns whether the board and komi that the reply to the command depends on are known.
    fn has_setup(&self, command: &CheckCommand) -> bool
        ensures board { result ≡ true → needs_board command.now ≡ true → self.now.board ≡ Cleared }
        ensures komi { result ≡ true → is_final_score command.now ≡ true
            → self.now.komi_set ≡ true }
        ensures only { (needs_board command.now ≡ true → self.now.board ≡ Cleared)
            → (is_final_score command.now ≡ true → self.now.komi_set ≡ true)
            → result ≡ true }
    {
        (!needs_board(command) || is_cleared(self.board))
            && (!is_final_score(command) || self.komi_set)
    }

    /// Returns whether the command may be unanswered together with those that are.
    fn has_place(&self, command: &CheckCommand) -> bool
        ensures few { result ≡ true → length self.now.unanswered < most_unanswered }
        ensures none_awaits { result ≡ true → awaits self.now.unanswered ≡ false }
        ensures alone { result ≡ true → is_awaited (engine_of self.now) command.now ≡ true
            → self.now.unanswered ≡ [] }
        ensures only { length self.now.unanswered < most_unanswered
            → awaits self.now.unanswered ≡ false
            → (is_awaited (engine_of self.now) command.now ≡ true → self.now.unanswered ≡ [])
            → result ≡ true }
    {
        if self.unanswered.len() == 0 {
            return true;
        }
        self.unanswered.len() < MOST_UNANSWERED
            && !is_awaited(&self.game, self.undone, &self.opinion, command)
            && !self.unanswered.awaits()
    }

    /// Notes that the engine is asked a command. Returns its line, and what is due to it.
    pub fn ask(&mut self, command: CheckCommand) -> Asking
        requires may { MayBeAsked self.old.game command }
        requires few { self.old.sent < most_int }
        requires room { length self.old.unanswered < most_unanswered }
        ensures asks { Asks self.old command self.new }
        ensures text { result.text.items ≡ written_check self.new.sent command }
        ensures is_due { IsDue (engine_of self.old) command result.due }
        ensures due { self.new.unanswered ≡ self.old.unanswered
            ++ record { id = self.new.sent; command = command; due = result.due } ∷ [] }
    {
        in_limits(&self.game, &command);
        self.sent += 1;
        let due = due_to(&mut self.game, self.undone, &self.opinion, &command);
        self.undone = undone_due(self.undone, &command, &due);
        self.unanswered.push(self.sent, command, due);
        self.board = board_after(self.board, is_clear_board(&command));
        self.komi_set = komi_after(self.komi_set, &command);
        Asking {
            text: write_check(self.sent, &command),
            due,
        }
    }

    /// Takes output of the engine, which is up. It writes a complete reply to `reply`.
    pub fn hear(&mut self, bytes: &[u8], reply: &mut Reply) -> Heard
        requires { MayReply self.old }
        ensures within { result.used ≤ length bytes.now }
        ensures hears { Hears self.old bytes.now (hearing result.used
            (option_map (with_reply reply.new) result.read) result.finding) self.new }
        ensures answered { result.answered ≡ answered_by (oldest self.old.unanswered)
            (option_map (with_reply reply.new) result.read) result.finding }
        ensures refused { result.refused ≡ refused_what (oldest self.old.unanswered)
            (option_map (with_reply reply.new) result.read) result.finding }
    {
        let oldest = self.unanswered.oldest();
        let ReplyRead { used, got } = self.reader.feed_into(bytes, reply);
        let finding = match got {
            None => None,
            Some(Err(fault)) => Some(self.fault(fault)),
            Some(Ok(())) => self.take(reply),
        };
        Heard {
            used,
            answered: answered_by(&oldest, got, reply, &finding),
            refused: refused_what(&oldest, got, reply, &finding),
            read: got,
            finding,
        }
    }

    /// Notes a fault that the reader found.
    fn fault(&mut self, fault: ReplyFault) -> Finding
        ensures finding { result
            ≡ record { asked = oldest self.old.unanswered; kind = kind_of fault } }
        ensures down { self.new ≡ downed self.old }
    {
        self.up = false;
        Finding {
            asked: self.unanswered.oldest(),
            kind: kind_of(fault),
        }
    }

    /// Notes a reply of the engine.
    fn take(&mut self, reply: &Reply) -> Option<Finding>
        requires { MayReply self.old }
        ensures { ReplyLeaves self.old (oldest self.old.unanswered) reply.now result self.new }
    {
        let Some(asked) = self.unanswered.oldest() else {
            self.up = false;
            return Some(Finding {
                asked: None,
                kind: Kind::Unasked,
            });
        };
        if !has_id(reply.id, asked.id) {
            self.up = false;
            return Some(Finding {
                asked: Some(asked),
                kind: Kind::WrongId,
            });
        }
        let judged = judge(&self.game, &self.opinion, asked.due, reply);
        self.apply(asked, reply, judged)
    }

    /// Notes how the reply to its oldest command was judged.
    fn apply(&mut self, asked: Asked, reply: &Reply, judged: Judgement) -> Option<Finding>
        requires { MayApply self.old.game judged }
        ensures finding { result ≡ finding_of asked judged }
        ensures applied { self.new
            ≡ after_judged (with_learned self.old asked.command reply.now) judged }
    {
        self.skills = learned(&self.skills, &asked.command, reply);
        match judged {
            Judgement::Right => self.taken_off(),
            Judgement::Plays(colour, vertex) => {
                // It is legal, and the record has space for it.
                let _ = self.game.play(colour, vertex);
                self.undone = false;
                self.taken_off()
            }
            Judgement::Resized(size) => {
                self.game.set_size(size);
                self.board = Board::Sized;
                self.taken_off()
            }
            Judgement::Undone => {
                // There is a move.
                let _ = self.game.undo();
                self.undone = true;
                self.taken_off()
            }
            Judgement::Opines(opinion) => {
                self.opinion = opinion;
                self.taken_off()
            }
            Judgement::Wrong(kind) => {
                self.up = false;
                Some(Finding {
                    asked: Some(asked),
                    kind,
                })
            }
        }
    }

    /// Notes that the oldest command was answered correctly.
    fn taken_off(&mut self) -> Option<Finding>
        ensures nothing { result ≡ None }
        ensures off { self.new
            ≡ record self.old { unanswered = drop 1 self.old.unanswered } }
    {
        self.unanswered.drop_oldest();
        None
    }
}

/// Returns the command to which what was read is a correct reply, if this is the oldest command.
fn answered_by(
    asked: &Option<Asked>,
    read: Option<Result<(), ReplyFault>>,
    _reply: &Reply,
    finding: &Option<Finding>,
) -> Option<Asked>
    ensures { result ≡ answered_by asked.now (option_map (with_reply _reply.now) read) finding.now }
{
    match (asked, read, finding) {
        (Some(asked), Some(Ok(())), None) => Some(*asked),
        _ => None,
    }
}

/// Returns what was refused by what was read, if this is the oldest command.
fn refused_what(
    asked: &Option<Asked>,
    read: Option<Result<(), ReplyFault>>,
    reply: &Reply,
    finding: &Option<Finding>,
) -> Option<Refusal>
    ensures { result ≡ refused_what asked.now (option_map (with_reply reply.now) read) finding.now }
{
    match (asked, read, finding) {
        (Some(asked), Some(Ok(())), None) => refused_by(asked.due, reply.ok),
        _ => None,
    }
}

/// Does nothing: it is only for the proof that a command that may be asked can be written, and that its values are
/// within their limits.
fn in_limits(game: &Game, command: &CheckCommand)
    requires { MayBeAsked game.now command.now }
    ensures writable { IsCheckWritable command.now }
    ensures limits { IsCheckInLimits command.now }
{
    match command {
        CheckCommand::Match(command) => command_in_limits(game, command),
        CheckCommand::FinalScore
        | CheckCommand::Name
        | CheckCommand::Version
        | CheckCommand::KnownCommand(_)
        | CheckCommand::ListCommands
        | CheckCommand::GenmoveInFull(_)
        | CheckCommand::Faulty(_)
        | CheckCommand::Required(_) => {}
        CheckCommand::PlayInFull(made) => vertex_in_limits(made.vertex),
    }
}

/// The same for a command of a match.
fn command_in_limits(_game: &Game, command: &Command)
    requires { MayBeSaid _game.now command.now }
    ensures writable { IsWritable command.now }
    ensures limits { IsInLimits command.now }
{
    match command {
        Command::Boardsize(size) => {
            let _ = size.get();
        }
        Command::Komi(komi) => {
            let _ = komi.half_points();
        }
        Command::Play(made) => vertex_in_limits(made.vertex),
        Command::ClearBoard
        | Command::FixedHandicap(_)
        | Command::Genmove(_)
        | Command::Undo
        | Command::Quit => {}
    }
}

/// The same for a vertex.
fn vertex_in_limits(vertex: Vertex)
    ensures { IsVertex vertex }
{
    if let Vertex::At(point) = vertex {
        let _ = point.row();
    }
}

/// Returns what kind of finding a fault of the reader is.
fn kind_of(fault: ReplyFault) -> Kind
    ensures { result ≡ kind_of fault }
{
    match fault {
        ReplyFault::NoStatus => Kind::NoStatus,
        ReplyFault::Overlong => Kind::Overlong,
    }
}
