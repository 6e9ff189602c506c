//! A sans-IO engine: its caller supplies its choices, and answers the commands that the table doesn't have.
ghost use Rattle.std.specs.Prelude.{◌≡◌, ◌≢◌, ◌≤◌, length, true, false, [], Some, IfSome, IfNone, IfErr};
ghost use Rattle.std.specs.Prelude.{OnOk, OnErr, if◌then◌else◌, codes};
ghost use Rattle.gtp_wire.specs.Replies.{IsReplyText, most_written_bytes};
ghost use Rattle.gtp_wire.specs.declared.lines.Line.TheVariants as line;
ghost use Rattle.gtp_session.specs.declared.events.Wait.TheVariants as wait;
ghost use Rattle.gtp_session.specs.declared.events.Event.TheVariants as event;
ghost use Rattle.gtp_session.specs.declared.events.AnswerFault.TheVariants as answer_fault;
ghost use Rattle.gtp_session.specs.Policy.{IsLawful};
ghost use Rattle.gtp_session.specs.Spoken.{IsSpoken};
ghost use Rattle.gtp_session.specs.Steps.{IsUnlawful, event_of};

use crate::answers::{answer, command_of};
use crate::author_texts::{AuthorText, text_for};
pub use crate::events::{AnswerFault, ChoiceFault, CommandFault, Event, NoTitle, StepsFed, Wait};
use crate::own_commands::OwnCommands;
use crate::titles::{Title, copy_of, title_of};
use crate::waits::{id_of, wait_of};
use go_base::{Choice, Colour};
use go_board::{Game, KoRule, PlayFault};
use gtp_wire::{
    CommandLine, Line, LineRead, LineReader, ReplyText, is_reply_text, write_reply_into,
};
use std::marker::Model;

/// A sans-IO engine: it reads and writes nothing itself. Its caller passes it bytes, and gets back a reply, or the
/// colour for which it waits for a choice, or a line whose command isn't in the table. The caller then supplies the
/// choice, or the answer to that line.
///
/// Its model is the text that it was passed and hasn't read as lines, the line that it read last, what it waits for,
/// its game, whether it has ended, its last reply, and what its author has set.
#[derive(Drop)]
pub struct Steps {
    reader: LineReader,
    /// The line that was read last, overwritten by the next (`TooLong` before the first).
    line: Line,
    wait: Wait,
    game: Game,
    ended: bool,
    reply: ReplyText,
    name: Title,
    version: Title,
    commands: OwnCommands,
}

impl Model for Steps {
    ghost use Rattle.gtp_session.specs.Steps.{StepsState};
    ghost use Rattle.gtp_session.specs.private.StepsFields.{state_in, IsKept};

    ghost Value = { StepsState };

    ghost view = { state_in };

    ghost invariant = { IsKept };
}

impl Steps {
    ghost use Rattle.gtp_session.specs.Steps.{IsStepsState, IsOpen, IsTitle, fresh_steps};
    ghost use Rattle.gtp_session.specs.Steps.{replied_by, texted};
    ghost use Rattle.gtp_session.specs.private.AuthorTexts.{text_in};
    ghost use Rattle.gtp_session.specs.Steps.{ReadsOn, Chooses, RefusesChoice, AnswersOther, RefusesAnswer};
    ghost use Rattle.gtp_session.specs.Steps.{SetsName, SetsVersion, AddsCommand, declined_text};
    ghost use Rattle.gtp_session.specs.OwnCommands.{RefusesName};

    /// Returns an engine with this ko rule that has read nothing: size 19, komi 0, no handicap and no moves. It answers
    /// `stepgo` to `name` and `1.0` to `version`.
    pub fn new(rule: KoRule) -> Steps
        ensures { result ≡ fresh_steps rule }
    {
        let name = copy_of(b"stepgo");
        let version = copy_of(b"1.0");
        Steps {
            reader: LineReader::new(),
            line: Line::TooLong,
            wait: Wait::Nothing,
            game: Game::fresh(rule),
            ended: false,
            reply: ReplyText::new(),
            name,
            version,
            commands: OwnCommands::new(),
        }
    }

    /// Returns the game after the lines that were answered so far.
    pub fn game(&self) -> &Game
        ensures { result.now ≡ self.now.game }
    {
        &self.game
    }

    /// Returns the bytes of the last reply, or none before the first.
    pub fn reply(&self) -> &[u8]
        ensures bytes { result.now ≡ self.now.reply }
        // They are one reply: a status, an id or none, and a text that is allowed in a reply.
        ensures spoken { result.now ≢ [] → IsSpoken result.now }
        ensures few { length result.now ≤ most_written_bytes }
    {
        self.reply.as_slice()
    }

    /// Returns what it waits for.
    pub fn wait(&self) -> Wait
        ensures wait { result ≡ self.now.wait }
        // No whole line is kept unread, and it waits only for what the line that it read last needs.
        ensures kept { IsStepsState self.now }
    {
        self.wait
    }

    /// Returns the line whose choice or answer it waits for, if it waits for one.
    pub fn line(&self) -> Option<&CommandLine>
        ensures some { IfSome result (λ waiting.
            (self.now.line ≡ line.Command waiting.now) × (self.now.wait ≢ wait.Nothing)) }
        ensures none { IfNone result (self.now.wait ≡ wait.Nothing) }
    {
        if self.wait == Wait::Nothing {
            return None;
        }
        match &self.line {
            Line::Command(line) => Some(line),
            Line::TooLong => None,
        }
    }

    /// Whether the session has ended, by a `quit`.
    pub fn ended(&self) -> bool
        ensures { result ≡ self.now.ended }
    {
        self.ended
    }

    /// Reads the next chunk up to and including the newline that ends the first line with a word, or all of it. A line
    /// that needs nothing from the author is answered. For a line that needs a choice or an answer the engine waits,
    /// and until it comes, this call uses no byte and returns the same event again. Once the session has ended, no byte
    /// is used.
    ///
    /// Pass the bytes that it didn't use, `input[used..]`, in the next call.
    pub fn feed(&mut self, input: &[u8]) -> StepsFed
        ensures within { result.used ≤ length input.now }
        ensures reads { IsOpen self.old →
            ReadsOn self.old input.now result.used result.event self.new }
        ensures waits { self.old.wait ≢ wait.Nothing →
            (result ≡ record { used = 0; event = event_of self.old.wait }) × (self.new ≡ self.old) }
        ensures over { self.old.ended ≡ true →
            (result ≡ record { used = 0; event = event.Ended }) × (self.new ≡ self.old) }
    {
        if self.ended {
            return StepsFed {
                used: 0,
                event: Event::Ended,
            };
        }
        if let Some(event) = awaited(self.wait) {
            return StepsFed { used: 0, event };
        }
        let LineRead { used, found } = self.reader.feed_into(input, &mut self.line);
        if !found {
            return StepsFed {
                used,
                event: Event::More,
            };
        }
        let command = command_of(&self.line);
        let wait = wait_of(&self.game, &self.line, command);
        if let Some(event) = awaited(wait) {
            self.wait = wait;
            return StepsFed { used, event };
        }
        match text_for(&self.line, command, &self.commands) {
            Some(text) => self.reply_set(text),
            None => {
                let reply = &mut self.reply;
                // The line asks for no choice, so this one doesn't count.
                self.ended = answer(&mut self.game, &self.line, command, Choice::Resign, reply);
            }
        }
        StepsFed {
            used,
            event: Event::Reply,
        }
    }

    /// Answers the line that was read last by this text, which its author has set.
    fn reply_set(&mut self, text: AuthorText)
        requires { IsOpen self.old }
        ensures { self.new ≡ replied_by self.old (text_in self.old (Some text)) }
    {
        let reply = &mut self.reply;
        let id = id_of(&self.line);
        match text {
            AuthorText::Name => write_reply_into(reply, true, id, &self.name),
            AuthorText::Version => write_reply_into(reply, true, id, &self.version),
            AuthorText::Known(known) => write_reply_into(reply, true, id, truth(known)),
            AuthorText::Commands => write_reply_into(reply, true, id, &self.commands.listed()),
        }
    }

    /// Makes the choice that the engine waits for: plays the move or resigns. The reply is ready then.
    ///
    /// # Errors
    ///
    /// `NotAsked` if no choice is being waited for. `Illegal` if the choice is a vertex that isn't legal, with the
    /// first cause. The engine stays as it was, and still waits for a choice if it did.
    pub fn choose(&mut self, choice: Choice) -> Result<(), ChoiceFault>
        ensures made { OnOk result (Chooses self.old choice self.new) }
        ensures kept { OnErr result (self.new ≡ self.old) }
        ensures why { IfErr result (RefusesChoice self.old choice) }
    {
        let Wait::Choice(colour) = self.wait else {
            return Err(ChoiceFault::NotAsked);
        };
        if let Some(fault) = refusal(&self.game, colour, &choice) {
            return Err(ChoiceFault::Illegal(fault));
        }
        let command = command_of(&self.line);
        self.ended = answer(&mut self.game, &self.line, command, choice, &mut self.reply);
        self.wait = Wait::Nothing;
        Ok(())
    }

    /// Answers the line whose command isn't in the table, by a success or a failure with this text. The game stays as
    /// it is.
    ///
    /// # Errors
    ///
    /// `NotAsked` if no such line is waiting. `BadText` if the text isn't allowed in a reply: a reply may have at most
    /// 2,000 bytes, each of them a newline or 32 to 126, without two newlines in a row, and with neither a space nor a
    /// newline at its ends. The engine stays as it was.
    pub fn answer(&mut self, ok: bool, text: &[u8]) -> Result<(), AnswerFault>
        ensures made { OnOk result (AnswersOther self.old ok text.now self.new) }
        ensures kept { OnErr result (self.new ≡ self.old) }
        ensures why { IfErr result (RefusesAnswer self.old text.now) }
    {
        if self.wait != Wait::Answer {
            return Err(AnswerFault::NotAsked);
        }
        if !is_reply_text(text) {
            return Err(AnswerFault::BadText);
        }
        self.reply_text(ok, text);
        Ok(())
    }

    /// Answers the line whose command isn't in the table as the table does: `unknown command`.
    ///
    /// # Errors
    ///
    /// `NotAsked` if no such line is waiting. The engine stays as it was.
    pub fn decline(&mut self) -> Result<(), AnswerFault>
        ensures made { OnOk result (AnswersOther self.old false declined_text self.new) }
        ensures kept { OnErr result (self.new ≡ self.old) }
        ensures why { IfErr result (RefusesAnswer self.old declined_text) }
        ensures not_asked { IfErr result (λ fault. fault ≡ answer_fault.NotAsked) }
    {
        if self.wait != Wait::Answer {
            return Err(AnswerFault::NotAsked);
        }
        self.reply_text(false, b"unknown command");
        Ok(())
    }

    /// Answers the line that was read last with this text.
    fn reply_text(&mut self, ok: bool, text: &[u8])
        requires { IsReplyText text.now }
        ensures { self.new ≡ texted self.old ok text.now }
    {
        write_reply_into(&mut self.reply, ok, id_of(&self.line), text);
        self.wait = Wait::Nothing;
    }

    /// Sets the answer to `name` from now on.
    ///
    /// # Errors
    ///
    /// `NoTitle` if the text has more than 200 bytes, or isn't allowed in a reply. The engine stays as it was.
    pub fn set_name(&mut self, text: &[u8]) -> Result<(), NoTitle>
        ensures set { OnOk result (SetsName self.old text.now self.new) }
        ensures kept { OnErr result (self.new ≡ self.old) }
        ensures why { OnErr result (¬ IsTitle text.now) }
    {
        let Some(name) = title_of(text) else {
            return Err(NoTitle);
        };
        self.name = name;
        Ok(())
    }

    /// Sets the answer to `version` from now on.
    ///
    /// # Errors
    ///
    /// Those of [`Steps::set_name`].
    pub fn set_version(&mut self, text: &[u8]) -> Result<(), NoTitle>
        ensures set { OnOk result (SetsVersion self.old text.now self.new) }
        ensures kept { OnErr result (self.new ≡ self.old) }
        ensures why { OnErr result (¬ IsTitle text.now) }
    {
        let Some(version) = title_of(text) else {
            return Err(NoTitle);
        };
        self.version = version;
        Ok(())
    }

    /// Adds a custom command. From now on `known_command` and `list_commands` know its name, and `feed` returns its
    /// lines as those whose command isn't in the table.
    ///
    /// # Errors
    ///
    /// The first reason not to add it, in the order of [`CommandFault`]. The engine stays as it was.
    pub fn add_command(&mut self, name: &[u8]) -> Result<(), CommandFault>
        ensures added { OnOk result (AddsCommand self.old name.now self.new) }
        ensures kept { OnErr result (self.new ≡ self.old) }
        ensures why { IfErr result (RefusesName self.old.commands name.now) }
    {
        self.commands.add(name)
    }
}

/// Returns the event of an engine that waits, or `None` if it waits for nothing.
fn awaited(wanted: Wait) -> Option<Event>
    ensures some { IfSome result (λ event. (event ≡ event_of wanted) × (wanted ≢ wait.Nothing)) }
    ensures none { IfNone result (wanted ≡ wait.Nothing) }
{
    match wanted {
        Wait::Nothing => None,
        Wait::Choice(colour) => Some(Event::Asked(colour)),
        Wait::Answer => Some(Event::Other),
    }
}

/// Returns why a choice isn't lawful, if it isn't.
fn refusal(game: &Game, colour: Colour, choice: &Choice) -> Option<PlayFault>
    ensures lawful { IfNone result (IsLawful game.now colour choice.now) }
    ensures refused { IfSome result (IsUnlawful game.now colour choice.now) }
{
    match choice {
        Choice::Resign => None,
        Choice::Play(vertex) => game.refusal(colour, *vertex),
    }
}

/// Returns `true` or `false` as text.
fn truth(holds: bool) -> &'static [u8]
    ensures { result.now ≡ (if holds then codes "true" else codes "false") }
{
    if holds { b"true" } else { b"false" }
}
