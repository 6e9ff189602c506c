//! What happens once something is wrong with the engine: it is ended, and a complaint is written.
ghost use Rattle.std.specs.Prelude.{◌≡◌, ◌⊎◌, [], ◌∷◌, true, None, Some, IfErr, IfOk, IfSome, IsSome, OnOk};
ghost use Rattle.std.specs.Prelude.{◌<◌, ◌^◌, count_by, length, option_map, unwrap_or};
ghost use Rattle.byte_streams.specs.Writing.{BreaksAt, IsFlushed};
ghost use Rattle.gtp_process.specs.Starts.{program_line};
ghost use Rattle.gtp_check_texts.specs.Complaints.{complaint_lines};
ghost use Rattle.gtp_check_talk.specs.Dialogues.{AsksForMore, wrong_of, wrong_talk};
ghost use Rattle.gtp_check_talk.specs.Said.{is_same_lesson, is_same_purpose};
ghost use Rattle.gtp_check_app.specs.Progress.{IsShown, cleared};
ghost use Rattle.gtp_check_talk.specs.Said.{commands_of};
ghost use Rattle.gtp_check_app.specs.Turns.{Closes, HasNoted, IsComplaint, IsReduced, IsShortened, Shortens};
ghost use Rattle.gtp_check_app.specs.Trials.{is_for, limits_of, shortenings_of};
ghost use Rattle.gtp_check_app.specs.Turns.{TriesOne, is_loss};
ghost use Rattle.gtp_check_shortening.specs.Played.{played};
ghost use Rattle.gtp_check_shortening.specs.Reduction.{begun as begun_reduction};
ghost use Rattle.gtp_check_shortening.specs.Superko.{game_before};
ghost use Rattle.gtp_check_app.specs.Sequence.{known_of, point};
ghost use Rattle.gtp_check_app.specs.Turns.{caption_of, moment, shown_of, state_of};
ghost use Rattle.gtp_check_app.specs.Unjudged.{is_blamed};
ghost use Rattle.gtp_check_app.specs.private.LastGames.{games_of};
ghost use Rattle.gtp_check_app.specs.private.Steps.{ComplaintIsFlushed, ComplaintStops};
ghost use Rattle.gtp_check_texts.specs.declared.complaint.Complaint.{Complaint};
ghost use Rattle.cli.specs.declared.failure.Failure.TheVariants as failure;

use crate::check::{Check, purpose_in};
use crate::progress::{clear, show_looking};
use crate::streams::Streams;
use crate::trials::{asked_for, left_by, own_of};
use byte_streams::{WriteOnce, write_text};
use cli::failure::Failure;
use go_board::{Game, KoRule};
use gtp_check_course::{Course, Lesson, Plan};
use gtp_check_judge::{CheckCommand, Kind};
use gtp_check_shortening::flat::{Shortening, commands_of, shortened, shortenings};
use gtp_check_shortening::played::played;
use gtp_check_shortening::superko::{game_before, is_positional};
use gtp_check_shortening::{Limits, Reduction};
use gtp_check_talk::trial::{Trial, Tried, try_commands};
use gtp_check_talk::{Fault, Purpose, Said};
use gtp_check_texts::complaint::{Complaint, complaint_text};
use gtp_check_texts::last_game::Shown;
use gtp_process::{Process, Starter};
use std::alloc::{AllocError, Global};

/// A conversation of at most this many commands isn't shortened.
const FEW_COMMANDS: usize = 12;

/// How many commands the trials of a conversation may send, however short its lesson was.
const LEAST_TRIED: usize = 20_000;

/// A conversation of at most this many commands is shown whole, even if no shorter one was found.
const MOST_WHOLE: usize = 40;

/// What a complaint says about a conversation.
#[derive(Clone, Copy)]
pub struct Caption {
    /// The number of the complaint, counted from 1.
    pub number: u32,
    /// The lesson in which the fault was found.
    pub lesson: Lesson,
    /// How much of the conversation is shown.
    pub shown: Shown,
}

impl<S: Starter> Check<S> {
    /// Ends the engine, with which something is wrong, and leaves the part of the lesson. Writes the complaint, unless
    /// three of its kind were shown.
    #[inline(never)]
    pub fn complain<O: WriteOnce, E: WriteOnce>(
        &mut self,
        fault: Fault,
        plan: &Plan<'_>,
        streams: &mut Streams<O, E>,
        starter: &mut S,
    ) -> Result<(), Failure>
        requires there { IsSome self.old.engine }
        requires judged { is_blamed plan.now.unasked (Some fault) ≡ true }
        ensures flushed { OnOk result
            (ComplaintIsFlushed (known_of S.Process.Process O.WriteOnce E.WriteOnce) plan.now
            (point (state_of self.old) (S.asked starter.old) streams.old) fault
            (point (state_of self.new) (S.asked starter.new) streams.new)) }
        ensures stops { IfErr result (λ why.
            ComplaintStops (known_of S.Process.Process O.WriteOnce E.WriteOnce) plan.now
            (point (state_of self.old) (S.asked starter.old) streams.old) fault
            (point (state_of self.new) (S.asked starter.new) streams.new) why) }
        ensures gone { self.new.engine ≡ None }
    {
        let Some(found) = self.close(fault) else {
            return Ok(());
        };
        let lesson = found.purpose().lesson;
        if !self.tally.find(lesson, fault) {
            return Ok(());
        }
        show_looking(plan.shows_progress, &mut streams.errors);
        match self.shorter(&found, plan, starter)? {
            Some(shorter) => {
                let caption = self.caption_of(lesson, Shown::Whole);
                self.write(&shorter, caption, plan, streams)
            }
            None => {
                let caption = self.caption_of(lesson, shown_unshortened(plan.trials, &found));
                self.write(&found, caption, plan, streams)
            }
        }
    }

    /// The caption of the next complaint.
    fn caption_of(&self, lesson: Lesson, shown: Shown) -> Caption
        ensures { result ≡ caption_of self.now.tally.complaints lesson shown }
    {
        Caption {
            number: self.tally.complaints,
            lesson,
            shown,
        }
    }

    /// Ends the engine, with which this is wrong, and leaves the part in which it was found.
    fn close(&mut self, fault: Fault) -> Option<Tried>
        requires { IsSome self.old.engine }
        ensures found { IsSome result }
        ensures closes { IfSome result (λ found. Closes S.Process.Process fault
            (state_of self.old) (wrong_of found) (state_of self.new)) }
        ensures gone { self.new.engine ≡ None }
    {
        let engine = self.engine.take()?;
        let answered = engine.answered(&self.examiner);
        self.examiner.lost();
        let found = Tried {
            fault,
            answered,
            said: engine.end(),
        };
        note_finding(&mut self.course, found.purpose(), is_loss(fault));
        Some(found)
    }

    /// Clears the progress line, and writes the complaint.
    fn write<O: WriteOnce, E: WriteOnce>(
        &mut self,
        found: &Tried,
        caption: Caption,
        plan: &Plan<'_>,
        streams: &mut Streams<O, E>,
    ) -> Result<(), Failure>
        ensures flushed { OnOk result ((complaint : Complaint)
            × IsComplaint plan.now.rule caption (wrong_of found.now) complaint
            × IsFlushed O.WriteOnce (complaint_lines complaint) streams.old.output streams.new.output
            × IsShown E.WriteOnce plan.now.shows_progress (cleared ∷ [])
            streams.old.errors streams.new.errors) }
        ensures broke { IfErr result (λ why. why ≡ failure.Write
            → (complaint : Complaint) × IsComplaint plan.now.rule caption (wrong_of found.now)
            complaint
            × BreaksAt O.WriteOnce (complaint_lines complaint) streams.old.output streams.new.output
            × IsShown E.WriteOnce plan.now.shows_progress (cleared ∷ [])
            streams.old.errors streams.new.errors) }
        ensures refused { IfErr result (λ why. (why ≡ failure.Write) ⊎ ((why ≡ failure.OutOfMemory)
            × (streams.new ≡ streams.old))) }
        ensures same { state_of self.new ≡ state_of self.old }
    {
        let done = done_in(self.alloc, found, plan.rule)?;
        let complaint = complaint_of(caption, found, plan.rule, &done);
        let text = complaint_text(self.alloc, &complaint)?;
        clear(plan.shows_progress, &mut streams.errors);
        write_text(&mut streams.output, text.as_slice())?;
        Ok(())
    }

    /// Looks for a shorter conversation with the same end: first the last games of this one, and then those with parts
    /// left out.
    fn shorter(
        &mut self,
        found: &Tried,
        plan: &Plan<'_>,
        starter: &mut S,
    ) -> Result<Option<Tried>, Failure>
        ensures shortens { IfOk result (λ shorter. IsShortened S.Process.Process plan.now
            (wrong_of found.now) (moment (state_of self.old) (S.asked starter.old))
            (option_map wrong_of shorter) (moment (state_of self.new) (S.asked starter.new))) }
        ensures refused { IfErr result (λ why. (why ≡ failure.OutOfMemory)
            × AsksForMore (program_line plan.now.words.items)
            (S.asked starter.old) (S.asked starter.new)) }
        ensures engine { self.new.engine ≡ self.old.engine }
    {
        let games = self.last_games(found, plan, starter)?;
        match self.reduced(found, &games, plan, starter)? {
            None => Ok(games.ended),
            Some(best) => Ok(Some(best)),
        }
    }

    /// Tries the last games of a conversation, one shortening after the other, up to the first that has the same end.
    fn last_games(
        &mut self,
        found: &Tried,
        plan: &Plan<'_>,
        starter: &mut S,
    ) -> Result<LastGames, Failure>
        ensures shortens { IfOk result (λ games. Shortens S.Process.Process plan.now
            (wrong_of found.now) (shortenings_of plan.now.trials (wrong_talk (wrong_of found.now)))
            (moment (state_of self.old) (S.asked starter.old))
            (games_of games) (moment (state_of self.new) (S.asked starter.new))) }
        ensures refused { IfErr result (λ why. (why ≡ failure.OutOfMemory)
            × AsksForMore (program_line plan.now.words.items)
            (S.asked starter.old) (S.asked starter.new)) }
        ensures engine { self.new.engine ≡ self.old.engine }
    {
        let talk = found.conversation();
        let all = shortenings_of(self.alloc, talk, plan.trials)?;
        let mut tried: u32 = 0;
        for shortening in &all {
            let commands = shortened(self.alloc, talk, *shortening)?;
            tried += 1;
            if let Some(ended) = self.try_one(found, commands.as_slice(), plan, starter)? {
                let left = left_by(self.alloc, found, commands.as_slice(), &ended)?;
                let ended = Some(ended);
                return Ok(LastGames { ended, tried, left });
            }
        }
        let left = commands_of(self.alloc, talk)?;
        Ok(LastGames {
            ended: None,
            tried,
            left,
        })
    }

    /// Leaves out parts of a conversation, and returns the shortest that was tried and has the same end, if there is
    /// any. It begins with the last games that ended so, or with the whole conversation. An extra `name` isn't among
    /// the commands of which parts are left out.
    fn reduced(
        &mut self,
        found: &Tried,
        games: &LastGames,
        plan: &Plan<'_>,
        starter: &mut S,
    ) -> Result<Option<Tried>, Failure>
        ensures reduced { IfOk result (λ best.
            let longer = unwrap_or (games_of games.now).ended (wrong_of found.now) in
            IsReduced S.Process.Process plan.now (wrong_of found.now)
            (begun_reduction (games_of games.now).left
            (limits_of plan.now (wrong_of found.now) longer games.now.tried))
            (moment (state_of self.old) (S.asked starter.old))
            (option_map wrong_of best) (moment (state_of self.new) (S.asked starter.new))) }
        ensures refused { IfErr result (λ why. (why ≡ failure.OutOfMemory)
            × AsksForMore (program_line plan.now.words.items)
            (S.asked starter.old) (S.asked starter.new)) }
        ensures engine { self.new.engine ≡ self.old.engine }
    {
        let longer = games.ended.as_ref().unwrap_or(found);
        let limits = limits_of(plan, found, longer, games.tried);
        let mut reduction = Reduction::new(self.alloc, games.left.as_slice(), limits)?;
        let mut best = None;
        while let Some(commands) = reduction.next(self.alloc)? {
            let asked = commands.len();
            match self.try_one(found, commands.as_slice(), plan, starter)? {
                None => reduction.failed(asked),
                Some(tried) => {
                    let own = own_of(found, commands.as_slice(), tried.answered);
                    reduction.succeeded(own, asked);
                    best = Some(tried);
                }
            }
        }
        Ok(best)
    }

    /// Asks these commands of a new engine, if a start is left, with `name` between them if a reply may have run on.
    /// Returns what came of it if it ends like the conversation that was found.
    fn try_one(
        &mut self,
        found: &Tried,
        commands: &[CheckCommand],
        plan: &Plan<'_>,
        starter: &mut S,
    ) -> Result<Option<Tried>, Failure>
        ensures tries { IfOk result (λ tried. TriesOne S.Process.Process plan.now
            (wrong_of found.now) commands.now (moment (state_of self.old) (S.asked starter.old))
            (option_map wrong_of tried) (moment (state_of self.new) (S.asked starter.new))) }
        ensures refused { IfErr result (λ why. (why ≡ failure.OutOfMemory)
            × AsksForMore (program_line plan.now.words.items)
            (S.asked starter.old) (S.asked starter.new)) }
        ensures engine { self.new.engine ≡ self.old.engine }
    {
        if !self.examiner.may_start() {
            return Ok(None);
        }
        let asked = asked_for(self.alloc, found, commands)?;
        let commands = asked.as_slice();
        let trial = Trial {
            alloc: self.alloc,
            words: plan.words.as_slice(),
            commands,
            purpose: found.purpose(),
            unasked: plan.unasked,
        };
        let tried = try_commands(
            &trial,
            starter,
            &mut self.examiner,
            &mut self.room,
            &mut self.notes,
        )?;
        let Some(tried) = tried else {
            return Ok(None);
        };
        if tried.ends_like(found) {
            Ok(Some(tried))
        } else {
            Ok(None)
        }
    }
}

/// What came of the last games of a conversation.
#[derive(Drop)]
struct LastGames {
    /// The first of them that ended like it, if one did.
    ended: Option<Tried>,
    /// How many were tried.
    tried: u32,
    /// The commands of the conversation that are left then, without the extra `name`.
    left: Vec<CheckCommand>,
}

/// How much to show of a conversation for which nothing shorter was found, when at most this many trials are made.
fn shown_unshortened(trials: u32, found: &Tried) -> Shown
    ensures { result ≡ shown_of trials None (wrong_of found.now) }
{
    if trials > 0 && found.conversation().len() > MOST_WHOLE {
        Shown::LastGame
    } else {
        Shown::Whole
    }
}

/// The shortenings to try for a conversation, at most this many.
fn shortenings_of(alloc: Global, talk: &[Said], trials: u32) -> Result<Vec<Shortening>, AllocError>
    ensures those { IfOk result (λ all. all.items ≡ shortenings_of trials talk.now) }
    ensures few { IfOk result (λ all. length all.items < 2 ^ 32) }
{
    let mut tried = Vec::new(alloc);
    let all = shortenings();
    for shortening in &all {
        if tried.len() < trials as usize && is_for(alloc, talk, *shortening)? {
            tried.push(*shortening)?;
        }
    }
    Ok(tried)
}

/// Returns whether a conversation is shortened so: it has more commands than a short one, and the shortening leaves
/// fewer.
fn is_for(alloc: Global, talk: &[Said], shortening: Shortening) -> Result<bool, AllocError>
    ensures { IfOk result (λ may. may ≡ is_for talk.now shortening) }
{
    if talk.len() <= FEW_COMMANDS {
        return Ok(false);
    }
    let commands = shortened(alloc, talk, shortening)?;
    Ok(commands.len() < talk.len())
}

/// How much may be tried while parts of `longer` are left out, after this many trials for the conversation that was
/// found.
fn limits_of(plan: &Plan<'_>, found: &Tried, longer: &Tried, tried: u32) -> Limits
    ensures { result ≡ limits_of plan.now (wrong_of found.now) (wrong_of longer.now) tried }
{
    let trials = if longer.conversation().len() > FEW_COMMANDS {
        plan.trials.saturating_sub(tried)
    } else {
        0
    };
    let asked = lesson_commands(found.conversation(), found.purpose());
    Limits {
        trials,
        commands: asked.max(LEAST_TRIED),
    }
}

/// How many of these commands were asked in the lesson of this purpose.
fn lesson_commands(talk: &[Said], purpose: Purpose) -> usize
    ensures { result ≡ count_by (λ said. is_same_lesson purpose said.purpose) talk.now }
{
    talk.iter()
        .filter(|said| purpose.is_same_lesson(said.purpose))
        .count()
}

/// What was done in a conversation up to the command that was answered wrongly, and the game of a correct engine before
/// it.
#[derive(Drop)]
struct Done {
    talk: Vec<Said>,
    game: Option<Game>,
}

/// Returns what was done in a conversation, under this ko rule.
fn done_in(alloc: Global, found: &Tried, rule: KoRule) -> Result<Done, AllocError>
    ensures talk { IfOk result (λ done. done.talk.items ≡ played (wrong_talk (wrong_of found.now))) }
    ensures game { IfOk result (λ done. done.game ≡ game_before rule done.talk.items) }
{
    let talk = played(alloc, found.conversation())?;
    let game = game_before(talk.as_slice(), rule);
    Ok(Done { talk, game })
}

/// The complaint with this caption about a conversation that ended with something wrong. Positional ko can explain a
/// refusal only if a correct engine plays by simple ko.
fn complaint_of<'t>(
    caption: Caption,
    found: &'t Tried,
    rule: KoRule,
    done: &'t Done,
) -> Complaint<'t>
    requires talk { done.now.talk.items ≡ played (wrong_talk (wrong_of found.now)) }
    requires game { done.now.game ≡ game_before rule done.now.talk.items }
    ensures { IsComplaint rule caption (wrong_of found.now) result }
{
    Complaint {
        number: caption.number,
        lesson: caption.lesson,
        fault: found.fault,
        sent: found.said.sent.as_slice(),
        delivered: found.said.delivered,
        talk: found.said.talk.as_slice(),
        answered: found.answered,
        wrote: found.said.wrote.as_slice(),
        ending: found.said.ending,
        is_positional: rule == KoRule::Simple
            && found.fault == Fault::Wrote(Kind::Refused)
            && is_positional(done.talk.as_slice()),
        game: done.game.as_ref(),
        shown: caption.shown,
    }
}

/// Notes a finding in what was asked for this purpose: the course leaves that part, if it is in it. If it is in another
/// part of the lesson, the finding counts there.
fn note_finding(course: &mut Course, purpose: Purpose, is_loss: bool)
    ensures { HasNoted purpose is_loss course.old course.new }
{
    let now = purpose_in(course);
    if purpose.is_same(now) {
        course.leave(is_loss);
    } else if purpose.is_same_lesson(now) {
        course.note_finding(is_loss);
    }
}

/// Returns whether the engine was lost: it was cut off while it owed a reply.
fn is_loss(fault: Fault) -> bool
    ensures { result ≡ is_loss fault }
{
    match fault {
        Fault::Wrote(_) => false,
        Fault::CutOff(_) => true,
    }
}
