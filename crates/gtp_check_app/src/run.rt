//! The program, over any streams and any means to start processes.
ghost use Rattle.std.specs.Prelude.{◌≡◌, IfNone, IfSome, codes, map};
ghost use Rattle.gtp_process.specs.declared.causes.Unstarted.{Unstarted};
ghost use Rattle.clap.specs.declared.error.kind.ErrorKind.TheVariants.{UnknownArgument};
ghost use Rattle.byte_streams.specs.Writing.{WritesOrBreaks};
ghost use Rattle.gtp_process.specs.Shown.{unstarted_text};
ghost use Rattle.cli.specs.Requests.{writers};
ghost use Rattle.cli.specs.Status.{error_line};
ghost use Rattle.gtp_check_app.specs.Checks.{Ends, HasRun, IsFirstFailure, outputs_of};
ghost use Rattle.gtp_check_app.specs.Sequence.{beginning, known_of};
ghost use Rattle.gtp_check_app.specs.Status.{IsStatus, hint_line};
ghost use Rattle.gtp_check_app.specs.private.Answering.{IsAnswered, Lists};

use crate::check::Check;
use crate::failure::NAME;
use crate::limits::limits_of;
use crate::misplaced::{has_words_after, report_misplaced};
use crate::options::read_options;
use crate::plan::plan_of;
use crate::progress::clear;
use crate::streams::Streams;
use arrayvec::ArrayVec;
use byte_streams::{WriteOnce, write_or_break, write_text};
use clap::error::ErrorKind;
use cli::failure::Failure;
use cli::requests::{answer_error, show};
use go_base::push;
use gtp_check_course::Plan;
use gtp_check_texts::listing::list_text;
use gtp_check_texts::summary::Over;
use gtp_process::{LimitedStarter, Starter, Unstarted, push_unstarted};
use std::alloc::{AllocError, Global};
use std::convert::AsStr;

/// Does what the arguments ask for; the first one is the program's name. It checks the engine that they name, and
/// writes the complaints to the output. It returns the exit status:
///
/// - 0 if nothing was found, each lesson was completed, and in each a `play` or a `genmove` was answered correctly; and
///   if the arguments ask for the help, the version or the list of lessons, which is written to the output;
/// - 1 if something was found;
/// - 2 for a usage error, if no lesson is left, or if the engine couldn't be started at the first try;
/// - 3 if the output can't be written, memory can't be allocated, or a check took too many turns;
/// - 4 if nothing was found, but some lesson wasn't completed, or had no `play` or `genmove` that was answered
///   correctly.
///
/// It writes the reason of a status of 2 or 3 to standard error; whether that can be written changes nothing. With
/// `shows_progress`, standard error is a terminal: it also shows there what it waits for. Each progress line replaces
/// the one before, and is cleared before anything else is written.
pub fn run<A: AsStr, O: WriteOnce, E: WriteOnce, S: LimitedStarter>(
    alloc: Global,
    words: &[A],
    shows_progress: bool,
    streams: &mut Streams<O, E>,
    starter: &mut S,
) -> u8
    ensures status { IsStatus result }
    ensures ran { HasRun (known_of S.Process.Process O.WriteOnce E.WriteOnce)
        (map A.text words.now) shows_progress (S.asked starter.old) streams.old
        result (S.asked starter.new) streams.new }
{
    let options = match read_options(alloc, words) {
        Ok(options) => options,
        Err(error) => return answer(error.kind(), error.to_string(alloc), streams),
    };
    if has_words_after(words) {
        return report_misplaced(alloc, words, &mut streams.errors);
    }
    if options.list {
        return list(alloc, streams);
    }
    let plan = match plan_of(alloc, &options, shows_progress) {
        Ok(plan) => plan,
        Err(error) => return error.report(NAME, &mut streams.errors),
    };
    starter.limit(limits_of(&options));
    match check(alloc, &plan, streams, starter) {
        Ok(status) => status,
        Err(failure) => failure.report(NAME, &mut streams.errors),
    }
}

/// The hint after an unknown argument or option.
const HINT: &[u8] =
    b"An engine's command is one argument, in quotes: gtp_check 'gnugo --mode gtp'\n";

/// Handles an error that `clap` returns instead of options, and returns the status. After an unknown argument or option
/// comes a hint, since most of these belong to the engine's command.
fn answer<O: WriteOnce, E: WriteOnce>(
    kind: ErrorKind,
    text: Result<String, AllocError>,
    streams: &mut Streams<O, E>,
) -> u8
    ensures { IsAnswered (writers O.WriteOnce E.WriteOnce) kind text
        (outputs_of streams.old) result (outputs_of streams.new) }
{
    let status = answer_error(NAME, kind, text, &mut streams.output, &mut streams.errors);
    if status == 2 {
        hint(kind, &mut streams.errors);
    }
    status
}

/// Writes the hint, if there was such an argument.
fn hint<E: WriteOnce>(kind: ErrorKind, errors: &mut E)
    ensures hint { kind ≡ UnknownArgument → WritesOrBreaks E.WriteOnce hint_line errors.old errors.new }
    ensures no_hint { (kind ≡ UnknownArgument → ⊥) → errors.new ≡ errors.old }
{
    if kind == ErrorKind::UnknownArgument {
        write_or_break(errors, HINT);
    }
}

/// Writes the list of lessons, and returns the status.
fn list<O: WriteOnce, E: WriteOnce>(alloc: Global, streams: &mut Streams<O, E>) -> u8
    ensures { Lists (writers O.WriteOnce E.WriteOnce)
        (outputs_of streams.old) result (outputs_of streams.new) }
{
    let Ok(text) = list_text(alloc) else {
        return Failure::OutOfMemory.report(NAME, &mut streams.errors);
    };
    show(
        NAME,
        text.as_slice(),
        &mut streams.output,
        &mut streams.errors,
    )
}

/// Checks an engine as a plan says, and returns the status.
fn check<O: WriteOnce, E: WriteOnce, S: Starter>(
    alloc: Global,
    plan: &Plan<'_>,
    streams: &mut Streams<O, E>,
    starter: &mut S,
) -> Result<u8, Failure>
    ensures { Ends (known_of S.Process.Process O.WriteOnce E.WriteOnce)
        (beginning plan.now (S.asked starter.old) streams.old) result
        (S.asked starter.new) streams.new }
{
    let mut check: Check<S> = Check::new(alloc, plan);
    let turns = check.take_turns(plan, streams, starter);
    clear(plan.shows_progress, &mut streams.errors);
    match turns {
        Ok(over) => {
            let status = check.status(plan);
            let starts = check.starts();
            let lines = check.end(plan, &over)?;
            if let Some(unstarted) = first_failure(&over, starts) {
                report_unstarted(unstarted, &mut streams.errors);
                return Ok(2);
            }
            write_text(&mut streams.output, lines.as_slice())?;
            Ok(status)
        }
        Err(failure) => {
            check.end_at_once();
            Err(failure)
        }
    }
}

/// Why the engine couldn't be started at the first try, if that is why the check is over after this many starts.
fn first_failure(over: &Over, starts: u32) -> Option<&Unstarted>
    ensures failed { IfSome result (λ start. IsFirstFailure over.now starts start.now) }
    ensures none { IfNone result ((start : Unstarted) → IsFirstFailure over.now starts start → ⊥) }
{
    match over {
        Over::NotStarted(unstarted) if starts == 0 => Some(unstarted),
        _ => None,
    }
}

/// Reports that the engine couldn't be started at the first try.
fn report_unstarted<E: WriteOnce>(unstarted: &Unstarted, errors: &mut E)
    ensures { WritesOrBreaks E.WriteOnce
        (error_line (codes "gtp_check") (unstarted_text unstarted.now)) errors.old errors.new }
{
    let mut line: ArrayVec<u8, 420> = ArrayVec::new();
    push(&mut line, b"gtp_check: ");
    push_unstarted(&mut line, unstarted);
    push(&mut line, b"\n");
    write_or_break(errors, line.as_slice());
}
