//! The program, for any counted reader and writers.
ghost use Rattle.std.specs.Prelude.{◌≡◌, ◌≢◌, ◌⊎◌, map, string_bytes, IfOk, IfErr, IsOkAnd};
ghost use Rattle.cli.specs.Requests.{IsRefused};
ghost use Rattle.gtp_engine_app.specs.Options.{HasNoBook, HasNoFault, IsMistake, Spells};
ghost use Rattle.gtp_engine_app.specs.Program.{FreshCameOut, HasServed, HasHelped};
ghost use Rattle.gtp_engine_app.specs.Program.{IsOutOfMemory, HasMistake, IsShown, ends, streams};
ghost use Rattle.gtp_engine_app.specs.Status.{IsStatus, ReportsEnd, program_name};
ghost use Rattle.gtp_engine_app.specs.Status.{stopped, status_after};
ghost use Rattle.cli.specs.Status.{IsRequest, done, usage_failure};

use crate::failure::{Failure, NAME, report};
use crate::options::{Options, PolicyName, read_options};
use byte_streams::{Broken, WriteOnce};
use clap::error::ErrorKind;
use cli::requests::requested_text;
use go_board::KoRule;
use gtp_session::book::Book;
use gtp_session::fault::Fault;
use gtp_session::first::First;
use gtp_session::policy::Policy;
use gtp_session::random::Random;
use gtp_session::serve::{MOST_READS, ServeFault, Served, serve, serve_with};
use gtp_session::session::Session;
use gtp_session::streams::{Incoming, Outgoing, send};
use std::alloc::{AllocError, Global};
use std::convert::AsStr;

/// Runs the engine with the options of the command line, and returns the program's exit status. The first of `words` is
/// the program's name, the others are its arguments.
///
/// - 0: after `quit` or at the end of the input; or help or the version was asked for and written to `output`;
/// - 2: usage error: also if the value of `--book` is no book, whatever the policy is, or that of `--fault` no fault;
/// - 3: a read or a write failed, there were too many reads, or memory ran out;
/// - 4: the engine stopped at the fault that `--fault` asks for.
///
/// With status 2 or 3 it also writes to `errors` what is wrong, and the status is the same if that fails; with 0 or 4
/// it writes nothing there. `alloc` gives the memory for parsing the arguments and answering them. The conversation
/// allocates nothing.
pub fn run<S: AsStr, R: Incoming, W: Outgoing, E: WriteOnce>(
    alloc: Global,
    words: &[S],
    input: &mut R,
    output: &mut W,
    errors: &mut E,
) -> u8
    ensures status { IsStatus result }
    // After a usage error nothing was read, and nothing went to the output. The first usage error
    // is reported.
    ensures usage { result ≡ usage_failure →
        HasMistake E.WriteOnce (map S.text words.now) errors.old errors.new
        × (input.new ≡ input.old) × (output.new ≡ output.old) }
    // Any other status is that of the conversation that the arguments ask for; or help was asked
    // for, and nothing was read; or nothing was read, nothing went to the output, and it is
    // reported that memory ran out. With status 3 the failure is reported, and nothing else.
    ensures served { let before = streams (ends (R.shown input.old) (W.shown output.old)) errors.old in
        let after = streams (ends (R.shown input.new) (W.shown output.new)) errors.new in
        result ≢ usage_failure → HasServed E.WriteOnce (map S.text words.now) result before after
        ⊎ ((input.new ≡ input.old)
        × HasHelped E.WriteOnce (map S.text words.now) result before after)
        ⊎ (IsOutOfMemory E.WriteOnce result errors.old errors.new
        × (input.new ≡ input.old) × (output.new ≡ output.old)) }
    ensures quiet { (result ≡ done) ⊎ (result ≡ stopped) → errors.new ≡ errors.old }
{
    let options = match read_options(alloc, words) {
        Ok(options) => options,
        Err(error) => return answer_error(error.kind(), error.to_string(alloc), output, errors),
    };
    let (book, fault) = match read_texts(options) {
        Ok(texts) => texts,
        Err(failure) => return report(failure, errors),
    };
    let rule = options.rule;
    let served = match options.policy {
        PolicyName::First => converse(First, rule, fault, input, output),
        PolicyName::Random => converse(Random::new(options.seed), rule, fault, input, output),
        PolicyName::Book => converse(book, rule, fault, input, output),
    };
    end(served, errors)
}

/// The book and the fault of the options.
///
/// # Errors
///
/// `BadBook` if the text of the book is no book; otherwise `BadFault` if that of the fault is no fault.
fn read_texts(options: Options<'_>) -> Result<(Book, Fault), Failure>
    ensures texts { IfOk result (λ texts. Spells options.entry texts.0 texts.1) }
    ensures mistake { IfErr result (IsMistake options.entry) }
{
    let Some(book) = Book::read(options.book.as_bytes()) else {
        return Err(Failure::BadBook);
    };
    match Fault::read(options.fault.as_bytes()) {
        Some(fault) => Ok((book, fault)),
        None => Err(Failure::BadFault),
    }
}

/// Reports why a conversation stopped before its end, and returns the status.
fn end<E: WriteOnce>(served: Result<Served, ServeFault>, errors: &mut E) -> u8
    ensures status { result ≡ status_after served }
    ensures reported { ReportsEnd E.WriteOnce served errors.old errors.new }
    ensures quiet { (result ≡ done) ⊎ (result ≡ stopped) → errors.new ≡ errors.old }
{
    match served {
        Ok(Served::Quit | Served::EndOfInput) => 0,
        Ok(Served::Stopped) => 4,
        Err(fault) => report(Failure::Serve(fault), errors),
    }
}

/// Writes the text of a `clap` error of this kind, and returns the status: help or the version goes to the output,
/// whose calls are counted, and a usage error to `errors`.
fn answer_error<W: Outgoing, E: WriteOnce>(
    kind: ErrorKind,
    text: Result<String, AllocError>,
    output: &mut W,
    errors: &mut E,
) -> u8
    ensures { (IsRefused E.WriteOnce program_name kind text errors.old result errors.new
        × (output.new ≡ output.old))
        ⊎ (IsRequest kind × IsOkAnd text (λ said. IsShown E.WriteOnce (string_bytes said)
        (W.shown output.old) errors.old result (W.shown output.new) errors.new)) }
{
    match requested_text(NAME, kind, text, errors) {
        Ok(text) => show(text.as_bytes(), output, errors),
        Err(status) => status,
    }
}

/// Writes the help or the version, and returns the status.
fn show<W: Outgoing, E: WriteOnce>(text: &[u8], output: &mut W, errors: &mut E) -> u8
    ensures { IsShown E.WriteOnce text.now (W.shown output.old) errors.old
        result (W.shown output.new) errors.new }
{
    match send(output, text) {
        Ok(()) => 0,
        Err(Broken) => report(Failure::Serve(ServeFault::Write), errors),
    }
}

/// Serves a new session with this policy, ko rule and fault.
fn converse<P: Policy, R: Incoming, W: Outgoing>(
    policy: P,
    rule: KoRule,
    fault: Fault,
    reader: &mut R,
    writer: &mut W,
) -> Result<Served, ServeFault>
    ensures { FreshCameOut P.may rule fault policy result
        (ends (R.shown reader.old) (W.shown writer.old))
        (ends (R.shown reader.new) (W.shown writer.new)) }
{
    let mut session = Session::with_rule(policy, rule);
    match fault {
        // `serve_with` would do the same here; without a fault, `serve` serves one read after another.
        Fault::Off => serve(reader, writer, &mut session),
        _ => serve_with(reader, writer, &mut session, MOST_READS, fault),
    }
}
