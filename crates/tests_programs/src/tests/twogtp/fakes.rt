//! Engines in memory, in place of processes.
ghost use Rattle.std.specs.Prelude.{⊤, None};

use crate::tests::streams::Counts;
use byte_streams::CallFault;
use go_board::KoRule;
use gtp_process::{Ending, Process, StartFault, StartReason, Starter};
use gtp_session::book::Book;
use gtp_session::fault::Fault;
use gtp_session::first::First;
use gtp_session::policy::Policy;
use gtp_session::session::{Fed, Session};
use std::alloc::{AllocError, Global};
use std::cell::Cell;
use std::io::Read;
use std::rc::Rc;

/// What an engine in memory does.
#[derive(Drop)]
enum Engine {
    /// Plays the first candidate.
    First(Session<First>),
    /// Plays by a book.
    Book(Session<Book>),
    /// Writes what it is sent, and nothing else.
    Echoes,
    /// Takes all that it is sent, and writes one text.
    Says,
    /// Takes all that it is sent, and can't be read.
    Mute,
}

/// What an engine wrote, how much of that was read, its fault, how many of its genmoves succeeded, and whether it has
/// stopped.
#[derive(Drop)]
struct Said {
    written: Vec<u8>,
    read: usize,
    fault: Fault,
    genmoves: u32,
    is_stopped: bool,
}

impl Said {
    /// Writes a reply, or what the fault puts in its place.
    fn add(&mut self, reply: &[u8], genmove: bool) -> Result<(), AllocError> {
        if genmove {
            self.genmoves = self.genmoves.saturating_add(1);
        }
        match self.fault {
            Fault::Stop(number) if genmove && number == self.genmoves => {
                self.is_stopped = true;
                Ok(())
            }
            Fault::Cut(number, kept) if genmove && number == self.genmoves => {
                self.is_stopped = true;
                let kept = reply.len().min(kept as usize);
                self.written.extend_from_slice(&reply[..kept])
            }
            Fault::Junk(number) if genmove && number == self.genmoves => {
                self.written.extend_from_slice(b"hello\n\n")
            }
            Fault::Flood(number) if genmove && number == self.genmoves => {
                self.written.extend_from_slice(&[b'\n'; 8193])
            }
            _ => self.written.extend_from_slice(reply),
        }
    }
}

/// A conversation with an engine in memory. Each call of its pipes is interrupted this often before it goes through.
pub struct Talk {
    engine: Engine,
    said: Said,
    often: u32,
    interruptions: u32,
    counts: Rc<Counts>,
}

impl Talk {
    /// Interrupts a call, unless it was interrupted often enough.
    fn interrupt(&mut self) -> Result<(), CallFault> {
        if self.interruptions < self.often {
            self.interruptions = self.interruptions.saturating_add(1);
            add(&self.counts.interrupted, 1);
            return Err(CallFault::Interrupted);
        }
        self.interruptions = 0;
        Ok(())
    }
}

/// Feeds the text to a session, and writes its replies until it stops.
fn answer<P: Policy>(
    session: &mut Session<P>,
    text: &[u8],
    said: &mut Said,
) -> Result<(), AllocError> {
    let mut rest = text;
    for _ in 0..text.len() {
        let Fed {
            used,
            reply,
            ended: _,
            genmove,
        } = session.feed(rest);
        match reply {
            Some(reply) => said.add(reply.as_slice(), genmove)?,
            None => return Ok(()),
        }
        if said.is_stopped {
            return Ok(());
        }
        rest = &rest[used..];
    }
    Ok(())
}

impl Process for Talk {
    ghost taken = { λ _. None };

    ghost given = { λ _. None };

    ghost fails = { λ _ _ _. ⊤ };

    ghost succeeds = { λ _ _. ⊤ };

    ghost runs_out = { λ _ _. ⊤ };

    ghost leaves = { λ _ _. ⊤ };

    ghost flushed = { λ _. ⊤ };

    fn read(&mut self, buffer: &mut [u8]) -> Result<usize, CallFault> {
        self.interrupt()?;
        if matches!(&self.engine, Engine::Mute) {
            return Err(CallFault::Other);
        }
        let Some(mut left) = self.said.written.get(self.said.read..) else {
            return Err(CallFault::Other);
        };
        match left.read(buffer) {
            Ok(count) => {
                self.said.read = self.said.read.saturating_add(count);
                Ok(count)
            }
            Err(_) => Err(CallFault::Other),
        }
    }

    fn write(&mut self, text: &[u8]) -> Result<usize, CallFault> {
        if self.said.is_stopped {
            return Err(CallFault::Other);
        }
        self.interrupt()?;
        add(&self.counts.writes, 1);
        if text == b"quit\n".as_slice() {
            add(&self.counts.quits, 1);
            add(&self.counts.flushed_by_quits, self.counts.flushed.get());
        }
        let answered = match &mut self.engine {
            Engine::First(session) => answer(session, text, &mut self.said),
            Engine::Book(session) => answer(session, text, &mut self.said),
            Engine::Echoes => self.said.written.extend_from_slice(text),
            Engine::Says | Engine::Mute => Ok(()),
        };
        match answered {
            Ok(()) => Ok(text.len()),
            Err(AllocError) => Err(CallFault::Other),
        }
    }

    fn flush(&mut self) -> Result<(), CallFault> {
        self.interrupt()
    }

    fn let_run_first(&self) {}

    fn let_read(&self) {}

    fn end(self) -> Ending {
        let Talk {
            engine,
            said,
            often: _,
            interruptions: _,
            counts,
        } = self;
        add(&counts.ended, 1);
        drop(engine);
        drop(said);
        drop(counts);
        Ending::Status(7)
    }
}

/// Counts this many more.
fn add(count: &Cell<usize>, more: usize) {
    count.set(count.get().saturating_add(more));
}

/// Starts engines in memory: those of a policy, or of a book and a fault, and some that are no engines.
#[derive(Drop)]
pub struct InMemory {
    pub alloc: Global,
    pub counts: Rc<Counts>,
    /// The number of the start, from 1, at which memory runs out; 0 for none.
    pub refused: usize,
}

impl Starter for InMemory {
    type Process = Talk;

    ghost asked = { λ _. None };

    fn start(&mut self, words: &[&str]) -> Result<Talk, StartFault> {
        let (engine, text, fault) = match words {
            ["first"] | ["first", "interrupted", _] => (
                Engine::First(Session::new(First)),
                "",
                "none",
            ),
            ["positional"] => {
                let session = Session::with_rule(First, KoRule::Positional);
                (Engine::First(session), "", "none")
            }
            ["book", book] => (book_engine(book)?, "", "none"),
            ["book", book, fault] => (book_engine(book)?, "", *fault),
            ["cat"] => (Engine::Echoes, "", "none"),
            ["echo", "hello"] => (Engine::Says, "hello\n", "none"),
            ["mute"] => (Engine::Mute, "", "none"),
            ["refuses"] => (Engine::Says, "?1 no\n\n", "none"),
            _ => return Err(StartFault::NotStarted(StartReason::NotFound)),
        };
        add(&self.counts.started, 1);
        add(&self.counts.flushed_by_starts, self.counts.flushed.get());
        if self.counts.started.get() == self.refused {
            return Err(StartFault::OutOfMemory);
        }
        let Some(fault) = Fault::read(fault.as_bytes()) else {
            return Err(StartFault::NotStarted(StartReason::NoProgram));
        };
        let often = match words {
            ["first", "interrupted", "once"] => 1,
            ["first", "interrupted", "often"] => 1000,
            _ => 0,
        };
        match make_talk(self.alloc, engine, fault, text, often, &self.counts) {
            Ok(started) => Ok(started),
            Err(AllocError) => Err(StartFault::OutOfMemory),
        }
    }
}

/// A conversation with an engine that wrote this text at once.
fn make_talk(
    alloc: Global,
    engine: Engine,
    fault: Fault,
    text: &str,
    often: u32,
    counts: &Rc<Counts>,
) -> Result<Talk, AllocError> {
    let mut written = Vec::new(alloc);
    written.extend_from_slice(text.as_bytes())?;
    let said = Said {
        written,
        read: 0,
        fault,
        genmoves: 0,
        is_stopped: false,
    };
    Ok(Talk {
        engine,
        said,
        often,
        interruptions: 0,
        counts: counts.clone()?,
    })
}

/// An engine that plays by this book.
fn book_engine(text: &str) -> Result<Engine, StartFault> {
    match Book::read(text.as_bytes()) {
        Some(book) => Ok(Engine::Book(Session::new(book))),
        None => Err(StartFault::NotStarted(StartReason::NoProgram)),
    }
}
