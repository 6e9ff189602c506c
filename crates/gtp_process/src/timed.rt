//! Processes of the operating system that are waited for only so long.
ghost use Rattle.std.specs.Prelude.{◌≡◌, ⊤, IfSome, None, Some};
ghost use Rattle.gtp_process.specs.Waiting.{late_in};

use crate::limited::LimitedStarter;
use crate::patience::{Limits, Patience};
use crate::poll::{Pipe, Polled, poll_pipe};
use crate::starter::{Ending, Process, StartFault, Starter};
use crate::system::{SystemProcess, SystemStarter};
use byte_streams::CallFault;
use std::io::{IsTerminal, Stderr, Write};
use std::os::fd::{AsRawFd, RawFd};
use std::process::{OpenProcess, Processes};
use std::time::Clock;

/// How many milliseconds a poll waits at most.
const STEP_MILLISECONDS: i32 = 200;

/// The most bytes that are written at once. A pipe that is ready takes so many: no system's `PIPE_BUF` is smaller.
const MOST_WRITTEN: usize = 512;

/// What is noted once a start after a minute without an answer, if there is no limit.
const NOTE: &[u8] =
    b"gtp_check: no answer for 60 seconds, and no limit: see --timeout and --start-timeout\n";

/// Starts processes of the operating system that are waited for only so long.
#[derive(Drop)]
pub struct TimedStarter<'r, R> {
    inner: SystemStarter<'r, R>,
    limits: Limits,
}

/// A process of the operating system that is waited for only so long.
pub struct TimedProcess<P: OpenProcess, C> {
    process: SystemProcess<P, C>,
    patience: Patience,
    /// Where a long wait is noted.
    errors: Stderr,
    /// Whether one was noted.
    is_noted: bool,
    /// The limit in seconds, once an answer was late. The process is cut off then.
    late: Option<u32>,
}

/// How a wait for a pipe ended.
#[derive(Clone, Copy, Debug, PartialEq, Eq, Drop)]
enum Waited {
    /// A call of the pipe returns at once.
    Ready,
    /// The process has exited. What it started still holds the pipe.
    Gone,
    /// An answer is late.
    Late,
}

impl<'r, R> TimedStarter<'r, R> {
    /// Returns a starter of the same processes, which have no limit yet.
    pub fn new(inner: SystemStarter<'r, R>) -> TimedStarter<'r, R> {
        TimedStarter {
            inner,
            limits: Limits {
                first: None,
                later: None,
            },
        }
    }
}

impl<'r, R: Processes + Clock> Starter for TimedStarter<'r, R>
where
    <R::Started as OpenProcess>::Stdin: AsRawFd,
    <R::Started as OpenProcess>::Stdout: AsRawFd,
{
    type Process = TimedProcess<R::Started, &'r R>;

    ghost asked = { λ _. None };

    fn start(&mut self, words: &[&str]) -> Result<TimedProcess<R::Started, &'r R>, StartFault> {
        match self.inner.start(words) {
            Ok(process) => Ok(TimedProcess {
                process,
                patience: Patience::new(self.limits),
                errors: self.inner.errors,
                is_noted: false,
                late: None,
            }),
            Err(fault) => Err(fault),
        }
    }
}

impl<'r, R: Processes + Clock> LimitedStarter for TimedStarter<'r, R>
where
    <R::Started as OpenProcess>::Stdin: AsRawFd,
    <R::Started as OpenProcess>::Stdout: AsRawFd,
{
    fn limit(&mut self, limits: Limits) {
        self.limits = limits;
    }
}

impl<P: OpenProcess, C> TimedProcess<P, C>
where
    P::Stdin: AsRawFd,
    P::Stdout: AsRawFd,
{
    /// Waits until a call of a pipe returns at once, the process has exited, or an answer is late.
    fn wait_for(&mut self, pipe: Pipe) -> Waited {
        if self.late.is_some() {
            return Waited::Late;
        }
        let Some(number) = self.number_of(pipe) else {
            return Waited::Ready;
        };
        for _step in 0..u64::MAX {
            match poll_pipe(pipe, number, STEP_MILLISECONDS) {
                Polled::Ready => return Waited::Ready,
                Polled::TimedOut => {
                    if let Some(waited) = self.after_step(pipe, number) {
                        return waited;
                    }
                }
            }
        }
        Waited::Ready
    }

    /// Returns the number of a pipe, if there is one.
    fn number_of(&self, pipe: Pipe) -> Option<RawFd> {
        match pipe {
            Pipe::Input => self.process.input_number(),
            Pipe::Output => self.process.output_number(),
        }
    }

    /// Takes a poll that timed out, and returns how the wait ended, if it has. What a process wrote just before it
    /// exited is still read.
    fn after_step(&mut self, pipe: Pipe, number: RawFd) -> Option<Waited> {
        if self.process.has_exited() {
            return Some(match poll_pipe(pipe, number, 0) {
                Polled::Ready => Waited::Ready,
                Polled::TimedOut => Waited::Gone,
            });
        }
        self.patience.wait();
        if !self.is_noted && self.patience.is_long() {
            self.is_noted = true;
            note(&mut self.errors);
        }
        self.late = self.patience.late();
        match self.late {
            Some(_) => Some(Waited::Late),
            None => None,
        }
    }
}

/// Notes a long wait. On a terminal the line of the progress stays above it.
fn note(errors: &mut Stderr) {
    if errors.is_terminal() {
        let _ = errors.write(b"\n");
    }
    let _ = errors.write(NOTE);
}

impl<P: OpenProcess + Drop, C: Clock + Drop> Process for TimedProcess<P, C>
where
    P::Stdin: AsRawFd,
    P::Stdout: AsRawFd,
{
    ghost taken = { λ _. None };

    ghost given = { λ _. None };

    ghost fails = { λ _ _ _. ⊤ };

    ghost succeeds = { λ _ _. ⊤ };

    ghost runs_out = { λ _ _. ⊤ };

    ghost leaves = { λ _ _. ⊤ };

    ghost flushed = { λ _. ⊤ };

    fn read(&mut self, buffer: &mut [u8]) -> Result<usize, CallFault> {
        match self.wait_for(Pipe::Output) {
            Waited::Ready => {
                let outcome = self.process.read(buffer);
                if let Ok(count) = outcome {
                    self.patience.hear(&buffer[..count]);
                }
                outcome
            }
            Waited::Gone => Ok(0),
            Waited::Late => Err(CallFault::Other),
        }
    }

    fn write(&mut self, text: &[u8]) -> Result<usize, CallFault> {
        match self.wait_for(Pipe::Input) {
            Waited::Ready => self.process.write(&text[..MOST_WRITTEN.min(text.len())]),
            Waited::Gone | Waited::Late => Err(CallFault::Other),
        }
    }

    fn flush(&mut self) -> Result<(), CallFault> {
        self.process.flush()
    }

    fn let_run_first(&self) {
        self.process.let_run_first();
    }

    fn let_read(&self) {
        self.process.let_read();
    }

    fn end(self) -> Ending {
        let TimedProcess {
            process,
            patience: _,
            errors: _,
            is_noted: _,
            late,
        } = self;
        let ending = process.end();
        match late {
            Some(seconds) => Ending::Late(seconds),
            None => ending,
        }
    }
}
