//! Processes of the operating system.
ghost use Rattle.std.specs.Prelude.{◌≡◌, ◌≢◌, ⊤, length, None, IfErr, IfOk, IsErrAnd, IsErrOf, IsOkAnd};
ghost use Rattle.std.specs.IoError.{error_kind, raw_os_error};
ghost use Rattle.std.specs.Process.{exit_code, exit_signal};
ghost use Rattle.gtp_process.specs.Starts.{kind_reason, limit_of, reason_of, start_fault_of};
ghost use Rattle.gtp_process.specs.Endings.{reported_ending};
ghost use Rattle.gtp_process.specs.Pipes.{shows_break};

use crate::ending::{after_kill, reported_ending};
use crate::precedence::Precedence;
use crate::starter::{Ending, Process, StartFault, StartReason, Starter};
use byte_streams::{CallFault, outcome_of};
use std::alloc::Global;
use std::cell::Cell;
use std::io;
use std::io::{ErrorKind, Read, Stderr, Write};
use std::os::fd::{AsRawFd, RawFd};
use std::os::unix::process::ExitStatusExt;
use std::process::{Child, Command, ExitStatus, OpenProcess, Processes, Stdio};
use std::time::{Clock, Duration};

/// The system's error number when no more files can be opened in the whole system: the same on Linux, the BSDs and
/// macOS.
const ENFILE: i32 = 23;

/// The system's error number when no more files can be opened in this process: the same on these systems too.
const EMFILE: i32 = 24;

/// How often to check a process that may be about to exit, with a pause after each check.
const MOST_PAUSES: u32 = 200;

/// How many milliseconds a pause has.
const PAUSE_MILLISECONDS: u64 = 1;

/// How many milliseconds a process has to read what it was sent before it is sent more.
const READ_MILLISECONDS: u64 = 10;

/// Starts processes of the operating system. Their standard error is this program's.
#[derive(Drop)]
pub struct SystemStarter<'r, R> {
    /// The memory for the command.
    pub alloc: Global,
    /// The right to start processes, and the clock.
    pub system: &'r R,
    /// The standard error that each process is given.
    pub errors: Stderr,
}

/// A process of the operating system.
pub struct SystemProcess<P: OpenProcess, C> {
    child: Child<P>,
    clock: C,
    /// Whether it goes first before it is read.
    precedence: Cell<Precedence>,
    /// Whether its output ended, or another call of a pipe broke. It may be about to exit then.
    is_broken: bool,
}

impl<'r, R: Processes + Clock> Starter for SystemStarter<'r, R> {
    type Process = SystemProcess<R::Started, &'r R>;

    ghost asked = { λ _. None };

    fn start(&mut self, words: &[&str]) -> Result<SystemProcess<R::Started, &'r R>, StartFault>
        // Without a word there is no program.
        ensures no_word { length words.now ≡ 0 →
            IsErrOf result (StartFault.NotStarted StartReason.NotFound) }
    {
        let spawned = spawn_program(self.alloc, self.system, self.errors, words);
        process_of(spawned, self.system)
    }
}

/// Returns the process of a child that was started, which goes first from its second read on, or the reason why there
/// is none.
fn process_of<P: OpenProcess, C: Drop>(
    spawned: io::Result<Child<P>>,
    clock: C,
) -> Result<SystemProcess<P, C>, StartFault>
    ensures started { IfOk spawned (λ child.
        IsOkAnd result (λ process. process.child ≡ child)) }
    ensures refused { IfErr spawned (λ error.
        IsErrOf result (start_fault_of (raw_os_error error) (error_kind error))) }
{
    match spawned {
        Ok(child) => Ok(SystemProcess {
            child,
            clock,
            precedence: Cell::new(Precedence::Starting),
            is_broken: false,
        }),
        Err(error) => Err(start_fault_of(&error)),
    }
}

/// Starts the program that the first word names. Standard error is passed by name, so that if it is closed, a file that
/// has taken its number isn't inherited.
fn spawn_program<R: Processes>(
    alloc: Global,
    processes: &R,
    errors: Stderr,
    words: &[&str],
) -> io::Result<Child<R::Started>>
    // Without a word there is no program.
    ensures no_word { length words.now ≡ 0 → IsErrAnd result (λ error.
        (error_kind error ≡ ErrorKind.NotFound) × (raw_os_error error ≡ None)) }
{
    let Some((program, arguments)) = words.split_first() else {
        return Err(io::Error::new(ErrorKind::NotFound, "no word"));
    };
    let mut command = Command::new(alloc, *program)?;
    command.args(arguments)?;
    command
        .stdin(Stdio::piped())
        .stdout(Stdio::piped())
        .stderr(errors);
    command.spawn(processes)
}

/// Returns why no process was started: not enough memory, or a reason of the system.
pub fn start_fault_of(error: &io::Error) -> StartFault
    ensures { result ≡ start_fault_of (raw_os_error error.now) (error_kind error.now) }
{
    match error.kind() {
        ErrorKind::OutOfMemory => StartFault::OutOfMemory,
        kind => StartFault::NotStarted(reason_of(error.raw_os_error(), kind)),
    }
}

/// Returns why the system didn't start a program: by the error's number if it is that of a limit of files, otherwise by
/// its kind.
fn reason_of(number: Option<i32>, kind: ErrorKind) -> StartReason
    ensures { result ≡ reason_of number kind }
{
    match limit_of(number) {
        Some(limit) => limit,
        None => kind_reason(kind),
    }
}

/// Returns the limit of files that was reached, by the error's number, if it is such an error. Rust has no kind for it.
fn limit_of(number: Option<i32>) -> Option<StartReason>
    ensures { result ≡ limit_of number }
{
    match number {
        Some(ENFILE | EMFILE) => Some(StartReason::NoFiles),
        _ => None,
    }
}

/// Returns why the system didn't start a program, by the error's kind. When no more processes can be started, the error
/// is `EAGAIN`: its number differs between systems, but its kind is `WouldBlock` on each, and no other error of a start
/// is of that kind. An error without a kind of its own mostly means that the file isn't a program.
fn kind_reason(kind: ErrorKind) -> StartReason
    ensures { result ≡ kind_reason kind }
{
    match kind {
        ErrorKind::NotFound => StartReason::NotFound,
        ErrorKind::PermissionDenied => StartReason::NotAllowed,
        ErrorKind::NotADirectory => StartReason::NotADirectory,
        ErrorKind::ExecutableFileBusy => StartReason::Busy,
        ErrorKind::ArgumentListTooLong | ErrorKind::InvalidFilename => StartReason::TooLong,
        ErrorKind::WouldBlock => StartReason::NoProcesses,
        ErrorKind::Uncategorized => StartReason::NoProgram,
        _ => StartReason::Other,
    }
}

impl<P: OpenProcess, C> SystemProcess<P, C> {
    /// Returns the number of the pipe to its standard input, if there is one.
    pub fn input_number(&self) -> Option<RawFd>
    where
        P::Stdin: AsRawFd,
    {
        match &self.child.stdin {
            Some(stdin) => Some(stdin.as_raw_fd()),
            None => None,
        }
    }

    /// Returns the number of the pipe from its standard output, if there is one.
    pub fn output_number(&self) -> Option<RawFd>
    where
        P::Stdout: AsRawFd,
    {
        match &self.child.stdout {
            Some(stdout) => Some(stdout.as_raw_fd()),
            None => None,
        }
    }

    /// Returns whether it has exited. What it started may still hold its pipes then.
    pub fn has_exited(&mut self) -> bool {
        match self.child.try_wait() {
            Ok(Some(_)) => true,
            Ok(None) | Err(_) => false,
        }
    }
}

impl<P: OpenProcess + Drop, C: Clock + Drop> Process for SystemProcess<P, C> {
    ghost taken = { λ _. None };

    ghost given = { λ _. None };

    ghost fails = { λ _ _ _. ⊤ };

    ghost succeeds = { λ _ _. ⊤ };

    ghost runs_out = { λ _ _. ⊤ };

    ghost leaves = { λ _ _. ⊤ };

    ghost flushed = { λ _. ⊤ };

    fn read(&mut self, buffer: &mut [u8]) -> Result<usize, CallFault> {
        let Some(stdout) = &mut self.child.stdout else {
            return Err(CallFault::Other);
        };
        let outcome = outcome_of(stdout.read(buffer));
        self.is_broken |= shows_break(outcome, buffer.len());
        outcome
    }

    fn write(&mut self, text: &[u8]) -> Result<usize, CallFault> {
        let Some(stdin) = &mut self.child.stdin else {
            return Err(CallFault::Other);
        };
        let outcome = outcome_of(stdin.write(text));
        self.is_broken |= shows_break(outcome, text.len());
        outcome
    }

    fn flush(&mut self) -> Result<(), CallFault> {
        let Some(stdin) = &mut self.child.stdin else {
            return Err(CallFault::Other);
        };
        outcome_of(stdin.flush())
    }

    fn let_run_first(&self) {
        let next = self.precedence.get().let_run_first(&self.clock);
        self.precedence.set(next);
    }

    fn let_read(&self) {
        self.clock.sleep(Duration::from_millis(READ_MILLISECONDS));
    }

    fn end(self) -> Ending {
        let SystemProcess {
            mut child,
            clock,
            precedence: _,
            is_broken,
        } = self;
        // Its input stays open meanwhile, because an engine that is still running may exit at the end of its input.
        if is_broken {
            wait_a_while(&mut child, &clock);
        }
        match child.try_wait() {
            Ok(Some(status)) => ending_of(status),
            Ok(None) | Err(_) => after_kill(kill(child)),
        }
    }
}

/// Whether the result of a call of a pipe, which was asked for `asked` bytes, shows that the pipe is closed at the
/// other end or fails.
fn shows_break(outcome: Result<usize, CallFault>, asked: usize) -> bool
    ensures { result ≡ shows_break asked outcome }
{
    match outcome {
        Ok(count) => count == 0 && asked > 0,
        Err(fault) => fault == CallFault::Other,
    }
}

/// Waits until a process has exited, for at most about 200 milliseconds.
fn wait_a_while<P: OpenProcess, C: Clock>(child: &mut Child<P>, clock: &C) {
    for _pause in 0..MOST_PAUSES {
        match child.try_wait() {
            Ok(None) => clock.sleep(Duration::from_millis(PAUSE_MILLISECONDS)),
            Ok(Some(_)) | Err(_) => return,
        }
    }
}

/// Kills a process, waits for it, and returns how it ended. If it can't be killed, this waits until it exits by itself.
fn kill<P: OpenProcess + Drop>(mut child: Child<P>) -> Ending {
    let _ = child.kill();
    drop(child.stdin.take());
    drop(child.stdout.take());
    match child.wait() {
        Ok(status) => ending_of(status),
        Err(_) => Ending::Unknown,
    }
}

/// Returns how a process with this exit status ended.
fn ending_of(status: ExitStatus) -> Ending
    ensures { result ≡ reported_ending (exit_code status) (exit_signal status) }
{
    reported_ending(status.code(), status.signal())
}
