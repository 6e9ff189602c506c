//! Engines as processes: how to start one, send to it, read from it and end it.
ghost use Rattle.std.specs.Prelude.{◌≡◌, ◌≤◌, ◌<◌, ℕ, List, length, Option, IfOk, IfErr, OnOk};
ghost use Rattle.std.specs.Io.KnownBytes.{WriteAppends, Keeps};
ghost use Rattle.gtp_process.specs.Starts.{Attempts, Tries, program_line};
ghost use Rattle.gtp_process.specs.declared.starter.Ending.{Ending};
ghost use Rattle.byte_streams.specs.declared.calls.CallFault.{CallFault};
ghost use Rattle.byte_streams.specs.declared.calls.CallFault.TheVariants as call_fault;

use byte_streams::CallFault;

/// Why no process was started.
#[derive(Clone, Copy, Debug, PartialEq, Eq, Drop)]
pub enum StartFault {
    /// There wasn't enough memory.
    OutOfMemory,
    /// The system didn't start it.
    NotStarted(StartReason),
}

/// Why the system didn't start a program.
#[derive(Clone, Copy, Debug, PartialEq, Eq, Drop)]
pub enum StartReason {
    /// There is no such file.
    NotFound,
    /// It may not be executed.
    NotAllowed,
    /// A part of its path isn't a directory.
    NotADirectory,
    /// The file is open for writing.
    Busy,
    /// Its name or its arguments are too long.
    TooLong,
    /// The limit of open files is reached.
    NoFiles,
    /// The limit of processes is reached.
    NoProcesses,
    /// The file isn't a program.
    NoProgram,
    /// Anything else.
    Other,
}

/// How a process ended.
#[derive(Clone, Copy, Debug, PartialEq, Eq, Drop)]
pub enum Ending {
    /// Not known.
    Unknown,
    /// By itself, with this status.
    Status(u32),
    /// By this signal.
    Signal(u32),
    /// It was still running, and this program killed it.
    Running,
    /// It didn't answer within this many seconds, and this program killed it.
    Late(u32),
}

/// Starts processes.
pub trait Starter {
    /// A process that was started. It is not `Drop`, so the compiler rejects any path on which a process isn't ended.
    type Process: Process;

    // All attempts to start a program, with their results, where they are known.
    ghost asked: { Self → Attempts Self.Process };

    /// Starts the program that the first word names, with the other words as its arguments.
    ///
    /// # Errors
    ///
    /// `OutOfMemory` if there isn't enough memory, otherwise `NotStarted` with the reason.
    fn start(&mut self, words: &[&str]) -> Result<Self::Process, StartFault>
        ensures asked { Tries (asked self.old) (asked self.new) (program_line words.now) result };
}

/// A process that was started, with pipes to its standard input and from its standard output. Each of `read`, `write`
/// and `flush` is one call of a pipe.
pub trait Process {
    // All bytes that it was sent, where they are known.
    ghost taken: { Self → Option (List ℕ) };

    // All bytes that it wrote, where they are known.
    ghost given: { Self → Option (List ℕ) };

    // A call that failed for this cause led from the first state to the second.
    ghost fails: { Self → CallFault → Self → Type 0 };

    // A call that read or wrote a byte, or flushed what was sent, led from the first state to the second.
    ghost succeeds: { Self → Self → Type 0 };

    // A read that met the end of its output led from the first state to the second.
    ghost runs_out: { Self → Self → Type 0 };

    // It ended this way.
    ghost leaves: { Self → Ending → Type 0 };

    // Nothing that it was sent is waiting to be flushed.
    ghost flushed: { Self → Type 0 };

    /// Waits for bytes, writes them into the front of the buffer, and returns how many. If the buffer isn't empty,
    /// `Ok(0)` is the end of the stream.
    fn read(&mut self, buffer: &mut [u8]) -> Result<usize, CallFault>
        ensures bound { IfOk result (λ n. n ≤ length buffer.new) }
        ensures gives { WriteAppends (given self.old) (given self.new) result buffer.new }
        ensures taken { Keeps (taken self.old) (taken self.new) }
        ensures succeeded { IfOk result (λ n. 0 < n → succeeds self.old self.new) }
        ensures ended { IfOk result (λ n. n ≡ 0 → 0 < length buffer.new →
            runs_out self.old self.new) }
        ensures failed { IfErr result (λ fault. fails self.old fault self.new) };

    /// Sends bytes from the front of the text, and returns how many.
    fn write(&mut self, text: &[u8]) -> Result<usize, CallFault>
        ensures bound { IfOk result (λ n. n ≤ length text.now) }
        ensures takes { WriteAppends (taken self.old) (taken self.new) result text.now }
        ensures given { Keeps (given self.old) (given self.new) }
        ensures succeeded { IfOk result (λ n. 0 < n → succeeds self.old self.new) }
        ensures none { IfOk result (λ n. n ≡ 0 → 0 < length text.now →
            fails self.old call_fault.Other self.new) }
        ensures failed { IfErr result (λ fault. fails self.old fault self.new) };

    /// Flushes what was sent.
    fn flush(&mut self) -> Result<(), CallFault>
        ensures taken { Keeps (taken self.old) (taken self.new) }
        ensures given { Keeps (given self.old) (given self.new) }
        ensures succeeded { OnOk result (succeeds self.old self.new) }
        ensures flushed { OnOk result (flushed self.new) }
        ensures failed { IfErr result (λ fault. fails self.old fault self.new) };

    /// Lets the process run before it is read, if that saves time. This doesn't change what it was sent or what it
    /// wrote.
    fn let_run_first(&self);

    /// Waits a moment, in which the process can read what it was sent. This doesn't change what it was sent or what it
    /// wrote.
    fn let_read(&self);

    /// Kills the process if it is still running, closes the pipes, waits for it, and returns how it ended. If its
    /// output ended, or another call of a pipe broke, it first has a short time to exit by itself.
    fn end(self) -> Ending
        ensures { leaves self result };
}
