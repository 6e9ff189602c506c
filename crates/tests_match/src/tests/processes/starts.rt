//! Why a process can't be started, and which program goes first.
use crate::asserts::{assert_equal, assert_equal_for};
use gtp_process::{Precedence, StartFault, StartReason, start_fault_of};
use std::cell::Cell;
use std::io;
use std::io::ErrorKind;
use std::time::{Clock, Duration};

/// A clock that advances by `step` microseconds at each reading. Without a step it can't be read.
#[derive(Drop)]
struct Ticking {
    now: Cell<u64>,
    step: Option<u64>,
}

impl Clock for Ticking {
    fn monotonic(&self) -> io::Result<Duration> {
        match self.step {
            Some(step) => {
                self.now.set(self.now.get().saturating_add(step));
                Ok(Duration::from_micros(self.now.get()))
            }
            None => Err(io::Error::from(ErrorKind::Unsupported)),
        }
    }

    fn since_1970(&self) -> io::Result<Duration> {
        self.monotonic()
    }
}

/// Which program goes first, by how many microseconds the processor is back, and which one goes first then.
static PRECEDENCES: [(Precedence, Option<u64>, Precedence); 7] = [
    (Precedence::Starting, Some(2000), Precedence::First),
    (Precedence::Starting, None, Precedence::First),
    (Precedence::First, Some(0), Precedence::First),
    (Precedence::First, Some(1000), Precedence::First),
    (Precedence::First, Some(1001), Precedence::Over),
    (Precedence::First, None, Precedence::Over),
    (Precedence::Over, Some(0), Precedence::Over),
];

#[test]
fn a_process_goes_first_while_the_processor_is_back_within_a_millisecond(rt: HostRuntime) {
    for (before, step, after) in &PRECEDENCES {
        let clock = Ticking {
            now: Cell::new(0),
            step: *step,
        };
        assert_equal_for(&rt, (*before, *step), before.let_run_first(&clock), *after);
    }
}

/// The system's error numbers, and what each means at a start.
static NUMBERS: [(i32, StartFault); 13] = [
    (12, StartFault::OutOfMemory),
    (1, StartFault::NotStarted(StartReason::NotAllowed)),
    (2, StartFault::NotStarted(StartReason::NotFound)),
    (8, StartFault::NotStarted(StartReason::NoProgram)),
    (11, StartFault::NotStarted(StartReason::NoProcesses)),
    (13, StartFault::NotStarted(StartReason::NotAllowed)),
    (20, StartFault::NotStarted(StartReason::NotADirectory)),
    (22, StartFault::NotStarted(StartReason::Other)),
    (23, StartFault::NotStarted(StartReason::NoFiles)),
    (24, StartFault::NotStarted(StartReason::NoFiles)),
    (25, StartFault::NotStarted(StartReason::NoProgram)),
    (26, StartFault::NotStarted(StartReason::Busy)),
    (36, StartFault::NotStarted(StartReason::TooLong)),
];

#[test]
fn only_want_of_memory_ends_the_program_and_other_errors_have_reasons(rt: HostRuntime) {
    let memory = io::Error::from(ErrorKind::OutOfMemory);
    assert_equal(&rt, start_fault_of(&memory), StartFault::OutOfMemory);
    for (kind, reason) in [
        (ErrorKind::NotFound, StartReason::NotFound),
        (ErrorKind::PermissionDenied, StartReason::NotAllowed),
        (ErrorKind::NotADirectory, StartReason::NotADirectory),
        (ErrorKind::ExecutableFileBusy, StartReason::Busy),
        (ErrorKind::ArgumentListTooLong, StartReason::TooLong),
        (ErrorKind::InvalidFilename, StartReason::TooLong),
        (ErrorKind::WouldBlock, StartReason::NoProcesses),
        (ErrorKind::Uncategorized, StartReason::NoProgram),
        (ErrorKind::IsADirectory, StartReason::Other),
        (ErrorKind::Interrupted, StartReason::Other),
    ] {
        let fault = start_fault_of(&io::Error::from(kind));
        assert_equal_for(&rt, kind, fault, StartFault::NotStarted(reason));
    }
    for (number, fault) in &NUMBERS {
        let error = io::Error::from_raw_os_error(*number);
        assert_equal_for(&rt, *number, start_fault_of(&error), *fault);
    }
}
