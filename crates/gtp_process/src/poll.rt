//! Polls of a pipe.

use libc::net::{POLLIN, POLLOUT, poll};
use libc::types::pollfd;
use std::os::fd::RawFd;

/// A pipe of a process.
#[derive(Clone, Copy, Debug, PartialEq, Eq, Drop)]
pub enum Pipe {
    /// To its standard input.
    Input,
    /// From its standard output.
    Output,
}

/// What a poll found.
#[derive(Clone, Copy, Debug, PartialEq, Eq, Drop)]
pub enum Polled {
    /// A call of the pipe returns at once. Where the poll itself failed, that call says why.
    Ready,
    /// The time has passed.
    TimedOut,
}

/// Polls the pipe of this number for at most so many milliseconds.
pub fn poll_pipe(pipe: Pipe, number: RawFd, milliseconds: i32) -> Polled {
    let events = match pipe {
        Pipe::Input => POLLOUT,
        Pipe::Output => POLLIN,
    };
    let mut asked = [pollfd {
        fd: number,
        events,
        revents: 0,
    }];
    if poll(&mut asked, milliseconds) == 0 {
        Polled::TimedOut
    } else {
        Polled::Ready
    }
}
