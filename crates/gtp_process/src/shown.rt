//! How to show a process and what it wrote.
ghost use Rattle.std.specs.Prelude.{◌≡◌, ◌+◌, ◌*◌, ◌<◌, ◌≤◌, ◌++◌, length};
ghost use Rattle.arrayvec.specs.ArrayVec.{array_vec_len};
ghost use Rattle.std.specs.Fmt.{decimal};
ghost use Rattle.gtp_process.specs.Shown.{ending_text, hex_digit, late_text, pipe_text, quoted, reason_text};
ghost use Rattle.gtp_process.specs.Shown.{shown_byte, shown_bytes, unit_text, unstarted_text};

use crate::causes::{PipeCause, Unstarted};
use crate::starter::{Ending, StartReason};
use arrayvec::ArrayVec;
use go_base::{push, write_int};

/// Appends why a program was not started, and its name: at most 397 bytes.
pub fn push_unstarted<const ROOM: usize>(line: &mut ArrayVec<u8, ROOM>, start: &Unstarted)
    requires { array_vec_len line.old + 397 ≤ ROOM }
    ensures bytes { line.new.items ≡ line.old.items ++ unstarted_text start.now }
    ensures len { array_vec_len line.new ≤ array_vec_len line.old + 397 }
{
    push(line, b"not started: ");
    push(line, reason_text(start.reason));
    push(line, b": ");
    push_quoted(line, &start.program);
}

/// Returns why a program was not started, in words.
fn reason_text(reason: StartReason) -> &'static [u8]
    ensures text { result.now ≡ reason_text reason }
    ensures few { length result.now ≤ 60 }
{
    match reason {
        StartReason::NotFound => b"no such file",
        StartReason::NotAllowed => b"not allowed",
        StartReason::NotADirectory => b"a part of its path is no directory",
        StartReason::Busy => b"the file is open for writing",
        StartReason::TooLong => b"too long",
        StartReason::NoFiles => b"too many open files",
        StartReason::NoProcesses => b"too many processes",
        StartReason::NoProgram => b"not a program that the system can run",
        StartReason::Other => b"the system refused it",
    }
}

/// Returns how a pipe cut a process off, in words.
pub fn pipe_text(cause: PipeCause) -> &'static [u8]
    ensures text { result.now ≡ pipe_text cause }
    ensures few { length result.now ≤ 16 }
{
    match cause {
        PipeCause::Writing => b"writing failed",
        PipeCause::Reading => b"reading failed",
        PipeCause::Ended => b"its output ended",
    }
}

/// Appends how a process ended, if that is known: at most 33 bytes.
pub fn push_ending<const ROOM: usize>(line: &mut ArrayVec<u8, ROOM>, ending: Ending)
    requires { array_vec_len line.old + 33 ≤ ROOM }
    ensures bytes { line.new.items ≡ line.old.items ++ ending_text ending }
    ensures len { array_vec_len line.new ≤ array_vec_len line.old + 33 }
{
    match ending {
        Ending::Unknown => {}
        Ending::Status(number) => {
            push(line, b", exit status ");
            push(line, &write_int(number));
        }
        Ending::Signal(number) => {
            push(line, b", signal ");
            push(line, &write_int(number));
        }
        Ending::Running => push(line, b", but it ran on"),
        Ending::Late(seconds) => {
            push(line, b", ");
            push_late(line, seconds);
        }
    }
}

/// Appends that a process didn't answer within this many seconds: at most 31 bytes.
pub fn push_late<const ROOM: usize>(line: &mut ArrayVec<u8, ROOM>, seconds: u32)
    requires { array_vec_len line.old + 31 ≤ ROOM }
    ensures bytes { line.new.items ≡ line.old.items ++ late_text seconds }
    ensures len { array_vec_len line.new ≤ array_vec_len line.old + 31 }
{
    push(line, b"no answer in ");
    push(line, &write_int(seconds));
    push(line, unit_text(seconds));
}

/// Returns the word after a number of seconds.
fn unit_text(seconds: u32) -> &'static [u8]
    ensures text { result.now ≡ unit_text seconds }
    ensures few { length result.now ≤ 8 }
{
    if seconds == 1 {
        b" second"
    } else {
        b" seconds"
    }
}

/// Appends bytes in printable form, in quotes: at most four bytes for each, and two more.
pub fn push_quoted<const ROOM: usize>(line: &mut ArrayVec<u8, ROOM>, bytes: &[u8])
    requires { array_vec_len line.old + 4 * length bytes.now + 2 ≤ ROOM }
    ensures bytes { line.new.items ≡ line.old.items ++ quoted bytes.now }
    ensures len { array_vec_len line.new ≤ array_vec_len line.old + 4 * length bytes.now + 2 }
{
    push(line, b"\"");
    push_shown(line, bytes);
    push(line, b"\"");
}

/// Appends bytes in printable form: at most four bytes for each.
pub fn push_shown<const ROOM: usize>(line: &mut ArrayVec<u8, ROOM>, bytes: &[u8])
    requires { array_vec_len line.old + 4 * length bytes.now ≤ ROOM }
    ensures bytes { line.new.items ≡ line.old.items ++ shown_bytes bytes.now }
    ensures len { array_vec_len line.new ≤ array_vec_len line.old + 4 * length bytes.now }
{
    for byte in bytes {
        push_byte(line, *byte);
    }
}

/// Appends a byte in printable form.
fn push_byte<const ROOM: usize>(line: &mut ArrayVec<u8, ROOM>, byte: u8)
    requires { array_vec_len line.old + 4 ≤ ROOM }
    ensures bytes { line.new.items ≡ line.old.items ++ shown_byte byte }
    ensures len { array_vec_len line.new ≤ array_vec_len line.old + 4 }
{
    match byte {
        b'"' => push(line, b"\\\""),
        b'\\' => push(line, b"\\\\"),
        b'\n' => push(line, b"\\n"),
        b'\r' => push(line, b"\\r"),
        b'\t' => push(line, b"\\t"),
        b' '..=b'~' => push(line, &[byte]),
        _ => {
            push(line, b"\\x");
            push(line, &[hex_digit(byte / 16), hex_digit(byte % 16)]);
        }
    }
}

/// Returns a digit in base 16.
fn hex_digit(number: u8) -> u8
    requires { number < 16 }
    ensures { result ≡ hex_digit number }
{
    if number >= 10 {
        b'A' + (number - 10)
    } else {
        b'0' + number
    }
}
