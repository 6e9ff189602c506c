//! Runs of `gtp_engine` in memory.
use super::streams::{Narrow, Source, WIDE, narrow_stream, new_counts};
use crate::asserts::{assert_equal, assert_equal_for, assert_true, text_of};
use gtp_engine_app::failure::{Failure, report};
use gtp_engine_app::run::run;
use gtp_session::random::Random;
use gtp_session::serve::{ServeFault, serve};
use gtp_session::session::Session;
use gtp_session::streams::Counted;
use std::io::ErrorKind;
use std::process::Abort;

/// The results of a run of the program.
#[derive(Drop)]
struct Ran {
    status: u8,
    output: Narrow,
    errors: Narrow,
}

/// Runs the program with the words of this text after its name. Without an input each read fails. The output and the errors
/// take this many bytes.
fn run_over<R: Abort + AllocGlobal>(
    rt: &R,
    arguments: &str,
    input: Option<&[u8]>,
    rooms: (usize, usize),
) -> Ran {
    let mut words = Vec::new(rt.alloc());
    assert_true(rt, words.push("gtp_engine").is_ok());
    for word in arguments.split_whitespace() {
        assert_true(rt, words.push(word).is_ok());
    }
    let counts = new_counts(rt);
    let mut output = narrow_stream(rt, rooms.0, &counts);
    let mut errors = narrow_stream(rt, rooms.1, &counts);
    let status = run(
        rt.alloc(),
        words.as_slice(),
        &mut Counted::new(Source { bytes: input }),
        &mut Counted::new(&mut output),
        &mut errors,
    );
    Ran {
        status,
        output,
        errors,
    }
}

/// Asserts that with these arguments the input gives this output and this status, and that nothing is reported.
fn assert_ends<R: Abort + AllocGlobal>(
    rt: &R,
    arguments: &str,
    input: &[u8],
    output: &[u8],
    status: u8,
) {
    let ran = run_over(rt, arguments, Some(input), (WIDE, WIDE));
    assert_equal_for(rt, arguments, ran.output.taken.as_slice(), output);
    assert_equal_for(rt, arguments, ran.errors.taken.as_slice(), b"".as_slice());
    assert_equal_for(rt, arguments, ran.status, status);
}

/// White captures at A1, and after two passes Black wants to recapture.
const CORNER: &[u8] =
    b"boardsize 4\nplay b A2\nplay w C1\nplay b B1\nplay w B2\nplay b D4\nplay w A1\n\
    play b B1\nplay b pass\nplay w pass\nplay b B1\nshowboard\n";

/// Two genmoves that succeed, after one that fails.
const GENMOVES: &[u8] = b"genmove\n1 genmove b\n2 name\n3 genmove w\n4 name\n";

/// Arguments, an input, what is answered, and the status.
static ANSWERS: [(&str, &[u8], &[u8], u8); 8] = [
    ("", b"1 protocol_version\n2 quit\n", b"=1 2\n\n=2\n\n", 0),
    // The last line has no end.
    ("", b"genmove b\nversi", b"= A1\n\n", 0),
    (
        "--policy book --book C3,,resign",
        b"boardsize 9\ngenmove b\ngenmove w\ngenmove b\ngenmove b\ngenmove\nplay b C3\n",
        b"=\n\n= C3\n\n= pass\n\n= resign\n\n= resign\n\n? syntax error\n\n? illegal move\n\n",
        0,
    ),
    // Positional ko outlives two passes.
    (
        "--ko positional",
        CORNER,
        b"=\n\n=\n\n=\n\n=\n\n=\n\n=\n\n=\n\n? illegal move\n\n=\n\n=\n\n\
        ? illegal move\n\n= . . . X 4\n. . . . 3\nX O . . 2\nO . O . 1\nA B C D\n\
        captures B 0 W 1\n\n",
        0,
    ),
    // After a fault that stops the engine the status is 4, without an error text; after one that goes on it is 0.
    (
        "--fault stop:2",
        GENMOVES,
        b"? syntax error\n\n=1 A1\n\n=2 stepgo\n\n",
        4,
    ),
    (
        "--fault cut:2:6",
        GENMOVES,
        b"? syntax error\n\n=1 A1\n\n=2 stepgo\n\n=3 B1\n",
        4,
    ),
    (
        "--fault junk:2",
        GENMOVES,
        b"? syntax error\n\n=1 A1\n\n=2 stepgo\n\nhello\n\n=4 stepgo\n\n",
        0,
    ),
    (
        "--fault none",
        GENMOVES,
        b"? syntax error\n\n=1 A1\n\n=2 stepgo\n\n=3 B1\n\n=4 stepgo\n\n",
        0,
    ),
];

#[test]
fn options_decide_what_is_answered_and_a_fault_that_stops_is_status_4(rt: HostRuntime) {
    for (arguments, input, output, status) in &ANSWERS {
        assert_ends(&rt, arguments, input, output, *status);
    }
    let mut flood = Vec::new(rt.alloc());
    assert_true(&rt, flood.extend_from_slice(b"? syntax error\n\n").is_ok());
    assert_true(&rt, flood.extend_from_slice(&[b'\n'; 8193]).is_ok());
    let rest = b"=2 stepgo\n\n=3 B1\n\n=4 stepgo\n\n";
    assert_true(&rt, flood.extend_from_slice(rest).is_ok());
    assert_ends(&rt, "--fault=flood:1", GENMOVES, flood.as_slice(), 0);
}

/// A board of size 9 and ten moves.
const TEN_MOVES: &[u8] = b"boardsize 9\ngenmove b\ngenmove w\ngenmove b\ngenmove w\ngenmove b\n\
    genmove w\ngenmove b\ngenmove w\ngenmove b\ngenmove w\n";

/// Arguments of the random policy, and the seed that they name. The default seed is 1.
static SEEDS: [(&str, u32); 3] = [
    ("--policy random", 1),
    ("--policy random --seed 7", 7),
    ("--policy random --seed 4294967295", 4_294_967_295),
];

#[test]
fn the_random_policy_draws_by_its_seed_alike_in_each_run(rt: HostRuntime) {
    for (arguments, seed) in &SEEDS {
        // What a fresh engine with this seed writes.
        let mut drawn = Vec::new(rt.alloc());
        let mut reader = Counted::new(TEN_MOVES);
        let mut writer = Counted::new(&mut drawn);
        let mut session = Session::new(Random::new(*seed));
        let _ = serve(&mut reader, &mut writer, &mut session);
        for _run in 0..2 {
            assert_ends(&rt, arguments, TEN_MOVES, drawn.as_slice(), 0);
        }
    }
}

/// The input of a run whose reads all fail, and that of another.
const BROKEN: Option<&[u8]> = None;

const NAME: Option<&[u8]> = Some(b"1 name\n");

/// Sizes with which the output can't be written, or the errors can't, or both can.
const ERRORS: (usize, usize) = (0, WIDE);

const OUTPUT: (usize, usize) = (WIDE, 0);

const BOTH: (usize, usize) = (WIDE, WIDE);

/// Arguments, input and stream sizes of runs that fail, with the status of each and how what it reports begins.
static FAILING: [(&str, Option<&[u8]>, (usize, usize), u8, &str); 10] = [
    ("", BROKEN, BOTH, 3, "gtp_engine: read fault\n"),
    ("", BROKEN, OUTPUT, 3, ""),
    ("", NAME, ERRORS, 3, "gtp_engine: write fault\n"),
    ("--help", NAME, ERRORS, 3, "gtp_engine: write fault\n"),
    // A bad book is reported under every policy, after what `clap` finds, and before a bad fault.
    ("--book C3,D44", NAME, BOTH, 2, "gtp_engine: bad book\n"),
    (
        "--fault stop --policy first --book C3,D44",
        NAME,
        BOTH,
        2,
        "gtp_engine: bad book\n",
    ),
    ("--book C3,D44 --policy third", NAME, BOTH, 2, "error: "),
    ("--fault stop", NAME, BOTH, 2, "gtp_engine: bad fault\n"),
    ("--seed 4294967296", NAME, BOTH, 2, "error: "),
    ("--fault stop", NAME, OUTPUT, 2, ""),
];

#[test]
fn a_run_that_fails_is_status_2_or_3_and_answers_nothing(rt: HostRuntime) {
    for (arguments, input, rooms, status, text) in &FAILING {
        let case = (*arguments, *rooms);
        let ran = run_over(&rt, arguments, *input, *rooms);
        assert_equal_for(&rt, case, ran.status, *status);
        assert_equal_for(&rt, case, ran.output.taken.len(), 0);
        let reported = text_of(&rt, ran.errors.taken.as_slice());
        let is_whole = !text.starts_with("error");
        assert_equal_for(&rt, case, reported.get(..text.len()), Some(*text));
        assert_equal_for(&rt, case, is_whole && reported.len() != text.len(), false);
    }
}

/// Arguments that ask for help or the version, and how the text of each begins.
static REQUESTS: [(&str, &str); 3] = [
    (
        "--help",
        "A Go engine for the Go Text Protocol, version 2, on standard input and output\n\n\
        Usage: gtp_engine [OPTIONS]\n",
    ),
    ("--version", "gtp_engine 1.0\n"),
    ("-V --policy third", "gtp_engine 1.0\n"),
];

#[test]
fn help_and_the_version_go_to_the_output_with_status_0(rt: HostRuntime) {
    for (arguments, text) in &REQUESTS {
        let ran = run_over(&rt, arguments, NAME, BOTH);
        let beginning = ran.output.taken.get(..text.len());
        assert_equal_for(&rt, *arguments, ran.status, 0);
        assert_equal_for(&rt, *arguments, beginning, Some(text.as_bytes()));
        assert_equal_for(&rt, *arguments, ran.errors.taken.len(), 0);
    }
}

/// Failures, the status that follows each, and its line.
static FAILURES: [(Failure, u8, &str); 6] = [
    (Failure::BadArgument, 2, "gtp_engine: bad argument\n"),
    (Failure::OutOfMemory, 3, "gtp_engine: out of memory\n"),
    (
        Failure::Serve(ServeFault::Read),
        3,
        "gtp_engine: read fault\n",
    ),
    (
        Failure::Serve(ServeFault::Write),
        3,
        "gtp_engine: write fault\n",
    ),
    (
        Failure::Serve(ServeFault::TooManyReads),
        3,
        "gtp_engine: too many reads\n",
    ),
    (
        Failure::NoNullDevice,
        3,
        "gtp_engine: a standard stream is closed, and /dev/null can't be opened\n",
    ),
];

#[test]
fn each_failure_is_reported_in_a_line(rt: HostRuntime) {
    for (failure, status, line) in &FAILURES {
        let mut errors = Vec::new(rt.alloc());
        let reported = report(*failure, &mut errors);
        assert_equal_for(&rt, line, reported, *status);
        assert_equal_for(&rt, line, errors.as_slice(), line.as_bytes());
    }
    let no_text = Failure::of_arguments(ErrorKind::InvalidData);
    assert_equal(&rt, no_text, Failure::BadArgument);
    let no_memory = Failure::of_arguments(ErrorKind::OutOfMemory);
    assert_equal(&rt, no_memory, Failure::OutOfMemory);
}
