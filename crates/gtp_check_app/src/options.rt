//! The options of the command line.
ghost use Rattle.std.specs.Prelude.{◌≡◌, ◌⊎◌, ◌<◌, ◌+◌, ◌≤◌, [], ◌∷◌, ◌++◌, codes, length, map};
ghost use Rattle.std.specs.Prelude.{false, if◌then◌else◌, IfOk, IfErr};
ghost use Rattle.std.specs.List.{list_any};
ghost use Rattle.std.specs.Str.{bytes_eq};
ghost use Rattle.arrayvec.specs.ArrayVec.{array_vec_len};
ghost use Rattle.clap.specs.Words.{app_of, found_of, kind_of, rows_of, rule_of};
ghost use Rattle.clap.specs.declared.error.kind.ErrorKind.TheVariants.{OutOfMemory};
ghost use Rattle.cli.specs.Options.{option_texts};
ghost use Rattle.gtp_check_app.specs.Options.{Ask, AsksFor, HasFault, is_named, ko_rule_named, lessons_named};
ghost use Rattle.gtp_check_app.specs.Options.{is_unasked, program, unasked_in, word_rule};
ghost use Rattle.gtp_check_app.specs.private.CommandLine.{IsCommandLine};

use clap::{Arg, ArgMatches, Command, Error};
use cli::VERSION;
use cli::options::{OptionRow, Takes, flag_at, number_at, text_at, texts_at, with_options};
use go_board::KoRule;
use gtp_check_course::{LESSON_NAMES, LESSONS, Lesson, Lessons, Unasked};
use std::alloc::{AllocError, Global};
use std::convert::AsStr;

/// The end of the help: what the output looks like, the statuses, and an example.
const AFTER_OPTIONS: &str = "\
Each complaint is a block of lines: what was wrong, and the commands that led
to it, often fewer than were sent. Lines that begin with # are comments, so
you can paste a block into the engine as it is.
The last line is: check: N commands, M starts, K complaints
Without --timeout there is no limit: gtp_check waits for an engine that hangs.

Status:
  0  no complaint: each lesson was completed, with a move answered correctly
  1  at least one complaint
  2  usage error, or the engine could not be started
  3  gtp_check failed: write fault, out of memory, too many turns
  4  no complaint, but a lesson was cut short, or had no move answered correctly

Example:
  gtp_check 'gnugo --mode gtp --chinese-rules'

More: man gtp_check";

/// The options as the arguments give them.
#[derive(Drop)]
pub struct Options<'a> {
    /// The engine's command, not yet split; empty if it isn't given.
    pub command: &'a str,
    /// The board size for scenes, 5 to 25; 0 if it isn't given.
    pub size: u32,
    /// The ko rule; simple by default.
    pub rule: KoRule,
    /// What isn't asked; all is by default.
    pub unasked: Unasked,
    /// The random seed; 1 by default.
    pub seed: u32,
    /// Whether only the first eight lessons are run.
    pub quick: bool,
    /// The only lessons to run; if there are none, all are run.
    pub only: Lessons,
    /// The lessons to skip.
    pub skip: Lessons,
    /// Whether to print the lessons and exit.
    pub list: bool,
    /// Whether to wait for each reply before the next command.
    pub singly: bool,
    /// Whether the first complaint ends the check.
    pub stop_at_first: bool,
    /// How often the engine may be restarted after complaints, 0 to 1,000.
    pub restarts: u32,
    /// How many shorter conversations may be tried for a complaint, 0 to 1,000.
    pub trials: u32,
    /// The most seconds for an answer, 1 to 86,400; 0 if it isn't given.
    pub timeout: u32,
    /// The most seconds for the first answer after a start, 1 to 86,400; 0 if it isn't given.
    pub start_timeout: u32,
}

/// The options, in the order of the help.
static OPTIONS: [OptionRow<'static>; 15] = [
    OptionRow {
        name: "size",
        takes: Takes::MaybeNumber("N", 5, 25),
        help: "Board size for set-up positions, 5 to 25 [default:\n\
            the smallest from 5 that the engine accepts]",
    },
    OptionRow {
        name: "ko",
        takes: Takes::Name("RULE", &["simple", "positional", "unasked"], "simple"),
        help: "Ko rule: simple, positional, or unasked (for any\n\
            rule: a play that a ko may forbid is never sent,\n\
            and not judged if genmove plays it)",
    },
    OptionRow {
        name: "suicide",
        takes: Takes::Name("RULE", &["forbidden", "unasked"], "forbidden"),
        help: "Suicide rule: forbidden, or unasked (never sent, and\n\
            not judged in a genmove)",
    },
    OptionRow {
        name: "score",
        takes: Takes::Name("RULE", &["asked", "unasked"], "asked"),
        help: "Scores of empty boards: asked, or unasked\n\
            (final_score is never sent)",
    },
    OptionRow {
        name: "seed",
        takes: Takes::Number("N", 0, 4294967295, "1"),
        help: "Random seed, 0 to 4294967295",
    },
    OptionRow {
        name: "quick",
        takes: Takes::Nothing,
        help: "Run only the first eight lessons",
    },
    OptionRow {
        name: "only",
        takes: Takes::Names("LESSON", &LESSON_NAMES),
        help: "Run only this lesson (repeatable)",
    },
    OptionRow {
        name: "skip",
        takes: Takes::Names("LESSON", &LESSON_NAMES),
        help: "Skip this lesson (repeatable)",
    },
    OptionRow {
        name: "list",
        takes: Takes::Nothing,
        help: "Print the lessons and exit",
    },
    OptionRow {
        name: "singly",
        takes: Takes::Nothing,
        help: "Wait for each reply before the next command",
    },
    OptionRow {
        name: "stop-at-first",
        takes: Takes::Nothing,
        help: "End the check after the first complaint",
    },
    OptionRow {
        name: "restarts",
        takes: Takes::Number("N", 0, 1000, "200"),
        help: "Restarts after complaints, 0 to 1000",
    },
    OptionRow {
        name: "trials",
        takes: Takes::Number("N", 0, 1000, "60"),
        help: "Shorter conversations to try per complaint, 0 to\n\
            1000; with 0 each is shown whole",
    },
    OptionRow {
        name: "timeout",
        takes: Takes::MaybeNumber("N", 1, 86400),
        help: "Seconds for an answer, 1 to 86400 [default: none]",
    },
    OptionRow {
        name: "start-timeout",
        takes: Takes::MaybeNumber("N", 1, 86400),
        help: "Seconds for the first answer after a start, 1 to\n\
            86400 [default: the limit of all answers]",
    },
];

/// Reads the options from the arguments, of which the first is the program's name.
///
/// # Errors
///
/// A usage error, a request for the help or the version, or a lack of memory. `Display` of the error is the text for
/// the user.
pub fn read_options<'a, S: AsStr>(alloc: Global, words: &'a [S]) -> Result<Options<'a>, Error>
    ensures asked { IfOk result (AsksFor (map S.text words.entry.now)) }
    ensures fault { IfErr result (λ error. (kind_of error ≡ OutOfMemory)
        ⊎ HasFault (map S.text words.entry.now) (kind_of error)) }
{
    let matches = command(alloc)?.try_get_matches_from(words)?;
    Ok(options_of(&matches))
}

/// The options that `clap` found. The defaults here never apply, since `clap` has its own.
fn options_of<'a>(matches: &ArgMatches<'a>) -> Options<'a>
    ensures { Ask (rows_of (found_of matches.now)) result }
{
    Options {
        command: text_at(matches, "CMD"),
        size: number_at(matches, "size"),
        rule: ko_rule_named(text_at(matches, "ko")),
        unasked: unasked_at(matches),
        seed: number_at(matches, "seed"),
        quick: flag_at(matches, "quick"),
        only: lessons_at(matches, "only"),
        skip: lessons_at(matches, "skip"),
        list: flag_at(matches, "list"),
        singly: flag_at(matches, "singly"),
        stop_at_first: flag_at(matches, "stop-at-first"),
        restarts: number_at(matches, "restarts"),
        trials: number_at(matches, "trials"),
        timeout: number_at(matches, "timeout"),
        start_timeout: number_at(matches, "start-timeout"),
    }
}

/// Returns the ko rule of the game, by this name: the strictest one if ko isn't asked.
fn ko_rule_named(name: &str) -> KoRule
    ensures { result ≡ ko_rule_named name.now }
{
    match name {
        "simple" => KoRule::Simple,
        _ => KoRule::Positional,
    }
}

/// Returns what isn't asked, as the options say.
fn unasked_at(matches: &ArgMatches<'_>) -> Unasked
    ensures { result ≡ unasked_in (rows_of (found_of matches.now)) }
{
    Unasked {
        suicide: is_unasked(text_at(matches, "suicide")),
        ko: is_unasked(text_at(matches, "ko")),
        score: is_unasked(text_at(matches, "score")),
    }
}

/// Returns whether the name of a rule says that this isn't asked.
fn is_unasked(name: &str) -> bool
    ensures { result ≡ is_unasked name.now }
{
    name == "unasked"
}

/// Returns the lessons that an option names, in the order of a course.
fn lessons_at(matches: &ArgMatches<'_>, name: &str) -> Lessons
    ensures { result.items
        ≡ lessons_named (option_texts name.now (rows_of (found_of matches.now))) }
{
    match texts_at(matches, name) {
        Some(names) => lessons_named(names),
        None => Lessons::new(),
    }
}

/// Returns the lessons of these names, in the order of a course.
fn lessons_named(names: &[&str]) -> Lessons
    ensures { result.items ≡ lessons_named (map (λ name. name.now) names.now) }
{
    let mut lessons = Lessons::new();
    for lesson in LESSONS {
        add_if(&mut lessons, lesson, is_named(names, lesson));
    }
    lessons
}

/// Returns whether a lesson is named.
fn is_named(names: &[&str], lesson: Lesson) -> bool
    ensures { result ≡ is_named (map (λ name. name.now) names.now) lesson }
{
    contains(names, lesson.name())
}

/// Returns whether a text is among these.
pub(crate) fn contains(texts: &[&str], wanted: &str) -> bool
    ensures { result ≡ list_any (λ text. bytes_eq text.now wanted.now) texts.now }
{
    texts.iter().any(|text| *text == wanted)
}

/// Appends a lesson if `is_so`.
pub fn add_if(lessons: &mut Lessons, lesson: Lesson, is_so: bool)
    requires { array_vec_len lessons.old < 15 }
    ensures items { lessons.new.items
        ≡ lessons.old.items ++ (if is_so then lesson ∷ [] else []) }
    ensures few { array_vec_len lessons.new ≤ array_vec_len lessons.old + 1 }
{
    if is_so {
        lessons.push(lesson);
    }
}

/// The command line, with its help and its version.
fn command<'a>(alloc: Global) -> Result<Command<'a>, AllocError>
    ensures { IfOk result (λ command. IsCommandLine (app_of command)) }
{
    with_options(alloc, program(alloc)?, OPTIONS.as_slice())
}

/// The command line with the argument for the engine's command, and without options.
fn program<'a>(alloc: Global) -> Result<Command<'a>, AllocError>
    ensures { IfOk result (λ command. app_of command ≡ program) }
{
    Command::new(alloc, "gtp_check")
        .version(VERSION)
        .about("Checks a Go engine against the Go Text Protocol, version 2, and the rules of Go")
        .after_help(AFTER_OPTIONS)
        .bin_name("gtp_check")?
        .arg(engine_word(alloc))
}

/// The argument for the engine's command.
fn engine_word<'a>(alloc: Global) -> Arg<'a>
    ensures rule { rule_of result ≡ word_rule (codes "CMD") }
    ensures local { result.global ≡ false }
{
    Arg::new(alloc, "CMD")
        .value_name("CMD")
        .help("Engine's command, split at spaces: no quoting, no shell")
}
