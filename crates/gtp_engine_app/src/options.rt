//! The command-line options.
ghost use Rattle.std.specs.Prelude.{◌≡◌, ◌≢◌, map, codes, IfOk, IfErr};
ghost use Rattle.clap.specs.Words.{app_of, found_of, kind_of, rows_of};
ghost use Rattle.clap.specs.declared.error.kind.ErrorKind.TheVariants.{OutOfMemory};
ghost use Rattle.cli.specs.Options.{program};
ghost use Rattle.gtp_engine_app.specs.Options.{Ask, AsksFor, HasFault, ko_rule_named, policy_named};
ghost use Rattle.gtp_engine_app.specs.private.CommandLine.{IsCommandLine};

use clap::{ArgMatches, Command, Error};
use cli::VERSION;
use cli::options::{OptionRow, Takes, number_at, text_at, with_options};
use go_board::KoRule;
use std::alloc::{AllocError, Global};
use std::convert::AsStr;

/// The help below the options: the policies, the ko rules, the statuses and an example.
const AFTER_OPTIONS: &str = "\
Policies, by which genmove chooses a move:
  first   the first candidate
  random  a random candidate, by --seed
  book    the entry of --book for this move
A candidate is a legal point with a neighbour that is empty or has a stone of
the other colour. Only random uses --seed, and only book uses --book, but both
are checked under each policy.

Ko rules, by the boards that no play may recreate:
  simple      the board before the previous move
  positional  each earlier board of the game

Status:
  0  quit, the end of the input, or help or the version was printed
  2  usage error
  3  the program could not go on: read fault, write fault, out of memory,
     too many reads
  4  the engine stopped at the fault that --fault asks for

Example:
  printf 'boardsize 9\\ngenmove b\\nquit\\n' | gtp_engine --policy random --seed 7

More: man gtp_engine";

/// The name of a policy.
#[derive(Clone, Copy)]
pub enum PolicyName {
    /// `first`
    First,
    /// `random`
    Random,
    /// `book`
    Book,
}

/// The values of the options.
#[derive(Clone, Copy)]
pub struct Options<'a> {
    /// The policy that chooses the moves; `first` by default.
    pub policy: PolicyName,
    /// The seed of the random policy; 1 by default.
    pub seed: u32,
    /// The ko rule; `simple` by default.
    pub rule: KoRule,
    /// The text of the book, not parsed yet; empty by default.
    pub book: &'a str,
    /// The text of the fault, not parsed yet; `none` by default.
    pub fault: &'a str,
}

/// The options, in the order of the help.
static OPTIONS: [OptionRow<'static>; 5] = [
    OptionRow {
        name: "policy",
        takes: Takes::Name("POLICY", &["first", "random", "book"], "first"),
        help: "Policy: first, random or book",
    },
    OptionRow {
        name: "seed",
        takes: Takes::Number("N", 0, 4294967295, "1"),
        help: "Random seed, 0 to 4294967295",
    },
    OptionRow {
        name: "ko",
        takes: Takes::Name("RULE", &["simple", "positional"], "simple"),
        help: "Ko rule: simple or positional",
    },
    OptionRow {
        name: "book",
        takes: Takes::HiddenText("TEXT", ""),
        help: "Moves of --policy book, at most 2000, separated by\n\
            commas: each a vertex, resign, or nothing for a pass\n\
            [default: empty]",
    },
    OptionRow {
        name: "fault",
        takes: Takes::Text("TEXT", "none"),
        help: "Fault at the N-th successful genmove, for tests: none,\n\
            stop:N, cut:N:K, junk:N or flood:N",
    },
];

/// Reads a command line, whose first word is the program's name, and returns the values of its options.
///
/// # Errors
///
/// A usage error, a request for help or the version, or out of memory. The error's `Display` is the text for the user.
pub fn read_options<'a, S: AsStr>(alloc: Global, words: &'a [S]) -> Result<Options<'a>, Error>
    ensures asked { IfOk result (AsksFor (map S.text words.entry.now)) }
    ensures fault { IfErr result (λ error. kind_of error ≢ OutOfMemory →
        HasFault (map S.text words.entry.now) (kind_of error)) }
{
    let matches = command(alloc)?.try_get_matches_from(words)?;
    Ok(options_of(&matches))
}

/// The values of the options. Each has a default.
fn options_of<'a>(matches: &ArgMatches<'a>) -> Options<'a>
    ensures { Ask (rows_of (found_of matches.now)) result }
{
    Options {
        policy: policy_named(text_at(matches, "policy")),
        seed: number_at(matches, "seed"),
        rule: ko_rule_named(text_at(matches, "ko")),
        book: text_at(matches, "book"),
        fault: text_at(matches, "fault"),
    }
}

/// The policy of this name.
fn policy_named(name: &str) -> PolicyName
    ensures { result ≡ policy_named name.now }
{
    match name {
        "random" => PolicyName::Random,
        "book" => PolicyName::Book,
        _ => PolicyName::First,
    }
}

/// The ko rule of this name.
fn ko_rule_named(name: &str) -> KoRule
    ensures { result ≡ ko_rule_named name.now }
{
    match name {
        "positional" => KoRule::Positional,
        _ => KoRule::Simple,
    }
}

/// The command line, with its help.
fn command<'a>(alloc: Global) -> Result<Command<'a>, AllocError>
    ensures { IfOk result (λ command. IsCommandLine (app_of command)) }
{
    with_options(alloc, program(alloc)?, OPTIONS.as_slice())
}

/// The command line without options.
fn program<'a>(alloc: Global) -> Result<Command<'a>, AllocError>
    ensures { IfOk result (λ command. app_of command ≡ program (codes "gtp_engine")) }
{
    Command::new(alloc, "gtp_engine")
        .version(VERSION)
        .about("A Go engine for the Go Text Protocol, version 2, on standard input and output")
        .after_help(AFTER_OPTIONS)
        .bin_name("gtp_engine")
}
