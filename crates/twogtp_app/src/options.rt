//! The command-line options.
ghost use Rattle.std.specs.Prelude.{◌≡◌, ◌⊎◌, map, IfOk, IfErr};
ghost use Rattle.clap.specs.Words.{app_of, kind_of};
ghost use Rattle.clap.specs.declared.error.kind.ErrorKind.TheVariants.{OutOfMemory};
ghost use Rattle.twogtp_app.specs.Options.{AsksFor, HasFault, command_line};

use crate::task::Details;
use clap::{Command, Error};
use cli::VERSION;
use cli::options::{OptionRow, Takes, flag_at, number_at, text_at, with_options};
use std::alloc::{AllocError, Global};
use std::convert::AsStr;

/// The help below the options: a game's line, the verdicts, the statuses and an example.
const AFTER_OPTIONS: &str = "\
Each game prints one line: game N: VERDICT moves M restarts RB RW
M is its number of moves, RB and RW are the restarts of Black and of White.

Verdicts:
  B+4.5, W+0.5, 0       two passes: the score by area, every stone alive
  B+R, W+R              the other side resigned
  limit                 the game reached the move limit
  B+F(CAUSE), W+F(..)   the other side forfeited; CAUSE is illegal move,
                        no vertex, no move or refused play
  unfit black, ..       this side refused the board size, komi, clear_board or
                        the handicap, or placed the handicap elsewhere
  abandoned black, ..   this side failed to start, exited, closed a stream or
                        broke the protocol more often than --restarts allows

Status:
  0  each game ended by a score, a resignation, the limit or a forfeit
  1  in some game a side was unfit or abandoned; all others were still played
  2  usage error; nothing was started
  3  the program could not go on: write fault, out of memory, too many turns

Example:
  twogtp --size 9 --black gtp_engine --white 'gtp_engine --policy random'

More: man twogtp";

/// The values of the options.
#[derive(Clone, Copy)]
pub struct Options<'a> {
    /// The command that starts Black's engine, not split yet.
    pub black: &'a str,
    /// The command that starts White's engine, not split yet.
    pub white: &'a str,
    /// The board size, 1 to 25.
    pub size: u32,
    /// The text of the komi, not parsed yet.
    pub komi: &'a str,
    /// The number of handicap stones, 0 to 9.
    pub handicap: u32,
    /// The number of games, 1 to 1,000.
    pub games: u32,
    /// The move limit per game, 1 to 2,000.
    pub max_moves: u32,
    /// The restart limit per side and game, 0 to 1,000.
    pub restarts: u32,
    /// What to write besides the games' lines.
    pub details: Details,
}

/// The options, in the order of the help.
static OPTIONS: [OptionRow<'static>; 11] = [
    OptionRow {
        name: "black",
        takes: Takes::Required("CMD"),
        help: "Command that starts Black's engine, split at spaces",
    },
    OptionRow {
        name: "white",
        takes: Takes::Required("CMD"),
        help: "Command that starts White's engine, split at spaces",
    },
    OptionRow {
        name: "size",
        takes: Takes::Number("N", 1, 25, "19"),
        help: "Board size, 1 to 25",
    },
    OptionRow {
        name: "komi",
        takes: Takes::Text("K", "6.5"),
        help: "Komi, a multiple of 0.5; write a negative one as\n--komi=-3.5",
    },
    OptionRow {
        name: "handicap",
        takes: Takes::Number("N", 0, 9, "0"),
        help: "Handicap stones: 0, or 2 to 9 (on size 7 and on even\n\
            sizes 2 to 4, below size 7 only 0)",
    },
    OptionRow {
        name: "games",
        takes: Takes::Number("N", 1, 1000, "1"),
        help: "Number of games, 1 to 1000",
    },
    OptionRow {
        name: "max-moves",
        takes: Takes::Number("N", 1, 2000, "1000"),
        help: "Move limit per game, 1 to 2000",
    },
    OptionRow {
        name: "restarts",
        takes: Takes::Number("N", 0, 1000, "2"),
        help: "Restart limit per side and game, 0 to 1000",
    },
    OptionRow {
        name: "record",
        takes: Takes::Nothing,
        help: "Print the moves of each game",
    },
    OptionRow {
        name: "show",
        takes: Takes::Nothing,
        help: "Print the final board of each game",
    },
    OptionRow {
        name: "why",
        takes: Takes::Nothing,
        help: "Report on standard error why a side fails, each refused\n\
            play, and after a bad komi or handicap what is allowed",
    },
];

/// Reads a command line, whose first word is the program's name, and returns the values of its options.
///
/// # Errors
///
/// A usage error, a request for help or the version, or out of memory. The error's `Display` is the text for the user.
pub fn read_options<'a, S: AsStr>(alloc: Global, words: &'a [S]) -> Result<Options<'a>, Error>
    ensures asked { IfOk result (AsksFor (map S.text words.entry.now)) }
    ensures fault { IfErr result (λ error. (kind_of error ≡ OutOfMemory)
        ⊎ HasFault (map S.text words.entry.now) (kind_of error)) }
{
    let matches = command(alloc)?.try_get_matches_from(words)?;
    // Each option has a default except the commands, which are required.
    Ok(Options {
        black: text_at(&matches, "black"),
        white: text_at(&matches, "white"),
        size: number_at(&matches, "size"),
        komi: text_at(&matches, "komi"),
        handicap: number_at(&matches, "handicap"),
        games: number_at(&matches, "games"),
        max_moves: number_at(&matches, "max-moves"),
        restarts: number_at(&matches, "restarts"),
        details: Details {
            record: flag_at(&matches, "record"),
            show: flag_at(&matches, "show"),
            why: flag_at(&matches, "why"),
        },
    })
}

/// The command line, with its help and its version.
fn command<'a>(alloc: Global) -> Result<Command<'a>, AllocError>
    ensures { IfOk result (λ command. app_of command ≡ command_line) }
{
    let program = Command::new(alloc, "twogtp")
        .version(VERSION)
        .about("Plays two engines of the Go Text Protocol, version 2, against each other")
        .after_help(AFTER_OPTIONS)
        .bin_name("twogtp")?;
    with_options(alloc, program, OPTIONS.as_slice())
}
