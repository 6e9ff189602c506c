//! The lines of a usage error that the program finds itself: what is wrong, and with `--why` what is allowed.
ghost use Rattle.std.specs.Prelude.{◌≡◌, ◌≤◌, ◌↔◌, ℕ, length};
ghost use Rattle.cli.specs.Failures.{plan_error_status};
ghost use Rattle.go_base.specs.Handicap.{AllowsHandicap};
ghost use Rattle.twogtp_app.specs.Mistakes.{ReportsNoPlan, handicaps_up_to, limits_part, most_stones};

use crate::failure::{Mistake, NAME};
use crate::options::Options;
use arrayvec::ArrayVec;
use byte_streams::{WriteOnce, write_or_break};
use cli::failure::{Failure, MistakeText, PlanError};
use cli::line::error_line;
use go_base::{push, write_int};

/// The line of what is allowed: of a komi it has 160 bytes, of a handicap less.
type LimitsLine = ArrayVec<u8, 200>;

/// Both lines.
type MistakeLines = ArrayVec<u8, 328>;

/// Reports on `errors` why the options come to no plan, and returns the status: 2 for a usage error, 3 if memory ran
/// out. With `--why` a second line says which komis or handicaps are allowed where that is what is wrong. A writer that
/// fails doesn't change the status.
pub fn report_no_plan<E: WriteOnce>(
    error: &PlanError<Mistake>,
    options: &Options<'_>,
    errors: &mut E,
) -> u8
    ensures status { result ≡ plan_error_status error.now }
    ensures written { ReportsNoPlan E.WriteOnce options.now error.now errors.old errors.new }
{
    match error {
        PlanError::BadWords(mistake) => {
            let mut lines = MistakeLines::new();
            push(&mut lines, &error_line(NAME, mistake.text()));
            push(&mut lines, &limits_part(*mistake, options));
            write_or_break(errors, lines.as_slice());
            2
        }
        PlanError::OutOfMemory => Failure::OutOfMemory.report(NAME, errors),
    }
}

/// With `--why` the line of what is allowed in place of a wrong komi or handicap, and else nothing.
fn limits_part(mistake: Mistake, options: &Options<'_>) -> LimitsLine
    ensures { result.items ≡ limits_part options.now.details.why options.now.size mistake }
{
    let mut line = LimitsLine::new();
    if !options.details.why {
        return line;
    }
    match mistake {
        Mistake::NoBlackCommand | Mistake::NoWhiteCommand => {}
        Mistake::BadKomi => {
            push(
                &mut line,
                b"twogtp: komi may be a multiple of 0.5 from -999999999.5 to 999999999.5, with at most nine ",
            );
            push(
                &mut line,
                b"digits on each side of the point; write a negative one as --komi=-3.5\n",
            );
        }
        Mistake::BadHandicap => {
            push(&mut line, b"twogtp: on size ");
            push(&mut line, &write_int(options.size));
            push(&mut line, handicaps_up_to(most_stones(options.size)));
            push(&mut line, b"\n");
        }
    }
    line
}

/// Which handicaps are allowed, by the most stones.
fn handicaps_up_to(most: u32) -> &'static [u8]
    ensures text { result.now ≡ handicaps_up_to most }
    ensures few { length result.now ≤ 40 }
{
    match most {
        0 => b" the handicap may only be 0",
        4 => b" the handicap may be 0, or 2 to 4",
        _ => b" the handicap may be 0, or 2 to 9",
    }
}

/// The most stones that a size allows, or 0.
fn most_stones(size: u32) -> u32
    ensures value { result ≡ most_stones size }
    ensures allowed { (stones : ℕ) → ((2 ≤ stones) × (stones ≤ result)) ↔ AllowsHandicap size stones }
{
    if size < 7 {
        0
    } else if size % 2 == 1 && size > 8 {
        9
    } else {
        4
    }
}
