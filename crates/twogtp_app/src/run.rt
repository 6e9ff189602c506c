//! The program, for any writers and any starter of processes.
ghost use Rattle.std.specs.Prelude.{◌≡◌, ◌⊎◌, map};
ghost use Rattle.twogtp_app.specs.Games.{GamesEnd, HasBegun, HasDone, HasMistake, HasShown};
ghost use Rattle.twogtp_app.specs.Games.{known_of, run_of, run_state};
ghost use Rattle.twogtp_app.specs.Options.{IsWithoutWhy};
ghost use Rattle.twogtp_app.specs.Status.{IsStatus, ReportsFailure, some_given_up, status_with};
ghost use Rattle.cli.specs.Status.{done, own_failure, usage_failure};

use crate::failure::NAME;
use crate::game::play_game;
use crate::mistakes::report_no_plan;
use crate::options::read_options;
use crate::plan::{Plan, plan_of};
use byte_streams::WriteOnce;
use cli::failure::Failure;
use cli::requests::answer_error;
use gtp_match::Verdict;
use gtp_process::Starter;
use std::alloc::Global;
use std::convert::AsStr;

/// Plays the games that the command line asks for, writes the text of each to `output`, and returns the program's exit
/// status. The first of `words` is the program's name, the others are its arguments.
///
/// - 0: each game ended by the rules; or help or the version was asked for and written to `output`;
/// - 1: in some game a side was unfit or abandoned;
/// - 2: usage error;
/// - 3: the output or a line of `--why` couldn't be written, memory ran out, or a game had too many turns.
///
/// With status 2 or 3 it also writes to `errors` what is wrong. With `--why` a second line says which komis or
/// handicaps are allowed, if one of them is wrong. The status is the same if `errors` can't be written.
pub fn run<A: AsStr, O: WriteOnce, E: WriteOnce, S: Starter>(
    alloc: Global,
    words: &[A],
    output: &mut O,
    errors: &mut E,
    starter: &mut S,
) -> u8
    ensures status { IsStatus result }
    // After a usage error nothing was started, and nothing was written to the output. The first
    // usage error is reported on standard error; under `--why` a second line follows if it is a
    // komi or a handicap.
    ensures usage { result ≡ usage_failure →
        HasMistake E.WriteOnce (map A.text words.now) errors.old errors.new
        × (output.new ≡ output.old) × (starter.new ≡ starter.old) }
    // With status 0 or 1 and without `--why` nothing is written to standard error.
    ensures quiet { (result ≡ done) ⊎ (result ≡ some_given_up) → IsWithoutWhy (map A.text words.now)
        → errors.new ≡ errors.old }
    // With status 0 or 1 all games that the arguments ask for were played and written; or help or
    // the version was asked for and written, and nothing was started.
    ensures played { (result ≡ done) ⊎ (result ≡ some_given_up) →
        ((starter.new ≡ starter.old)
        × HasShown O.WriteOnce (map A.text words.now) result output.old output.new)
        ⊎ HasDone (known_of S.Process.Process O.WriteOnce E.WriteOnce) (map A.text words.now) result
        (run_state output.old errors.old (S.asked starter.old))
        (run_state output.new errors.new (S.asked starter.new)) }
    // With status 3 what was written is the beginning of the games' texts; or of the help or the
    // version, at which the output broke. Why the program stopped is reported last on standard
    // error. If that is memory before any game, nothing was written or started; no clause says
    // whether memory did run out.
    ensures stopped { result ≡ own_failure →
        ((starter.new ≡ starter.old) × (output.new ≡ output.old)
        × ReportsFailure E.WriteOnce Failure.OutOfMemory errors.old errors.new)
        ⊎ ((starter.new ≡ starter.old)
        × HasShown O.WriteOnce (map A.text words.now) result output.old output.new
        × ReportsFailure E.WriteOnce Failure.Write errors.old errors.new)
        ⊎ HasBegun (known_of S.Process.Process O.WriteOnce E.WriteOnce) (map A.text words.now)
        (run_state output.old errors.old (S.asked starter.old))
        (run_state output.new errors.new (S.asked starter.new)) }
{
    let options = match read_options(alloc, words) {
        Ok(options) => options,
        Err(error) => return answer_error(
            NAME,
            error.kind(),
            error.to_string(alloc),
            output,
            errors,
        ),
    };
    let plan = match plan_of(alloc, &options) {
        Ok(plan) => plan,
        Err(error) => return report_no_plan(&error, &options, errors),
    };
    match play_games(&plan, output, errors, starter) {
        Ok(status) => status,
        Err(failure) => failure.report(NAME, errors),
    }
}

/// Plays the games of a plan, writes the text of each, and returns the status.
fn play_games<O: WriteOnce, E: WriteOnce, S: Starter>(
    plan: &Plan<'_>,
    output: &mut O,
    errors: &mut E,
    starter: &mut S,
) -> Result<u8, Failure>
    ensures { let run = run_of plan.now (known_of S.Process.Process O.WriteOnce E.WriteOnce) in
        GamesEnd run (run_state output.old errors.old (S.asked starter.old))
        (run_state output.new errors.new (S.asked starter.new)) result }
{
    let mut status = 0;
    for index in 0..plan.task.games {
        let verdict = play_game(plan, index + 1, output, errors, starter)?;
        status = with_verdict(status, verdict);
    }
    Ok(status)
}

/// The status after one more game, which ended with this verdict.
fn with_verdict(status: u8, verdict: Verdict) -> u8
    ensures { result ≡ status_with status verdict }
{
    match verdict {
        Verdict::Unfit(_) | Verdict::Abandoned(_) => 1,
        Verdict::Score(_) | Verdict::Resign(_) | Verdict::Limit | Verdict::Forfeit(_, _) => status,
    }
}
