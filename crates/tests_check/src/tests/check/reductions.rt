//! Conversations that end wrongly wherever some of their commands are asked.
use go_base::{Colour, Move, Point, Vertex};
use gtp_check_judge::{CheckCommand, Known};
use gtp_check_shortening::{Limits, Reduction};
use gtp_wire::Command;
use std::alloc::{AllocError, Global};
use std::test::Fail;

const CLEAR: CheckCommand = CheckCommand::Match(Command::ClearBoard);

const KNOWS: CheckCommand = CheckCommand::KnownCommand(Known::FinalScore);

const WRONG: CheckCommand = CheckCommand::FinalScore;

const ENOUGH: Limits = Limits {
    trials: 1000,
    commands: 100_000,
};

/// Black's `play` of this number: on the points of a board of 25x25, row by row.
fn play(number: u32) -> CheckCommand {
    let vertex = match Point::new(number % 25 + 1, number / 25 + 1) {
        Some(point) => Vertex::At(point),
        None => Vertex::Pass,
    };
    let colour = Colour::Black;
    CheckCommand::Match(Command::Play(Move { colour, vertex }))
}

/// A conversation of two commands that set a game up, so many moves, and the command that is answered wrongly.
fn conversation(alloc: Global, moves: u32) -> Result<Vec<CheckCommand>, AllocError> {
    let mut commands = Vec::new(alloc);
    commands.extend_from_slice(&[KNOWS, CLEAR])?;
    for number in 0..moves {
        commands.extend_from_slice(&[play(number)])?;
    }
    commands.extend_from_slice(&[WRONG])?;
    Ok(commands)
}

/// Shortens a conversation. A trial reproduces the wrong answer if it asks all of these commands. Returns the number of
/// trials.
fn reduce(
    alloc: Global,
    reduction: &mut Reduction,
    needed: &[CheckCommand],
) -> Result<u32, AllocError> {
    for trials in 0..1000 {
        let Some(trial) = reduction.next(alloc)? else {
            return Ok(trials);
        };
        let asked = trial.len();
        if needed.iter().all(|command| trial.contains(command)) {
            reduction.succeeded(asked.saturating_sub(1), asked);
        } else {
            reduction.failed(asked);
        }
    }
    Ok(1000)
}

#[test]
fn three_moves_of_200_are_left_after_60_trials(rt: HostRuntime) -> Result<(), Fail> {
    let alloc = rt.alloc();
    let limits = Limits {
        trials: 60,
        commands: 100_000,
    };
    let whole = conversation(alloc, 200)?;
    let mut reduction = Reduction::new(alloc, whole.as_slice(), limits)?;
    let needed = [CLEAR, play(41), play(99), play(180)];
    let trials = reduce(alloc, &mut reduction, &needed)?;
    assert!(rt; trials < 60, "{trials} trials");
    assert!(rt; reduction.is_minimal());
    let left = [CLEAR, play(41), play(99), play(180), WRONG];
    assert_eq!(rt; reduction.commands(), left.as_slice());
    Ok(())
}

#[test]
fn the_moves_are_left_out_by_halves_and_then_each_command(rt: HostRuntime) -> Result<(), Fail> {
    let alloc = rt.alloc();
    let whole = conversation(alloc, 4)?;
    let mut reduction = Reduction::new(alloc, whole.as_slice(), ENOUGH)?;
    let trials: [&[CheckCommand]; 8] = [
        &[KNOWS, CLEAR, play(2), play(3), WRONG],
        &[KNOWS, CLEAR, play(0), play(1), WRONG],
        &[CLEAR, play(0), play(1), play(2), play(3), WRONG],
        &[KNOWS, play(0), play(1), play(2), play(3), WRONG],
        &[KNOWS, CLEAR, play(1), play(2), play(3), WRONG],
        &[KNOWS, CLEAR, play(0), play(2), play(3), WRONG],
        &[KNOWS, CLEAR, play(0), play(1), play(3), WRONG],
        &[KNOWS, CLEAR, play(0), play(1), play(2), WRONG],
    ];
    for wanted in trials {
        let Some(trial) = reduction.next(alloc)? else {
            return Err(Fail::from("no trial is left"));
        };
        assert_eq!(rt; trial.as_slice(), wanted);
        reduction.failed(trial.len());
    }
    assert!(rt; reduction.is_minimal());
    assert!(rt; reduction.next(alloc)?.is_none());
    assert_eq!(rt; reduction.commands(), whole.as_slice());
    Ok(())
}

#[test]
fn single_commands_are_tried_again_up_to_the_last_one_that_went(
    rt: HostRuntime,
) -> Result<(), Fail> {
    let alloc = rt.alloc();
    let whole = [play(0), play(1), play(2), WRONG];
    let mut reduction = Reduction::new(alloc, &whole, ENOUGH)?;
    let needed = [play(0), play(2)];
    // The first two, the third, the first, the second, which goes, the third, and the first again.
    assert_eq!(rt; reduce(alloc, &mut reduction, &needed)?, 6);
    assert_eq!(rt; reduction.commands(), [play(0), play(2), WRONG].as_slice());
    Ok(())
}

#[test]
fn what_is_asked_after_the_wrong_answer_goes(rt: HostRuntime) -> Result<(), Fail> {
    let alloc = rt.alloc();
    let whole = conversation(alloc, 8)?;
    let mut reduction = Reduction::new(alloc, whole.as_slice(), ENOUGH)?;
    let Some(trial) = reduction.next(alloc)? else {
        return Err(Fail::from("no trial is left"));
    };
    assert_eq!(rt; trial.len(), 7);
    reduction.succeeded(3, 5);
    assert_eq!(rt;
        reduction.commands(),
        [KNOWS, CLEAR, play(4), WRONG].as_slice()
    );
    Ok(())
}

#[test]
fn limits_end_the_trials(rt: HostRuntime) -> Result<(), Fail> {
    let alloc = rt.alloc();
    let whole = conversation(alloc, 8)?;
    let few = Limits {
        trials: 1000,
        commands: 13,
    };
    let mut reduction = Reduction::new(alloc, whole.as_slice(), few)?;
    // The first trial asks all of its seven commands, and the second would ask seven more.
    assert_eq!(rt; reduce(alloc, &mut reduction, &[play(0)])?, 1);
    assert!(rt; !reduction.is_minimal());
    let none = Limits {
        trials: 0,
        commands: 1000,
    };
    let reduction = Reduction::new(alloc, whole.as_slice(), none)?;
    assert!(rt; reduction.next(alloc)?.is_none());
    Ok(())
}

#[test]
fn one_command_alone_is_minimal(rt: HostRuntime) -> Result<(), Fail> {
    let alloc = rt.alloc();
    let reduction = Reduction::new(alloc, &[WRONG], ENOUGH)?;
    assert!(rt; reduction.is_minimal());
    assert!(rt; reduction.next(alloc)?.is_none());
    Ok(())
}
