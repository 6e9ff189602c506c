//! From the options to the plan of a check.
ghost use Rattle.std.specs.Prelude.{◌≡◌, IfOk, IfErr, filter, if◌then◌else◌, not};
ghost use Rattle.gtp_check_course.specs.Lessons.{all_lessons};
ghost use Rattle.gtp_check_talk.specs.Among.{is_among};
ghost use Rattle.gtp_check_app.specs.Plans.{HasNoPlan, IsCommand, IsPlanOf, IsSceneSize, is_chosen, is_quick};

use crate::failure::Mistake;
use crate::options::{Options, add_if};
use cli::failure::PlanError;
use go_base::Size;
use gtp_check_course::{LESSONS, Lesson, Lessons, Plan};
use gtp_check_talk::is_among;
use std::alloc::{AllocError, Global};

/// Returns the plan that the options ask for. `shows_progress` goes into it as it is.
///
/// # Errors
///
/// If memory can't be allocated, or for a usage error: the command has only spaces, or else no lesson is left.
pub fn plan_of<'a>(
    alloc: Global,
    options: &Options<'a>,
    shows_progress: bool,
) -> Result<Plan<'a>, PlanError<Mistake>>
    ensures plan { IfOk result (IsPlanOf options.now shows_progress) }
    ensures no_plan { IfErr result (HasNoPlan options.now) }
{
    let words = words_of(alloc, options.command)?;
    if words.is_empty() {
        return Err(PlanError::BadWords(Mistake::NoCommand));
    }
    let lessons = chosen(options);
    if lessons.is_empty() {
        return Err(PlanError::BadWords(Mistake::NoLesson));
    }
    Ok(Plan {
        words,
        scene_size: scene_size_of(options.size),
        rule: options.rule,
        unasked: options.unasked,
        seed: options.seed,
        lessons,
        left_out: left_out(options),
        singly: options.singly,
        restarts: restarts_of(options),
        trials: options.trials,
        shows_progress,
    })
}

/// How often the engine may be restarted after complaints: never if the first one ends the check.
fn restarts_of(options: &Options<'_>) -> u32
    ensures { result ≡ (if options.now.stop_at_first then 0 else options.now.restarts) }
{
    if options.stop_at_first {
        0
    } else {
        options.restarts
    }
}

/// The board size for scenes, if the number is one.
fn scene_size_of(number: u32) -> Option<Size>
    ensures { IsSceneSize number result }
{
    Size::new(number)
}

/// The lessons that the options ask for.
fn chosen(options: &Options<'_>) -> Lessons
    ensures { result.items ≡ filter (is_chosen options.now) all_lessons }
{
    let mut lessons = Lessons::new();
    for lesson in LESSONS {
        add_if(&mut lessons, lesson, is_chosen(options, lesson));
    }
    lessons
}

/// The lessons that are left out.
fn left_out(options: &Options<'_>) -> Lessons
    ensures { result.items ≡ filter (λ lesson. not (is_chosen options.now lesson)) all_lessons }
{
    let mut lessons = Lessons::new();
    for lesson in LESSONS {
        add_if(&mut lessons, lesson, !is_chosen(options, lesson));
    }
    lessons
}

/// Whether the options ask for a lesson.
fn is_chosen(options: &Options<'_>, lesson: Lesson) -> bool
    ensures { result ≡ is_chosen options.now lesson }
{
    (options.only.is_empty() || is_among(&options.only, lesson))
        && !is_among(&options.skip, lesson)
        && (!options.quick || is_quick(lesson))
}

/// Whether `--quick` keeps a lesson: one of the first eight.
fn is_quick(lesson: Lesson) -> bool
    ensures { result ≡ is_quick lesson }
{
    match lesson {
        Lesson::Start
        | Lesson::Placed
        | Lesson::Errors
        | Lesson::Sizes
        | Lesson::Ko
        | Lesson::Captures
        | Lesson::Suicide
        | Lesson::Joining => true,
        Lesson::Handicaps
        | Lesson::Komi
        | Lesson::Drawn
        | Lesson::Record
        | Lesson::Genmoves
        | Lesson::Games
        | Lesson::Restarts => false,
    }
}

/// Splits a command at runs of spaces, into the program and its arguments.
fn words_of<'a>(alloc: Global, command: &'a str) -> Result<Vec<&'a str>, AllocError>
    ensures { IfOk result (λ found. IsCommand command.entry.now found.items) }
{
    command
        .split(' ')
        .filter(|word| !word.is_empty())
        .collect(alloc)
}
