//! The first line and the last lines of a check.
ghost use Rattle.std.specs.Prelude.{◌≡◌, ◌≤◌, ◌++◌, length, map, IfOk, OnOk};
ghost use Rattle.std.specs.List.{concat};
ghost use Rattle.gtp_process.specs.Shown.{unstarted_text};
ghost use Rattle.gtp_check_texts.specs.Summary.{counted_text, counts_line, first_line, hidden_line, hidden_lines};
ghost use Rattle.gtp_check_texts.specs.Summary.{hidden_of, ko_text};
ghost use Rattle.gtp_check_texts.specs.Summary.{is_unplayed, unplayed_line, unplayed_lines};
ghost use Rattle.gtp_check_texts.specs.Summary.{lack_line, lack_lines, last_lines, lessons_line, missed_lines, plural};
ghost use Rattle.gtp_check_texts.specs.Summary.{refused_line, shown_or, sizes_line, spaced_name, spaced_size};
ghost use Rattle.gtp_check_texts.specs.Summary.{undos_line, unjudged_line, unjudged_text, unstarted_line};

use crate::texts::add_all;
use arrayvec::ArrayVec;
use go_base::{push, write_int};
use go_board::KoRule;
use gtp_check_course::{LESSONS, Lesson, Lessons, Plan};
use gtp_check_talk::is_among;
use gtp_check_talk::notes::{Beginning, Notes};
use gtp_process::{Unstarted, push_quoted, push_unstarted};
use std::alloc::{AllocError, Global};

/// Why a check is over.
#[derive(Drop)]
pub enum Over {
    /// Each lesson of the course was asked.
    Done,
    /// No start of the engine is left.
    NoMoreStarts,
    /// It was started three times in a row, and gave no correct reply.
    NoRightAnswer,
    /// It couldn't be started.
    NotStarted(Unstarted),
}

/// Returns the first line: the engine's name and version, the seed and the ko rule.
///
/// # Errors
///
/// If memory can't be allocated.
pub fn first_line(alloc: Global, plan: &Plan<'_>, notes: &Notes) -> Result<Vec<u8>, AllocError>
    ensures { IfOk result (λ text. text.items ≡ first_line plan.now notes.now) }
{
    let mut text = Vec::new(alloc);
    add_all(
        &mut text,
        &[
            b"check: ",
            &shown_or(&notes.name, b"an engine without a name"),
            b", version ",
            &shown_or(&notes.version, b"unknown"),
            b", seed ",
            &write_int(plan.seed),
            ko_text(plan.rule, plan.unasked.ko),
        ],
    )?;
    Ok(text)
}

/// Returns what the engine answered, or this other text.
fn shown_or(beginning: &Option<Beginning>, other: &[u8]) -> ArrayVec<u8, 322>
    requires { length other.now ≤ 322 }
    ensures { result.items ≡ shown_or beginning.now other.now }
{
    let mut shown = ArrayVec::new();
    match beginning {
        Some(beginning) => push_quoted(&mut shown, beginning),
        None => push(&mut shown, other),
    }
    shown
}

/// Returns the ko rule, or that ko isn't asked, as the end of the first line.
fn ko_text(rule: KoRule, is_unasked: bool) -> &'static [u8]
    ensures { result.now ≡ ko_text rule is_unasked }
{
    match (rule, is_unasked) {
        (_, true) => b", ko unasked\n",
        (KoRule::Simple, false) => b", simple ko\n",
        (KoRule::Positional, false) => b", positional ko\n",
    }
}

/// What the last lines report.
#[derive(Clone, Copy)]
pub struct Ending<'c> {
    /// Why the check is over.
    pub over: &'c Over,
    /// The lessons that should have been asked and weren't, or not to their end.
    pub missed: &'c [Lesson],
    /// How many complaints of each lesson aren't shown, in the order of all lessons.
    pub hidden: &'c [u32],
    /// How often the engine was started.
    pub starts: u32,
    /// How many complaints there are.
    pub complaints: u32,
    /// How many moves by `genmove` weren't judged.
    pub unjudged: u32,
}

/// Returns the last lines: what wasn't shown, what wasn't asked and why, and the counts.
///
/// # Errors
///
/// If memory can't be allocated.
pub fn last_lines(
    alloc: Global,
    plan: &Plan<'_>,
    notes: &Notes,
    ending: &Ending<'_>,
) -> Result<Vec<u8>, AllocError>
    ensures { IfOk result (λ text. text.items ≡ last_lines plan.now notes.now ending.now) }
{
    let mut text = Vec::new(alloc);
    add_hidden(&mut text, ending.hidden)?;
    add_lessons(&mut text, &plan.left_out, b"not asked, as the options say:")?;
    add_missed(&mut text, ending.over, ending.missed)?;
    add_unplayed(&mut text, &plan.lessons, ending.missed, &notes.answered)?;
    add_lacks(&mut text, notes)?;
    add_most_undos(&mut text, notes.most_undos)?;
    add_refused(&mut text, &notes.refused)?;
    add_unjudged(&mut text, ending.unjudged)?;
    add_counts(&mut text, notes.commands, ending.starts, ending.complaints)?;
    Ok(text)
}

/// Appends how many complaints of the lessons aren't shown.
fn add_hidden(text: &mut Vec<u8>, hidden: &[u32]) -> Result<(), AllocError>
    ensures { OnOk result (text.new.items ≡ text.old.items ++ hidden_lines hidden.now) }
{
    for lesson in LESSONS {
        add_hidden_of(text, hidden, lesson)?;
    }
    Ok(())
}

/// The same for one lesson.
fn add_hidden_of(text: &mut Vec<u8>, hidden: &[u32], lesson: Lesson) -> Result<(), AllocError>
    ensures { OnOk result (text.new.items ≡ text.old.items ++ hidden_line hidden.now lesson) }
{
    let count = hidden_of(hidden, lesson);
    if count == 0 {
        return Ok(());
    }
    add_all(
        text,
        &[
            b"check: ",
            lesson.name().as_bytes(),
            b": more complaints, of kinds that were shown three times: ",
            &write_int(count),
            b"\n",
        ],
    )
}

/// Returns how many complaints of a lesson aren't shown.
fn hidden_of(hidden: &[u32], lesson: Lesson) -> u32
    ensures { result ≡ hidden_of hidden.now lesson }
{
    hidden.get(lesson.number()).copied().unwrap_or(0)
}

/// Appends a line that names lessons, if there are any.
fn add_lessons(text: &mut Vec<u8>, lessons: &[Lesson], what: &[u8]) -> Result<(), AllocError>
    ensures { OnOk result (text.new.items ≡ text.old.items ++ lessons_line what.now lessons.now) }
{
    if lessons.is_empty() {
        return Ok(());
    }
    text.extend_from_slice(b"check: ")?;
    text.extend_from_slice(what)?;
    add_names(text, lessons)?;
    text.extend_from_slice(b"\n")?;
    Ok(())
}

/// Appends the names of lessons, each after a space.
fn add_names(text: &mut Vec<u8>, lessons: &[Lesson]) -> Result<(), AllocError>
    ensures { OnOk result (text.new.items ≡
        text.old.items ++ concat (map spaced_name lessons.now)) }
{
    for lesson in lessons {
        add_name(text, *lesson)?;
    }
    Ok(())
}

/// Appends the name of a lesson, after a space.
fn add_name(text: &mut Vec<u8>, lesson: Lesson) -> Result<(), AllocError>
    ensures { OnOk result (text.new.items ≡ text.old.items ++ spaced_name lesson) }
{
    text.extend_from_slice(b" ")?;
    text.extend_from_slice(lesson.name().as_bytes())?;
    Ok(())
}

/// Appends the lessons that should have been asked and weren't, and why.
fn add_missed(text: &mut Vec<u8>, over: &Over, missed: &[Lesson]) -> Result<(), AllocError>
    ensures { OnOk result (text.new.items ≡ text.old.items ++ missed_lines over.now missed.now) }
{
    match over {
        Over::Done => Ok(()),
        Over::NoMoreStarts => add_lessons(
            text,
            missed,
            b"not asked, or not to their end, since no start was left:",
        ),
        Over::NoRightAnswer => add_lessons(
            text,
            missed,
            b"not asked, or not to their end, after three starts without a right answer:",
        ),
        Over::NotStarted(unstarted) => {
            add_unstarted(text, unstarted)?;
            add_lessons(text, missed, b"not asked, or not to their end, for that:")
        }
    }
}

/// Appends those of these lessons that were completed, but had no move answered correctly, one a line.
fn add_unplayed(
    text: &mut Vec<u8>,
    lessons: &[Lesson],
    missed: &[Lesson],
    answered: &[Lesson],
) -> Result<(), AllocError>
    ensures { OnOk result (text.new.items ≡
        text.old.items ++ unplayed_lines lessons.now missed.now answered.now) }
{
    for lesson in LESSONS {
        add_if_unplayed(text, is_unplayed(lessons, missed, answered, lesson), lesson)?;
    }
    Ok(())
}

/// Appends the line of a lesson, if it is one of those.
fn add_if_unplayed(text: &mut Vec<u8>, is_one: bool, lesson: Lesson) -> Result<(), AllocError>
    ensures { OnOk result (text.new.items ≡ text.old.items ++ unplayed_line is_one lesson) }
{
    if !is_one {
        return Ok(());
    }
    add_all(
        text,
        &[
            b"check: ",
            lesson.name().as_bytes(),
            b": no play and no genmove was answered rightly on any board of it\n",
        ],
    )
}

/// Returns whether a lesson is among these and isn't missed, but had no move answered correctly.
fn is_unplayed(lessons: &[Lesson], missed: &[Lesson], answered: &[Lesson], lesson: Lesson) -> bool
    ensures { result ≡ is_unplayed lessons.now missed.now answered.now lesson }
{
    if !is_among(lessons, lesson) || is_among(missed, lesson) {
        return false;
    }
    !is_among(answered, lesson)
}

/// Appends the line of a program that couldn't be started.
fn add_unstarted(text: &mut Vec<u8>, unstarted: &Unstarted) -> Result<(), AllocError>
    ensures { OnOk result (text.new.items ≡ text.old.items ++ unstarted_line unstarted.now) }
{
    add_all(
        text,
        &[b"check: the engine was ", &unstarted_text(unstarted), b"\n"],
    )
}

/// Returns why a program couldn't be started.
fn unstarted_text(unstarted: &Unstarted) -> ArrayVec<u8, 397>
    ensures { result.items ≡ unstarted_text unstarted.now }
{
    let mut text = ArrayVec::new();
    push_unstarted(&mut text, unstarted);
    text
}

/// Appends the commands that the engine said it lacks.
fn add_lacks(text: &mut Vec<u8>, notes: &Notes) -> Result<(), AllocError>
    ensures { OnOk result (text.new.items ≡ text.old.items ++ lack_lines notes.now) }
{
    add_lack(text, notes.lacks_handicap, b"fixed_handicap")?;
    add_lack(text, notes.lacks_undo, b"undo")?;
    add_lack(text, notes.lacks_score, b"final_score")?;
    Ok(())
}

/// Appends a command that the engine said it lacks, if it did.
fn add_lack(text: &mut Vec<u8>, lacks: bool, name: &[u8]) -> Result<(), AllocError>
    ensures { OnOk result (text.new.items ≡ text.old.items ++ lack_line lacks name.now) }
{
    if !lacks {
        return Ok(());
    }
    add_all(
        text,
        &[
            b"check: it lacks ",
            name,
            b"; nothing was asked that needs it\n",
        ],
    )
}

/// Appends how many moves in a row the engine had undone when it first refused an `undo`.
fn add_most_undos(text: &mut Vec<u8>, most: Option<u32>) -> Result<(), AllocError>
    ensures { OnOk result (text.new.items ≡ text.old.items ++ undos_line most) }
{
    let Some(most) = most else {
        return Ok(());
    };
    text.extend_from_slice(b"check: it first refused an undo after ")?;
    add_count(text, most, b" undo")?;
    text.extend_from_slice(b" in a row\n")?;
    Ok(())
}

/// Appends the sizes that the engine refused, if there are any.
fn add_refused(text: &mut Vec<u8>, sizes: &[u32]) -> Result<(), AllocError>
    ensures { OnOk result (text.new.items ≡ text.old.items ++ refused_line sizes.now) }
{
    if sizes.is_empty() {
        return Ok(());
    }
    add_refusals(text, sizes)?;
    Ok(())
}

/// Appends a line of these sizes.
fn add_refusals(text: &mut Vec<u8>, sizes: &[u32]) -> Result<(), AllocError>
    ensures { OnOk result (text.new.items ≡ text.old.items ++ sizes_line sizes.now) }
{
    text.extend_from_slice(b"check: it refuses the sizes")?;
    add_sizes(text, sizes)?;
    text.extend_from_slice(b"\n")?;
    Ok(())
}

/// Appends sizes, each after a space.
fn add_sizes(text: &mut Vec<u8>, sizes: &[u32]) -> Result<(), AllocError>
    ensures { OnOk result (text.new.items ≡
        text.old.items ++ concat (map spaced_size sizes.now)) }
{
    for size in sizes {
        add_size(text, *size)?;
    }
    Ok(())
}

/// Appends a size, after a space.
fn add_size(text: &mut Vec<u8>, size: u32) -> Result<(), AllocError>
    ensures { OnOk result (text.new.items ≡ text.old.items ++ spaced_size size) }
{
    text.extend_from_slice(b" ")?;
    text.extend_from_slice(&write_int(size))?;
    Ok(())
}

/// Appends how many moves that a `genmove` chose weren't judged, if there are any.
fn add_unjudged(text: &mut Vec<u8>, unjudged: u32) -> Result<(), AllocError>
    ensures { OnOk result (text.new.items ≡ text.old.items ++ unjudged_line unjudged) }
{
    if unjudged == 0 {
        return Ok(());
    }
    add_unjudged_text(text, unjudged)?;
    Ok(())
}

/// Appends the line that this many weren't judged.
fn add_unjudged_text(text: &mut Vec<u8>, unjudged: u32) -> Result<(), AllocError>
    ensures { OnOk result (text.new.items ≡ text.old.items ++ unjudged_text unjudged) }
{
    text.extend_from_slice(b"check: ")?;
    add_count(text, unjudged, b" move")?;
    text.extend_from_slice(b" by genmove, not judged, as the options say\n")?;
    Ok(())
}

/// Appends the last line.
fn add_counts(
    text: &mut Vec<u8>,
    commands: u32,
    starts: u32,
    complaints: u32,
) -> Result<(), AllocError>
    ensures { OnOk result (text.new.items ≡
        text.old.items ++ counts_line commands starts complaints) }
{
    text.extend_from_slice(b"check: ")?;
    add_count(text, commands, b" command")?;
    text.extend_from_slice(b", ")?;
    add_count(text, starts, b" start")?;
    text.extend_from_slice(b", ")?;
    add_count(text, complaints, b" complaint")?;
    text.extend_from_slice(b"\n")?;
    Ok(())
}

/// Appends a number and what it counts.
fn add_count(text: &mut Vec<u8>, number: u32, what: &[u8]) -> Result<(), AllocError>
    ensures { OnOk result (text.new.items ≡ text.old.items ++ counted_text number what.now) }
{
    text.extend_from_slice(&write_int(number))?;
    text.extend_from_slice(what)?;
    text.extend_from_slice(plural(number))?;
    Ok(())
}

/// Returns the ending of what is counted.
pub fn plural(number: u32) -> &'static [u8]
    ensures { result.now ≡ plural number }
{
    match number {
        1 => b"",
        _ => b"s",
    }
}
