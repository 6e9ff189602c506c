//! The list of lessons.
ghost use Rattle.std.specs.Prelude.{◌≡◌, ◌++◌, length, IfOk, OnOk};
ghost use Rattle.gtp_check_texts.specs.Listing.{lesson_line, list_lines, spaces_after};

use crate::texts::add_all;
use gtp_check_course::{LESSONS, Lesson};
use std::alloc::{AllocError, Global};

/// What each lesson asks, in the order of a course, and where the rule is: a section of docs/rules.md or
/// docs/protocol.md.
static ASKED: [&[u8]; 15] = [
    b"the first moves, on the smallest board from 5x5 (protocol: Replies)",
    b"the stones of the engine's moves, and whose they are (rules: A play)",
    b"commands that have to fail, and some that never do (protocol: Replies)",
    b"each size, its corners, and points off it (protocol: Values)",
    b"kos, also after a handicap and an undo (rules: Ko)",
    b"captures of stones and chains, and legal retakes (rules: A play)",
    b"moves that leave their own chain no liberty (rules: Suicide)",
    b"chains that are joined, and their capture (rules: A play)",
    b"each number of stones on each size (protocol: Handicap points)",
    b"komis, by the score of an empty board (protocol: Values)",
    b"random games on several sizes, and points of them (rules)",
    b"records of nearly 2000 moves (protocol: Commands)",
    b"moves of the engine, up to a full board (rules: A play)",
    b"several games in one process (protocol: Commands)",
    b"games after a new start (protocol: Commands)",
];

/// Returns the lessons, one a line: the name, what is asked, and where the rule is.
///
/// # Errors
///
/// If memory can't be allocated.
pub fn list_text(alloc: Global) -> Result<Vec<u8>, AllocError>
    ensures { IfOk result (λ text. text.items ≡ list_lines) }
{
    let mut text = Vec::new(alloc);
    for lesson in LESSONS {
        add_line(&mut text, lesson)?;
    }
    Ok(text)
}

/// Appends the line of a lesson.
fn add_line(text: &mut Vec<u8>, lesson: Lesson) -> Result<(), AllocError>
    ensures { OnOk result (text.new.items ≡ text.old.items ++ lesson_line lesson) }
{
    let name = lesson.name().as_bytes();
    add_all(
        text,
        &[name, spaces_after(name), ASKED[lesson.number()], b"\n"],
    )
}

/// Returns the spaces after a name: up to thirteen bytes together.
fn spaces_after(name: &[u8]) -> &'static [u8]
    ensures { result.now ≡ spaces_after (length name.now) }
{
    &b"             "[name.len().min(12)..]
}
