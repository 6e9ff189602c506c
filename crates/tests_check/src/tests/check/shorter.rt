//! Shorter conversations, and the hint of positional ko.
use super::talk_of;
use crate::asserts::{assert_equal, assert_equal_for, assert_true, some};
use crate::tests::commands::command;
use gtp_check_shortening::flat::{last_games, shortened, shortenings, standing_before};
use gtp_check_shortening::superko::is_positional;
use std::test::Fail;

/// Two games. In the first a stone is put on another one, and two moves are undone.
static TWO_GAMES: [(&str, usize); 17] = [
    ("known_command undo", 0),
    ("known_command final_score", 0),
    ("boardsize 9", 0),
    ("komi 0.5", 0),
    ("boardsize 5", 0),
    ("clear_board", 0),
    ("play b A1", 0),
    ("komi 1.5", 0),
    ("play b A1", 0),
    ("play b B1", 0),
    ("genmove w", 0),
    ("undo", 0),
    ("undo", 0),
    ("clear_board", 0),
    ("play b C3", 0),
    ("undo", 0),
    ("final_score", 0),
];

/// How many of the last games are kept, whether they are kept whole and not flat, and the commands that are kept.
static SHORTER: [(usize, bool, &[&str]); 3] = [
    (
        1,
        false,
        &[
            "known_command final_score",
            "boardsize 5",
            "komi 1.5",
            "clear_board",
            "final_score",
        ],
    ),
    (
        1,
        true,
        &[
            "known_command undo",
            "known_command final_score",
            "boardsize 5",
            "komi 1.5",
            "clear_board",
            "play b C3",
            "undo",
            "final_score",
        ],
    ),
    (
        2,
        false,
        &[
            "known_command final_score",
            "boardsize 5",
            "komi 0.5",
            "clear_board",
            "play b A1",
            "komi 1.5",
            "clear_board",
            "final_score",
        ],
    ),
];

#[test]
fn the_last_games_are_flat_or_whole_and_ever_more_are_tried(rt: HostRuntime) -> Result<(), Fail> {
    let mut talk = talk_of(&rt, 5, &TWO_GAMES);
    some(&rt, talk.get_mut(8)).is_illegal = true;
    for (games, is_whole, texts) in &SHORTER {
        let mut wanted = Vec::new(rt.alloc());
        for text in *texts {
            wanted.push(command(&rt, text))?;
        }
        let shortening = last_games(*games, *is_whole);
        let commands = shortened(rt.alloc(), talk.as_slice(), shortening)?;
        assert_equal_for(&rt, *texts, commands.as_slice(), wanted.as_slice());
    }
    let mut last: usize = 0;
    for one in shortenings() {
        assert_true(&rt, one.games >= last);
        last = one.games;
    }
    assert_equal(&rt, last, 256);
    Ok(())
}

/// A game, with the number of moves before each command. Black captures A1, plays there, and captures E1. White's C4
/// and D4 are undone, and its B1 is refused, since the point is occupied.
static CAPTURES: [(&str, usize); 18] = [
    ("boardsize 5", 0),
    ("komi 6.5", 0),
    ("clear_board", 0),
    ("play b A2", 0),
    ("play w A1", 1),
    ("play b B1", 2),
    ("play w E1", 3),
    ("play b D1", 4),
    ("play b A1", 5),
    ("play b E2", 6),
    ("play w C4", 7),
    ("undo", 8),
    ("play w B1", 7),
    ("play b pass", 7),
    ("play w E5", 8),
    ("play w D4", 9),
    ("undo", 10),
    ("genmove b", 9),
];

/// How many of the last commands are kept, whether they are kept whole and not flat, and the commands that are kept
/// after those that set the board up.
static KEPT: [(usize, bool, &[&str]); 5] = [
    (1, false, &["play w E5", "genmove b"]),
    (4, false, &["play w E5", "genmove b"]),
    (4, true, &["play w E5", "play w D4", "undo", "genmove b"]),
    // The stone that is undone was on the board when these began.
    (2, true, &["play w E5", "play w D4", "undo", "genmove b"]),
    (
        8,
        true,
        &[
            "play w C4",
            "undo",
            "play w B1",
            "play b pass",
            "play w E5",
            "play w D4",
            "undo",
            "genmove b",
        ],
    ),
];

/// The commands that set the board up, without the captured stones and without the pass.
static SET_UP: [&str; 8] = [
    "boardsize 5",
    "komi 6.5",
    "clear_board",
    "play b A2",
    "play b B1",
    "play b D1",
    "play b A1",
    "play b E2",
];

#[test]
fn the_last_commands_stay_on_the_board_as_it_stood(rt: HostRuntime) -> Result<(), Fail> {
    let mut talk = talk_of(&rt, 5, &CAPTURES);
    for index in 0..talk.len() {
        let said = some(&rt, talk.get_mut(index));
        said.moves = said.end;
        said.is_illegal = index == 12;
    }
    for (kept, is_whole, texts) in &KEPT {
        let mut wanted = Vec::new(rt.alloc());
        if *is_whole {
            wanted.push(command(&rt, "known_command undo"))?;
        }
        for text in &SET_UP {
            wanted.push(command(&rt, text))?;
        }
        for text in *texts {
            wanted.push(command(&rt, text))?;
        }
        let shortening = standing_before(*kept, *is_whole);
        let commands = shortened(rt.alloc(), talk.as_slice(), shortening)?;
        assert_equal_for(&rt, *texts, commands.as_slice(), wanted.as_slice());
    }
    // The game has 16 commands, and no others are kept.
    let mut wanted = Vec::new(rt.alloc());
    wanted.push(command(&rt, "known_command undo"))?;
    for (text, _) in &CAPTURES {
        wanted.push(command(&rt, text))?;
    }
    for kept in [16, 17, 256] {
        let shortening = standing_before(kept, true);
        let commands = shortened(rt.alloc(), talk.as_slice(), shortening)?;
        assert_equal_for(&rt, kept, commands.as_slice(), wanted.as_slice());
    }
    Ok(())
}

/// Conversations that differ in the size and in the last two commands, and whether positional ko forbids the last one.
/// White captures B1. Once Black has passed, B1 recaptures A1, and the board is the one after White's B2.
static LAST_PLAYS: [(&str, &[&str], bool); 5] = [
    ("boardsize 5", &["play b pass", "play b B1"], true),
    // The play before isn't one that it forbids.
    ("boardsize 5", &["play b pass"], false),
    // The board isn't of the size that they set: the engine refused it.
    ("boardsize 6", &["play b pass", "play b B1"], false),
    // A move of the engine's own isn't known.
    ("boardsize 5", &["genmove w", "play b B1"], false),
    // A stone is there.
    ("boardsize 5", &["play b pass", "play b A1"], false),
];

#[test]
fn positional_ko_explains_a_refusal(rt: HostRuntime) {
    for (size, last, is_so) in &LAST_PLAYS {
        let mut texts = Vec::new(rt.alloc());
        for text in [
            *size,
            "clear_board",
            "play b A2",
            "play w C1",
            "play b B1",
            "play w B2",
            "play w A1",
        ] {
            assert_true(&rt, texts.push((text, 0)).is_ok());
        }
        for text in *last {
            assert_true(&rt, texts.push((*text, 0)).is_ok());
        }
        let talk = talk_of(&rt, 5, texts.as_slice());
        assert_equal_for(&rt, (*size, *last), is_positional(talk.as_slice()), *is_so);
    }
}
