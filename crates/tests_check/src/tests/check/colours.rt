//! What complaints say of moves of one colour in a row.
use super::talk_of;
use crate::asserts::{assert_equal_for, some};
use go_board::{Game, KoRule, PlayFault};
use gtp_check_course::Lesson;
use gtp_check_judge::{Cause, Kind};
use gtp_check_shortening::superko::game_before;
use gtp_check_talk::{Fault, Said};
use gtp_check_texts::complaint::{Complaint, complaint_text};
use gtp_check_texts::last_game::Shown;
use gtp_process::{Ending, PipeCause};
use std::process::Abort;

/// The line that says so, which is the last of these blocks, or comes before the one about a colour in full.
const LINE: &[u8] =
    b"\n# the last move was of the same colour: moves of one colour in a row are legal\n\n";

const LINE_IN_FULL: &[u8] =
    b"\n# the last move was of the same colour: moves of one colour in a row are legal\n# if it takes the same \
      with b or w, this is the cause: a colour may be written in full, black or white\n\n";

/// Commands, whose lines aren't given; what was wrong with the answer to the last of them; and whether it is said that
/// moves of one colour in a row are legal.
type Row = (&'static [(&'static str, usize)], Fault, bool);

const REFUSED: Fault = Fault::Wrote(Kind::Refused);

const OCCUPIED: Fault = Fault::Wrote(Kind::Took(Cause::BadMove(PlayFault::Occupied)));

static ROWS: [Row; 12] = [
    (
        &[("boardsize 9", 0), ("play b A1", 0), ("play b B2", 0)],
        REFUSED,
        true,
    ),
    (
        &[("boardsize 9", 0), ("play w A1", 0), ("play w pass", 0)],
        REFUSED,
        true,
    ),
    (
        &[("boardsize 9", 0), ("play b pass", 0), ("play black B2", 0)],
        REFUSED,
        true,
    ),
    // The last move had the other colour, was undone, or wasn't made.
    (
        &[("boardsize 9", 0), ("play b A1", 0), ("play w B2", 0)],
        REFUSED,
        false,
    ),
    (
        &[("boardsize 9", 0), ("play w A1", 0), ("play b B2", 0)],
        REFUSED,
        false,
    ),
    (
        &[
            ("boardsize 9", 0),
            ("play b A1", 0),
            ("undo", 0),
            ("play b B2", 0),
        ],
        REFUSED,
        false,
    ),
    (
        &[
            ("boardsize 9", 0),
            ("play w A1", 0),
            ("play b B2", 0),
            ("undo", 0),
            ("play w C3", 0),
        ],
        REFUSED,
        true,
    ),
    (
        &[
            ("boardsize 9", 0),
            ("play b A1", 0),
            ("clear_board", 0),
            ("play b B2", 0),
        ],
        REFUSED,
        false,
    ),
    // What was refused is no move, or it wasn't refused.
    (
        &[("boardsize 9", 0), ("play b A1", 0), ("undo", 0)],
        REFUSED,
        false,
    ),
    (
        &[("boardsize 9", 0), ("play b A1", 0), ("play b A1", 0)],
        OCCUPIED,
        false,
    ),
    (
        &[("boardsize 9", 0), ("play b A1", 0), ("genmove b", 0)],
        Fault::Wrote(Kind::NoMove),
        false,
    ),
    (
        &[("boardsize 9", 0), ("play b A1", 0), ("play b B2", 0)],
        Fault::CutOff(PipeCause::Ended),
        false,
    ),
];

/// The complaint about the last of these commands.
fn complaint_of<'t>(
    fault: Fault,
    answered: usize,
    talk: &'t [Said],
    game: &'t Game,
) -> Complaint<'t> {
    Complaint {
        number: 1,
        lesson: Lesson::Ko,
        fault,
        sent: b"",
        delivered: 0,
        talk,
        answered,
        wrote: b"",
        ending: Ending::Running,
        is_positional: false,
        game: Some(game),
        shown: Shown::Whole,
    }
}

/// Whether the block of the complaint about the last of these commands ends with the line.
fn is_said_of<R: Abort + AllocGlobal>(rt: &R, commands: &[(&str, usize)], fault: Fault) -> bool {
    let talk = talk_of(rt, 9, commands);
    let game = some(rt, game_before(talk.as_slice(), KoRule::Simple));
    let answered = talk.len().saturating_sub(1);
    let complaint = complaint_of(fault, answered, talk.as_slice(), &game);
    let text = some(rt, complaint_text(rt.alloc(), &complaint).ok());
    text.as_slice().ends_with(LINE) || text.as_slice().ends_with(LINE_IN_FULL)
}

#[test]
fn a_refused_move_of_the_last_ones_colour_is_said_to_be_legal(rt: HostRuntime) {
    for (commands, fault, is_said) in &ROWS {
        assert_equal_for(&rt, *commands, is_said_of(&rt, commands, *fault), *is_said);
    }
}
