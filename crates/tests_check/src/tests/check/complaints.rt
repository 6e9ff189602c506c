//! The texts of complaints.
use super::{talk_for, talk_of, without_id};
use crate::asserts::{assert_equal_for, assert_true, text_of};
use go_board::{Game, KoRule};
use gtp_check_course::Lesson;
use gtp_check_judge::{Cause, Kind};
use gtp_check_shortening::superko::game_before;
use gtp_check_talk::{Fault, Purpose, Said};
use gtp_check_texts::complaint::{Complaint, complaint_text};
use gtp_check_texts::last_game::Shown;
use gtp_process::{Ending, PipeCause};
use std::process::Abort;
use std::test::Fail;

/// A complaint without its commands: its number and its lesson, what is wrong, and how the process ended.
type Head = (u32, Lesson, Fault, Ending);

/// A complaint about what was asked on a board of 9x9: the commands with the end of the line of each, and how many of
/// them were answered before; the lines that were sent, and what the engine wrote; whether positional ko explains it;
/// and its text.
struct Row {
    head: Head,
    commands: &'static [(&'static str, usize)],
    answered: usize,
    sent: &'static [u8],
    wrote: &'static [u8],
    is_positional: bool,
    text: &'static str,
}

static ROWS: [Row; 15] = [
    // It can be pasted into an engine.
    Row {
        head: (
            3,
            Lesson::Captures,
            Fault::Wrote(Kind::Took(Cause::NoMoves)),
            Ending::Status(0),
        ),
        commands: &[("clear_board", 14), ("undo", 21), ("undo", 28)],
        answered: 1,
        sent: b"1 clear_board\n2 undo\n3 undo\n",
        wrote: b"=2\n\n",
        is_positional: false,
        text: "# 3 captures: \"2 undo\": it was accepted
1 clear_board
2 undo
# it wrote: \"=2\\n\\n\"
# right: there is no move to take back
# asked before this answer was read:
3 undo

",
    },
    // How the process ended is in the head line.
    Row {
        head: (
            12,
            Lesson::Ko,
            Fault::CutOff(PipeCause::Ended),
            Ending::Signal(11),
        ),
        commands: &[("undo", 7), ("undo", 14), ("undo", 21)],
        answered: 0,
        sent: b"1 undo\n2 undo\n3 undo\n",
        wrote: b"",
        is_positional: false,
        text: "# 12 ko: \"1 undo\": its output ended, signal 11
1 undo
# it wrote: \"\"
# right: an engine answers each command, and reads on until quit
# asked before this answer was read:
2 undo
3 undo

",
    },
    // An output ends within a reply.
    Row {
        head: (
            12,
            Lesson::Ko,
            Fault::CutOff(PipeCause::Ended),
            Ending::Signal(11),
        ),
        commands: &[("undo", 7), ("undo", 14), ("undo", 21)],
        answered: 0,
        sent: b"1 undo\n2 undo\n3 undo\n",
        wrote: b"=1\n",
        is_positional: false,
        text: "# 12 ko: \"1 undo\": its output ended within a reply, signal 11
1 undo
# it wrote: \"=1\\n\"
# right: an answer ends with an empty line: two newlines
# asked before this answer was read:
2 undo
3 undo

",
    },
    // The hint of the other ko rule is a line.
    Row {
        head: (
            12,
            Lesson::Ko,
            Fault::Wrote(Kind::Refused),
            Ending::Signal(11),
        ),
        commands: &[("undo", 7), ("undo", 14), ("undo", 21)],
        answered: 2,
        sent: b"1 undo\n2 undo\n3 undo\n",
        wrote: b"?3 ko\n\n",
        is_positional: true,
        text: "# 12 ko: \"3 undo\": it was refused
1 undo
2 undo
3 undo
# it wrote: \"?3 ko\\n\\n\"
# right: the command succeeds
# under positional ko the refusal is right: try --ko positional, or --ko unasked

",
    },
    // A score is judged by the engine's own scores alone.
    Row {
        head: (
            1,
            Lesson::Komi,
            Fault::Wrote(Kind::OtherScore),
            Ending::Status(0),
        ),
        commands: &[("komi 1", 0), ("clear_board", 0), ("final_score", 0)],
        answered: 2,
        sent: b"",
        wrote: b"=\n\n",
        is_positional: false,
        text: "# 1 komi: \"\": a score that doesn't differ from its others as the komis do
# it wrote: \"=\\n\\n\"
# right: it scored the empty board of this size three times alike with one komi: its scores differ as the komis do
# if it estimates scores: try --score unasked

",
    },
    // A colour written in full may be what isn't accepted, and may be not.
    Row {
        head: (
            1,
            Lesson::Start,
            Fault::Wrote(Kind::Refused),
            Ending::Running,
        ),
        commands: &[("clear_board", 14), ("play black C3", 30)],
        answered: 1,
        sent: b"1 clear_board\n2 play black C3\n",
        wrote: b"?2 syntax error\n\n",
        is_positional: false,
        text: "# 1 start: \"2 play black C3\": it was refused
1 clear_board
2 play black C3
# it wrote: \"?2 syntax error\\n\\n\"
# right: the command succeeds
# if it takes the same with b or w, this is the cause: a colour may be written in full, black or white

",
    },
    Row {
        head: (
            1,
            Lesson::Start,
            Fault::Wrote(Kind::NoMove),
            Ending::Running,
        ),
        commands: &[("clear_board", 14), ("genmove white", 30)],
        answered: 1,
        sent: b"1 clear_board\n2 genmove white\n",
        wrote: b"?2 syntax error\n\n",
        is_positional: false,
        text: "# 1 start: \"2 genmove white\": no move: the genmove failed
1 clear_board
2 genmove white
# it wrote: \"?2 syntax error\\n\\n\"
# right: a genmove succeeds; a player who has no move passes or resigns
# if it takes the same with b or w, this is the cause: a colour may be written in full, black or white

",
    },
    // The same colour was accepted before, so something else is wrong.
    Row {
        head: (
            1,
            Lesson::Start,
            Fault::Wrote(Kind::Refused),
            Ending::Running,
        ),
        commands: &[
            ("boardsize 9", 14),
            ("play black C3", 30),
            ("play black D3", 46),
        ],
        answered: 2,
        sent: b"1 boardsize 9\n2 play black C3\n3 play black D3\n",
        wrote: b"?3 no\n\n",
        is_positional: false,
        text: "# 1 start: \"3 play black D3\": it was refused
1 boardsize 9
2 play black C3
# . . . . . . . . . 9
# . . . . . . . . . 8
# . . . . . . . . . 7
# . . . . . . . . . 6
# . . . . . . . . . 5
# . . . . . . . . . 4
# . . X . . . . . . 3
# . . . . . . . . . 2
# . . . . . . . . . 1
# A B C D E F G H J
3 play black D3
# it wrote: \"?3 no\\n\\n\"
# right: legal: the point is empty, the stone's chain has a liberty then, and no ko forbids it
# the last move was of the same colour: moves of one colour in a row are legal

",
    },
    Row {
        head: (
            1,
            Lesson::Start,
            Fault::Wrote(Kind::NoMove),
            Ending::Running,
        ),
        commands: &[("genmove white", 16), ("genmove white", 32)],
        answered: 1,
        sent: b"1 genmove white\n2 genmove white\n",
        wrote: b"?2 no\n\n",
        is_positional: false,
        text: "# 1 start: \"2 genmove white\": no move: the genmove failed
1 genmove white
# = resign
2 genmove white
# it wrote: \"?2 no\\n\\n\"
# right: a genmove succeeds; a player who has no move passes or resigns

",
    },
    // That the other colour was accepted doesn't show that this one is, nor does another command.
    Row {
        head: (
            1,
            Lesson::Start,
            Fault::Wrote(Kind::NoMove),
            Ending::Running,
        ),
        commands: &[
            ("genmove black", 16),
            ("play white C3", 32),
            ("genmove white", 48),
        ],
        answered: 2,
        sent: b"1 genmove black\n2 play white C3\n3 genmove white\n",
        wrote: b"?3 no\n\n",
        is_positional: false,
        text: "# 1 start: \"3 genmove white\": no move: the genmove failed
1 genmove black
# = resign
2 play white C3
3 genmove white
# it wrote: \"?3 no\\n\\n\"
# right: a genmove succeeds; a player who has no move passes or resigns
# if it takes the same with b or w, this is the cause: a colour may be written in full, black or white

",
    },
    // A reply is longer than what `gtp_check` reads of one: its own limit.
    Row {
        head: (
            5,
            Lesson::Start,
            Fault::Wrote(Kind::Overlong),
            Ending::Running,
        ),
        commands: &[("list_commands", 16)],
        answered: 0,
        sent: b"1 list_commands\n",
        wrote: b"=1 play\n",
        is_positional: false,
        text: "# 5 start: \"1 list_commands\": no end of a reply in 8192 bytes
1 list_commands
# it wrote: \"=1 play\\n\"
# right: two newlines end a reply, within 8,192 bytes: twogtp and this check read no more, though the standard sets no limit

",
    },
    // A list lacks a command.
    Row {
        head: (
            4,
            Lesson::Start,
            Fault::Wrote(Kind::Unlisted),
            Ending::Running,
        ),
        commands: &[("list_commands", 16)],
        answered: 0,
        sent: b"1 list_commands\n",
        wrote: b"=1 play\n\n",
        is_positional: false,
        text: "# 4 start: \"1 list_commands\": a list without a row for a command that each engine has
1 list_commands
# it wrote: \"=1 play\\n\\n\"
# right: each of these has a row of its own: protocol_version name version known_command list_commands quit boardsize clear_board komi play genmove

",
    },
    // What is late may not be flushed.
    Row {
        head: (
            1,
            Lesson::Start,
            Fault::CutOff(PipeCause::Ended),
            Ending::Status(124),
        ),
        commands: &[("name", 7)],
        answered: 0,
        sent: b"1 name\n",
        wrote: b"",
        is_positional: false,
        text: "# 1 start: \"1 name\": its output ended, exit status 124
1 name
# it wrote: \"\"
# right: an engine answers in time: does it flush each answer, and end it with an empty line?

",
    },
    // The drawing shows the board before the command, and the captured stones are named.
    Row {
        head: (
            2,
            Lesson::Captures,
            Fault::Wrote(Kind::Refused),
            Ending::Running,
        ),
        commands: &[
            ("boardsize 9", 14),
            ("play b A1", 26),
            ("play w B1", 38),
            ("play w A2", 50),
            ("name", 57),
        ],
        answered: 3,
        sent: b"1 boardsize 9\n2 play b A1\n3 play w B1\n4 play w A2\n5 name\n",
        wrote: b"?4 no\n\n",
        is_positional: false,
        text: "# 2 captures: \"4 play w A2\": it was refused
1 boardsize 9
2 play b A1
3 play w B1
# . . . . . . . . . 9
# . . . . . . . . . 8
# . . . . . . . . . 7
# . . . . . . . . . 6
# . . . . . . . . . 5
# . . . . . . . . . 4
# . . . . . . . . . 3
# . . . . . . . . . 2
# X O . . . . . . . 1
# A B C D E F G H J
4 play w A2
# it wrote: \"?4 no\\n\\n\"
# right: legal: it captures 1 stone of black: A1
# the last move was of the same colour: moves of one colour in a row are legal
# asked before this answer was read:
5 name

",
    },
    // The right points are those of the board. The engine refuses the size 19, and has a board of 9x9 still.
    Row {
        head: (
            1,
            Lesson::Komi,
            Fault::Wrote(Kind::OtherPoints),
            Ending::Status(0),
        ),
        commands: &[
            ("boardsize 9", 0),
            ("boardsize 19", 0),
            ("clear_board", 0),
            ("fixed_handicap 3", 0),
        ],
        answered: 3,
        sent: b"",
        wrote: b"=\n\n",
        is_positional: false,
        text: "# 1 komi: \"\": other points than those of the handicap
# it wrote: \"=\\n\\n\"
# right: C3 G7 C7; the points of a handicap are fixed by the size and the number

",
    },
];

/// What an engine was asked and wrote, and the game of a right engine before the command that was answered wrongly.
#[derive(Drop)]
struct Asked {
    talk: Vec<Said>,
    game: Option<Game>,
    sent: Vec<u8>,
    wrote: Vec<u8>,
}

/// What a row's engine was asked and wrote.
fn asked_by<R: Abort + AllocGlobal>(rt: &R, row: &Row) -> Asked {
    let talk = talk_of(rt, 9, row.commands);
    let count = row.answered.saturating_add(1).min(talk.len());
    let game = game_before(&talk[..count], KoRule::Simple);
    Asked {
        talk,
        game,
        sent: copied(rt, row.sent),
        wrote: copied(rt, row.wrote),
    }
}

/// The same bytes.
fn copied<R: Abort + AllocGlobal>(rt: &R, bytes: &[u8]) -> Vec<u8> {
    let mut copy = Vec::new(rt.alloc());
    assert_true(rt, copy.extend_from_slice(bytes).is_ok());
    copy
}

/// The complaint of a row.
fn complaint_of(head: Head, answered: usize, is_positional: bool, asked: &Asked) -> Complaint<'_> {
    let (number, lesson, fault, ending) = head;
    Complaint {
        number,
        lesson,
        fault,
        sent: asked.sent.as_slice(),
        delivered: asked.sent.len(),
        talk: asked.talk.as_slice(),
        answered,
        wrote: asked.wrote.as_slice(),
        ending,
        is_positional,
        game: asked.game.as_ref(),
        shown: Shown::Whole,
    }
}

#[test]
fn a_complaint_has_the_conversation_and_what_is_right(rt: HostRuntime) -> Result<(), Fail> {
    for row in &ROWS {
        let asked = asked_by(&rt, row);
        let complaint = complaint_of(row.head, row.answered, row.is_positional, &asked);
        let text = complaint_text(rt.alloc(), &complaint)?;
        assert_equal_for(&rt, row.commands, text_of(&rt, text.as_slice()), row.text);
    }
    Ok(())
}

#[test]
fn a_complaint_says_that_a_line_came_in_two_pieces(rt: HostRuntime) -> Result<(), Fail> {
    let purpose = Purpose {
        lesson: Lesson::Start,
        part: 1,
    };
    let talk = talk_for(&rt, purpose, 9, &[("name", 7), ("version", 17)]);
    let complaint = without_id(
        b"1 name\n2 version\n",
        talk.as_slice(),
        b"? unknown command\n\n",
    );
    let text = complaint_text(rt.alloc(), &complaint)?;
    assert_equal_for(
        &rt,
        complaint.number,
        text_of(&rt, text.as_slice()),
        "# 1 start: \"2 version\": a reply without the id of the command
1 name
2 version
# that line came in two pieces: a right engine waits for its newline
# it wrote: \"? unknown command\\n\\n\"
# right: a reply has the id of the oldest unanswered command: 2

",
    );
    Ok(())
}
