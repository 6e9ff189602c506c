//! Replies and commands as they are written.
use crate::asserts::{assert_equal_for, some};
use go_base::{Colour, Komi, Move, Point, Size, Vertex};
use gtp_wire::{Command, write_command, write_reply};

/// Whether a reply says that its command succeeded, its id, its text, and how it is written.
static REPLIES: [(bool, Option<u32>, &[u8], &str); 4] = [
    (true, None, b"", "=\n\n"),
    (true, Some(7), b"", "=7\n\n"),
    (true, None, b"2", "= 2\n\n"),
    (false, Some(5), b"unknown command", "?5 unknown command\n\n"),
];

#[test]
fn replies_and_commands_are_written_as_the_protocol_has_them(rt: HostRuntime) {
    for (ok, id, text, wanted) in &REPLIES {
        let written = write_reply(*ok, *id, text);
        assert_equal_for(&rt, wanted, written.as_slice(), wanted.as_bytes());
    }
    let size = some(&rt, Size::new(19));
    let komi = some(&rt, Komi::from_half_points(13));
    let played = Move {
        colour: Colour::White,
        vertex: Vertex::At(some(&rt, Point::new(16, 10))),
    };
    let passed = Move {
        colour: Colour::Black,
        vertex: Vertex::Pass,
    };
    let commands = [
        (Some(1), Command::Boardsize(size), "1 boardsize 19\n"),
        (Some(2), Command::Komi(komi), "2 komi 6.5\n"),
        (Some(3), Command::ClearBoard, "3 clear_board\n"),
        (Some(4), Command::FixedHandicap(2), "4 fixed_handicap 2\n"),
        (Some(5), Command::Play(played), "5 play w Q10\n"),
        (Some(6), Command::Genmove(Colour::Black), "6 genmove b\n"),
        (Some(7), Command::Undo, "7 undo\n"),
        (Some(8), Command::Play(passed), "8 play b pass\n"),
        (None, Command::Undo, "undo\n"),
        (None, Command::Quit, "quit\n"),
    ];
    for (id, command, wanted) in &commands {
        let written = write_command(*id, command);
        assert_equal_for(&rt, wanted, written.as_slice(), wanted.as_bytes());
    }
}
