//! Runs that were worked out by hand.
use super::scenes::{Recorded, Step, Until, assert_same_world};
use crate::tests::shows::Shows;
use go_base::Colour::{Black, White};
use gtp_match::{Action, Verdict};
use gtp_world::Event;
use std::process::Abort;

/// Both sides are brought into step, Black first.
pub static IN_STEP: [Step; 7] = [
    Step::Event(Event::Act),
    Step::Event(Event::Act),
    Step::Rounds(Black, 3),
    Step::Rounds(White, 3),
    Step::See(Shows::InStep(Black, true)),
    Step::See(Shows::InStep(White, true)),
    Step::See(Shows::Moves(0)),
];

/// Then Black is asked for a move, which its engine makes.
pub static BLACK_MOVES: [Step; 5] = [
    Step::Event(Event::Act),
    Step::ToEngine(Black, b"4 genmove b\n"),
    Step::Event(Event::ToEngine(Black, 100)),
    Step::FromEngine(Black, b"=4 A1\n\n"),
    Step::Moves(Black, 1),
];

/// Then the engine is gone with its reply, and the end of its stream is met.
pub static BLACK_IS_LOST: [Step; 6] = [
    Step::Event(Event::Crash(Black, 0)),
    Step::Running(Black, false),
    Step::Event(Event::End(Black)),
    Step::See(Shows::Moves(0)),
    Step::See(Shows::Down(Black)),
    Step::See(Shows::InStep(White, true)),
];

static STARTED_AGAIN: [Step; 8] = [
    Step::Event(Event::Act),
    Step::Rounds(Black, 3),
    Step::See(Shows::InStep(Black, true)),
    Step::See(Shows::InStep(White, true)),
    Step::See(Shows::Restarts(Black, 1)),
    Step::See(Shows::Next(Action::Send(Black))),
    Step::Event(Event::Act),
    Step::ToEngine(Black, b"4 genmove b\n"),
];

/// What comes of a reply of which the last byte is missing, or comes alone.
static REPLIES: [(&str, &[Step]); 2] = [
    (
        "a reply that a crash cut short answers nothing",
        &[
            Step::Event(Event::Crash(Black, 6)),
            Step::FromEngine(Black, b"=4 A1\n"),
            Step::Event(Event::ToController(Black, 100)),
            Step::FromEngine(Black, b""),
            Step::See(Shows::Asked(Black, 3, 1)),
            Step::Event(Event::End(Black)),
            Step::See(Shows::Down(Black)),
            Step::See(Shows::Moves(0)),
        ],
    ),
    (
        "the last byte of a reply answers",
        &[
            Step::Event(Event::ToController(Black, 6)),
            Step::See(Shows::Moves(0)),
            Step::Event(Event::ToController(Black, 1)),
            Step::See(Shows::Moves(1)),
            Step::See(Shows::InStep(Black, true)),
        ],
    ),
];

/// A world in which Black's engine made its move, and the controller hasn't heard it.
fn black_moved(rt: &impl Abort) -> Recorded {
    let mut recorded = Recorded::new(rt, false);
    recorded.go(rt, "both sides are brought into step", &IN_STEP);
    recorded.go(rt, "Black moves", &BLACK_MOVES);
    recorded
}

#[test]
fn a_move_counts_by_its_last_byte_and_is_lost_with_its_engine_before(rt: HostRuntime) {
    let mut recorded = black_moved(&rt);
    recorded.go(&rt, "Black is lost", &BLACK_IS_LOST);
    recorded.go(&rt, "Black is started again", &STARTED_AGAIN);
    recorded.assert_once_more(&rt);
    for (name, steps) in &REPLIES {
        let mut recorded = black_moved(&rt);
        recorded.go(&rt, name, steps);
        recorded.assert_once_more(&rt);
    }
}

/// Nothing was started, so none of these applies.
static WITHOUT_EFFECT: [Step; 5] = [
    Step::Event(Event::BrokenWrite(3)),
    Step::Event(Event::ToEngine(White, 100)),
    Step::Event(Event::ToController(White, 100)),
    Step::Event(Event::Crash(White, 0)),
    Step::Event(Event::End(White)),
];

/// Black's engine is gone, so what it is sent is dropped. Then Black has to answer.
static DROPPED: [Step; 5] = [
    Step::Event(Event::Crash(Black, 0)),
    Step::Event(Event::Act),
    Step::ToEngine(Black, b""),
    Step::Event(Event::Act),
    Step::See(Shows::Asked(Black, 3, 1)),
];

#[test]
fn an_event_that_does_not_apply_does_nothing_and_bytes_to_no_engine_are_dropped(rt: HostRuntime) {
    let mut recorded = Recorded::new(&rt, false);
    recorded.go(&rt, "nothing was started", &WITHOUT_EFFECT);
    assert_same_world(&rt, &recorded.world, &Recorded::new(&rt, false).world);
    recorded.go(&rt, "both sides are brought into step", &IN_STEP);
    recorded.go(&rt, "what Black is sent is dropped", &DROPPED);
    recorded.assert_once_more(&rt);
}

static BROKEN: [Step; 4] = [
    Step::See(Shows::Down(White)),
    Step::See(Shows::Next(Action::Start(White))),
    Step::Running(White, false),
    Step::See(Shows::Moves(1)),
];

/// The world in which `sent` bytes of Black's move were written to White before the write broke.
fn broken_after(rt: &impl Abort, sent: usize) -> Recorded {
    let mut recorded = black_moved(rt);
    for event in [Event::ToController(Black, 7), Event::BrokenWrite(sent)] {
        recorded.go(rt, "the write breaks", &[Step::Event(event)]);
    }
    recorded
}

#[test]
fn a_write_that_broke_anywhere_loses_the_side_alike(rt: HostRuntime) {
    let mut none_sent = broken_after(&rt, 0);
    none_sent.go(&rt, "White is lost", &BROKEN);
    none_sent.assert_once_more(&rt);
    for sent in 1..=64 {
        assert_same_world(&rt, &none_sent.world, &broken_after(&rt, sent).world);
    }
}

static SCRIPT: [Step; 13] = [
    Step::Event(Event::Act),
    Step::Event(Event::Act),
    Step::Event(Event::Act),
    Step::Event(Event::Act),
    Step::Event(Event::Act),
    Step::ToEngine(Black, b"1 boardsize 2\n2 komi 0\n3 clear_board\n"),
    Step::See(Shows::Next(Action::Wait(Black))),
    Step::Event(Event::ToEngine(Black, 5)),
    Step::FromEngine(Black, b""),
    Step::Event(Event::ToEngine(Black, 100)),
    Step::FromEngine(Black, b"=1\n\n=2\n\n=3\n\n"),
    Step::Event(Event::ToController(Black, 6)),
    Step::See(Shows::Up(Black, 1, 2)),
];

/// Six moves, each of which is sent to the other side. Then Black's engine is lost and restarted.
static SIX_MOVES: [Step; 10] = [
    Step::Rounds(Black, 1),
    Step::Rounds(White, 2),
    Step::Rounds(Black, 2),
    Step::Rounds(White, 2),
    Step::Rounds(Black, 2),
    Step::Rounds(White, 2),
    Step::Rounds(Black, 1),
    Step::See(Shows::Moves(6)),
    Step::Event(Event::End(Black)),
    Step::Event(Event::Act),
];

static EIGHT_ON_THEIR_WAY: [Step; 6] = [
    Step::See(Shows::Up(Black, 0, 8)),
    Step::See(Shows::Next(Action::Wait(Black))),
    Step::Event(Event::ToEngine(Black, 512)),
    Step::Event(Event::ToController(Black, 4)),
    Step::See(Shows::Up(Black, 1, 7)),
    Step::See(Shows::Next(Action::Send(Black))),
];

#[test]
fn a_whole_script_or_eight_commands_are_on_their_way_before_the_first_answer(rt: HostRuntime) {
    let mut recorded = Recorded::new(&rt, false);
    recorded.go(&rt, "a whole script is on its way", &SCRIPT);
    let heard = [
        Step::Event(Event::ToController(Black, 100)),
        Step::See(Shows::InStep(Black, true)),
    ];
    recorded.go(&rt, "it is answered", &heard);
    recorded.assert_once_more(&rt);
    let mut recorded = Recorded::new(&rt, false);
    recorded.go(&rt, "both sides are brought into step", &IN_STEP);
    recorded.go(&rt, "six moves are made", &SIX_MOVES);
    for count in 0..8 {
        let shown = Step::See(Shows::Up(Black, 0, count));
        let next = Step::See(Shows::Next(Action::Send(Black)));
        let steps = [shown, next, Step::Event(Event::Act)];
        recorded.go(&rt, "up to eight commands are sent", &steps);
    }
    recorded.go(&rt, "eight commands are on their way", &EIGHT_ON_THEIR_WAY);
    recorded.assert_once_more(&rt);
}

/// White plays under positional ko, and so refuses move 7, Black's A1, which is then to be undone.
static REFUSED: [Step; 6] = [
    Step::GoOn(200, Until::TakingBack),
    Step::See(Shows::Moves(7)),
    Step::See(Shows::TakingBack(Some(Black))),
    Step::See(Shows::InStep(White, false)),
    Step::See(Shows::Next(Action::Send(Black))),
    Step::See(Shows::Retakes(7, 1)),
];

/// The move is undone, and the match goes on to its end: both pass.
static TAKEN_BACK: [Step; 10] = [
    Step::Event(Event::Act),
    Step::ToEngine(Black, b"11 undo\n"),
    Step::GoOn(1, Until::TheEnd),
    Step::See(Shows::Moves(6)),
    Step::See(Shows::TakingBack(None)),
    Step::See(Shows::InStep(White, true)),
    Step::GoOn(20, Until::TheEnd),
    Step::See(Shows::Next(Action::Done(Verdict::Score(-8)))),
    Step::See(Shows::Retakes(7, 1)),
    Step::See(Shows::Moves(8)),
];

/// Black's engine has read the `undo`, and the controller has not heard its answer.
static UNDO_READ: [Step; 5] = [
    Step::Event(Event::Act),
    Step::Event(Event::ToEngine(Black, 100)),
    Step::FromEngine(Black, b"=11\n\n"),
    Step::Moves(Black, 6),
    Step::See(Shows::Moves(7)),
];

/// How Black loses its engine then.
static LOST: [(&str, &[Step]); 2] = [
    (
        "the engine crashes",
        &[
            Step::Event(Event::Crash(Black, 100)),
            Step::See(Shows::Moves(7)),
            Step::Event(Event::End(Black)),
        ],
    ),
    ("the stream ends", &[Step::Event(Event::End(Black))]),
];

/// Black is restarted, and both get in step without the move. Black's new policy makes the same move, which is refused
/// again and undone. Then both pass.
static ASKED_AGAIN: [Step; 13] = [
    Step::See(Shows::Moves(6)),
    Step::See(Shows::TakingBack(None)),
    Step::See(Shows::InStep(White, true)),
    Step::GoOn(60, Until::InStep),
    Step::See(Shows::Restarts(Black, 1)),
    Step::See(Shows::Retakes(7, 1)),
    Step::Event(Event::Act),
    Step::ToEngine(Black, b"10 genmove b\n"),
    Step::GoOn(1, Until::TheEnd),
    Step::See(Shows::Moves(7)),
    Step::GoOn(20, Until::TheEnd),
    Step::See(Shows::Next(Action::Done(Verdict::Score(-8)))),
    Step::See(Shows::Retakes(7, 2)),
];

#[test]
fn a_refused_move_is_taken_back_by_undo_by_a_crash_and_by_the_end_of_a_stream(rt: HostRuntime) {
    let mut recorded = Recorded::new(&rt, true);
    recorded.go(&rt, "White refuses a move", &REFUSED);
    recorded.go(&rt, "the move is taken back", &TAKEN_BACK);
    recorded.assert_once_more(&rt);
    for (name, steps) in &LOST {
        let mut recorded = Recorded::new(&rt, true);
        recorded.go(&rt, "White refuses a move", &REFUSED);
        recorded.go(&rt, "the undo is read", &UNDO_READ);
        recorded.go(&rt, name, steps);
        recorded.go(&rt, name, &ASKED_AGAIN);
        recorded.assert_once_more(&rt);
    }
}
