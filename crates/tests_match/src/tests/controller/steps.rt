//! The steps that the tests of matches share.
ghost use Rattle.gtp_match.specs.Losing.{CanBeShown};

use crate::asserts::{assert_equal_for, some};
use crate::tests::shows::{Place, Shows, assert_shows};
use go_base::{Komi, Side, Size};
use gtp_match::{Action, Heard, LossCause, Match, Owed, Setup, SideFault};
use gtp_wire::write_command;
use std::process::Abort;

/// How many commands are unanswered, the line of the oldest, empty where there is none, and the bytes that are kept.
pub type Owes<'a> = (u32, &'a [u8], &'a [u8]);

/// A step of a test: what is done with a match, or what it has to show.
#[derive(Clone, Copy)]
pub enum Step {
    /// A side is started, which has to come next.
    Start(Side),
    /// A side is sent its next command, which has to be this line and to come next.
    Send(Side, &'static [u8]),
    /// The same, and the side has to answer before anything else is done.
    SendAndWait(Side, &'static [u8]),
    /// A side is sent its next command, as by `Send`, and answers with these bytes, as by `Answer`.
    Say(Side, &'static [u8], &'static [u8]),
    /// A side of size 2 and komi 0 is brought through the three commands of its script.
    Bring(Side),
    /// A side answers with these bytes: all of them are used, without a fault.
    Answer(Side, &'static [u8]),
    /// This many of the bytes are used, and they show this fault, if any.
    Heard(Side, &'static [u8], usize, Option<SideFault>),
    /// All these bytes are heard by one call, without a fault.
    HearAll(Side, &'static [u8]),
    /// Nothing is reported of these bytes: no side fails by them, and no refusal in them is retaken.
    GoesOn(Side, &'static [u8]),
    /// The first retake of a move is reported of these bytes, and this was owed.
    Retake(Side, &'static [u8], Owes<'static>),
    /// A side is lost.
    Lose(Side),
    /// A side owes this, if anything.
    Owes(Side, Option<Owes<'static>>),
    /// How many commands were sent so far.
    Sent(u32),
    /// Asserts that the match shows this.
    See(Shows),
}

/// How a match begins.
#[derive(Clone, Copy)]
pub enum Opening {
    /// Both sides are started, with size 2, komi 0, 10 moves and this many restarts.
    Started(u32),
    /// Then Black is sent its first command.
    Sent(u32),
    /// Then both sides are brought into step, and Black is asked for the first move.
    Asked(u32),
}

/// A row of a test: its name, how it begins, and its steps.
pub type Scene = (&'static str, Opening, &'static [Step]);

/// The three commands of a script of size 2 and komi 0, and their answers.
static SCRIPT: [(&[u8], &[u8]); 3] = [
    (b"1 boardsize 2\n", b"=1\n\n"),
    (b"2 komi 0\n", b"=2\n\n"),
    (b"3 clear_board\n", b"=3\n\n"),
];

/// Both sides are brought into step, and Black is asked for a move.
static ASK: [Step; 6] = [
    Step::Bring(Side::Black),
    Step::Bring(Side::White),
    Step::See(Shows::InStep(Side::Black, true)),
    Step::See(Shows::InStep(Side::White, true)),
    Step::SendAndWait(Side::Black, b"4 genmove b\n"),
    Step::See(Shows::InStep(Side::Black, false)),
];

/// A match, where its test is, and how many commands were sent.
#[derive(Drop)]
pub struct Played {
    pub game: Match,
    pub place: Place,
    sent: u32,
}

impl Played {
    /// A match with this beginning, for the row of this name.
    pub fn new(rt: &impl Abort, name: &'static str, opening: Opening) -> Self {
        let setup = match opening {
            Opening::Started(restarts) | Opening::Sent(restarts) | Opening::Asked(restarts) => {
                setup_with(rt, (2, 0, 0), 10, restarts)
            }
        };
        let mut played = Played {
            game: Match::new(setup),
            place: (name, 0),
            sent: 0,
        };
        played.take(rt, &Step::Start(Side::Black));
        played.take(rt, &Step::Start(Side::White));
        match opening {
            Opening::Started(..) => {}
            Opening::Sent(_) => played.send(rt, Side::Black, b"1 boardsize 2\n"),
            Opening::Asked(_) => played.go(rt, &ASK),
        }
        played
    }

    /// Takes these steps.
    pub fn go(&mut self, rt: &impl Abort, steps: &[Step]) {
        let (name, _) = self.place;
        for (number, step) in steps.iter().enumerate() {
            self.place = (name, number);
            self.take(rt, step);
        }
    }

    fn take(&mut self, rt: &impl Abort, step: &Step) {
        match step {
            Step::Start(side) => {
                assert_eq!(rt; self.game.next(), Action::Start(*side), "{:?}", self.place);
                self.game.started(*side);
            }
            Step::Send(side, line) => self.send(rt, *side, line),
            Step::SendAndWait(side, line) => {
                self.send(rt, *side, line);
                assert_equal_for(rt, self.place, self.game.next(), Action::Wait(*side));
            }
            Step::Say(side, line, bytes) => {
                self.send(rt, *side, line);
                self.hear(rt, *side, bytes, bytes.len(), None);
            }
            Step::Bring(side) => {
                for (line, bytes) in &SCRIPT {
                    self.send(rt, *side, line);
                    self.hear(rt, *side, bytes, bytes.len(), None);
                }
            }
            Step::Answer(side, bytes) => self.hear(rt, *side, bytes, bytes.len(), None),
            Step::Heard(side, bytes, used, fault) => {
                self.hear(rt, *side, bytes, *used, *fault);
            }
            Step::HearAll(side, bytes) => {
                assert_equal_for(rt, self.place, self.game.hear_all(*side, bytes), None);
            }
            Step::GoesOn(side, bytes) => self.report(rt, *side, bytes, None, None),
            Step::Retake(side, bytes, want) => self.report(rt, *side, bytes, Some(*want), None),
            Step::Lose(side) => self.game.lost(*side),
            Step::Owes(side, want) => self.assert_owes(rt, *side, *want),
            Step::Sent(count) => assert_equal_for(rt, self.place, self.sent, *count),
            Step::See(what) => assert_shows(rt, self.place, &self.game, what),
        }
    }

    /// Sends a side its next command, which has to be this line and to come next.
    fn send(&mut self, rt: &impl Abort, side: Side, line: &[u8]) {
        assert_eq!(rt; self.game.next(), Action::Send(side), "{:?}", self.place);
        assert_equal_for(rt, self.place, self.game.send(side).as_slice(), line);
        self.sent = self.sent.saturating_add(1);
    }

    /// Passes a side's bytes to the match. This many have to be used, and they have to show this fault, if any.
    pub fn hear(
        &mut self,
        rt: &impl Abort,
        side: Side,
        bytes: &[u8],
        used: usize,
        fault: Option<SideFault>,
    ) {
        let heard = self.game.heard(side, bytes);
        assert_equal_for(rt, self.place, heard, Heard { used, fault });
    }

    /// Asserts that the first retake of a move is reported for these bytes if something was owed at one, and a failure
    /// of this cause if something was owed at one.
    pub fn report(
        &mut self,
        rt: &impl Abort,
        side: Side,
        bytes: &[u8],
        retake: Option<Owes>,
        loss: Option<(LossCause, Owes)>,
    ) {
        let report = self.game.hear_reporting(side, bytes);
        assert_equal_for(rt, self.place, report.retake.is_some(), retake.is_some());
        assert_equal_for(rt, self.place, report.loss.is_some(), loss.is_some());
        if let Some(found) = &report.retake {
            assert_equal_for(rt, self.place, found.count, 1);
            assert_owed(rt, self.place, &found.owed, some(rt, retake));
        }
        if let Some(found) = &report.loss {
            let (cause, want) = some(rt, loss);
            assert_equal_for(rt, self.place, found.cause, cause);
            assert_owed(rt, self.place, &found.owed, want);
        }
    }

    /// A side owes this, if anything.
    fn assert_owes(&self, rt: &impl Abort, side: Side, want: Option<Owes>) {
        let owed = self.game.owed(side);
        assert_equal_for(rt, self.place, owed.is_some(), want.is_some());
        if let Some(owed) = &owed {
            assert_owed(rt, self.place, owed, some(rt, want));
        }
    }
}

/// Asserts that this is owed.
fn assert_owed(rt: &impl Abort, place: Place, owed: &Owed, want: Owes)
    requires { CanBeShown owed.now }
{
    let (unanswered, line, bytes) = want;
    assert_equal_for(rt, place, owed.unanswered, unanswered);
    assert_equal_for(rt, place, owed.bytes.as_slice(), bytes);
    match owed.oldest {
        None => assert_equal_for(rt, place, line, b"".as_slice()),
        Some(entry) => {
            assert!(rt; entry.id <= 2_147_483_647);
            let text = write_command(Some(entry.id), &entry.command);
            assert_equal_for(rt, place, text.as_slice(), line);
        }
    }
}

/// Plays each row.
pub fn play(rt: &impl Abort, scenes: &[Scene]) {
    for (name, opening, steps) in scenes {
        Played::new(rt, name, *opening).go(rt, steps);
    }
}

/// A setup of this size, komi and handicap, most moves and most restarts.
pub fn setup_with(
    rt: &impl Abort,
    board: (u32, i32, u32),
    max_moves: u32,
    max_restarts: u32,
) -> Setup {
    let (lines, half_points, handicap) = board;
    let size = some(rt, Size::new(lines));
    let komi = some(rt, Komi::from_half_points(half_points));
    some(
        rt,
        Setup::new(size, komi, handicap, max_moves, max_restarts).ok(),
    )
}

/// An array of one byte, except for its beginning and its end.
pub fn padded<const LEN: usize>(head: &[u8], byte: u8, tail: &[u8]) -> [u8; LEN] {
    let mut bytes = [byte; LEN];
    for (place, other) in bytes.iter_mut().zip(head) {
        *place = *other;
    }
    let from = LEN.saturating_sub(tail.len());
    for (place, other) in bytes.iter_mut().skip(from).zip(tail) {
        *place = *other;
    }
    bytes
}
