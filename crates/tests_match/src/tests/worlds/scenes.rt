//! Worlds of size 2 that go through steps.
use super::policies::Kind;
use super::small_setup;
use crate::asserts::{assert_equal, assert_equal_for, assert_true, some};
use crate::tests::shows::{Place, Shows, assert_shows};
use go_base::Side;
use go_board::{Game, KoRule};
use gtp_match::Action;
use gtp_world::{Event, World};
use std::process::Abort;

pub const SIDES: [Side; 2] = [Side::Black, Side::White];

/// A step of a test: what happens in a world, or what it has to show.
#[derive(Clone, Copy)]
pub enum Step {
    Event(Event),
    /// This many commands to a side, each read and answered at once, and its answer heard.
    Rounds(Side, u32),
    /// At most this often, until this holds: the controller acts; if it waits, the side reads, answers and is heard.
    GoOn(u32, Until),
    /// Whether an engine of a side runs.
    Running(Side, bool),
    /// The game of a side's engine has this many moves.
    Moves(Side, usize),
    /// These bytes are on their way to a side.
    ToEngine(Side, &'static [u8]),
    /// These bytes are on their way from a side.
    FromEngine(Side, &'static [u8]),
    /// The controller shows this.
    See(Shows),
}

/// When a world stops.
#[derive(Clone, Copy, PartialEq)]
pub enum Until {
    /// After the given number of rounds.
    TheEnd,
    /// A move is to be undone.
    TakingBack,
    /// Both sides are in step.
    InStep,
}

/// The events that led to a world, 200 at most.
#[derive(Drop)]
pub struct Events {
    places: [Event; 200],
    len: usize,
}

impl Events {
    pub fn new() -> Self {
        Events {
            places: [Event::Act; 200],
            len: 0,
        }
    }

    pub fn add(&mut self, rt: &impl Abort, event: Event) {
        *some(rt, self.places.get_mut(self.len)) = event;
        self.len = self.len.saturating_add(1);
    }

    pub fn all(&self, rt: &impl Abort) -> &[Event] {
        some(rt, self.places.get(..self.len))
    }
}

/// A world, its policies and ko rules, and the events that led to it.
#[derive(Drop)]
pub struct Recorded {
    pub world: World<Kind, Kind>,
    refusing: bool,
    events: Events,
    place: Place,
}

/// A world in which both sides have the first policy and simple ko. In one that is refusing White has positional ko,
/// and Black passes where it is asked again.
fn opening(rt: &impl Abort, refusing: bool) -> World<Kind, Kind> {
    let setup = small_setup(rt);
    if refusing {
        let (simple, positional) = (KoRule::Simple, KoRule::Positional);
        World::with_rules(setup, Kind::FirstOnce, Kind::First, simple, positional)
    } else {
        World::new(setup, Kind::First, Kind::First)
    }
}

impl Recorded {
    pub fn new(rt: &impl Abort, refusing: bool) -> Self {
        Recorded {
            world: opening(rt, refusing),
            refusing,
            events: Events::new(),
            place: ("", 0),
        }
    }

    /// Takes these steps, which have this name.
    pub fn go(&mut self, rt: &impl Abort, name: &'static str, steps: &[Step]) {
        for (number, step) in steps.iter().enumerate() {
            self.place = (name, number);
            self.take(rt, step);
        }
    }

    fn take(&mut self, rt: &impl Abort, step: &Step) {
        let place = self.place;
        match step {
            Step::Event(event) => self.happens(rt, *event),
            Step::Rounds(side, count) => {
                for _ in 0..*count {
                    self.happens(rt, Event::Act);
                    self.deliver(rt, *side);
                }
            }
            Step::GoOn(most, until) => self.go_on(rt, *most, *until),
            Step::Running(side, runs) => {
                assert_equal_for(rt, place, self.world.running(*side).is_some(), *runs);
            }
            Step::Moves(side, moves) => {
                let game = some(rt, self.world.running(*side));
                assert_equal_for(rt, place, game.moves().len(), *moves);
            }
            Step::ToEngine(side, bytes) => {
                assert_equal_for(rt, place, self.world.to_engine(*side), *bytes);
            }
            Step::FromEngine(side, bytes) => {
                assert_equal_for(rt, place, self.world.to_controller(*side), *bytes);
            }
            Step::See(what) => assert_shows(rt, place, self.world.controller(), what),
        }
    }

    /// The event happens. A running engine in step then holds the controller's game, and the lists keep their capacity.
    fn happens(&mut self, rt: &impl Abort, event: Event) {
        self.world.step(event);
        self.events.add(rt, event);
        let played = self.world.controller();
        for side in SIDES {
            assert_true(rt, self.world.to_engine(side).len() <= 512);
            assert_true(rt, self.world.to_controller(side).len() <= 16_384);
            if let Some(game) = self.world.running(side) {
                if played.in_step(side) {
                    assert_same_game(rt, game, played.game());
                }
            }
        }
    }

    /// A side reads, answers, and is heard.
    fn deliver(&mut self, rt: &impl Abort, side: Side) {
        self.happens(rt, Event::ToEngine(side, 100));
        self.happens(rt, Event::ToController(side, 100));
    }

    fn go_on(&mut self, rt: &impl Abort, most: u32, until: Until) {
        for _ in 0..most {
            let played = self.world.controller();
            let in_step = played.in_step(Side::Black) && played.in_step(Side::White);
            if until == Until::InStep && in_step
                || until == Until::TakingBack && played.taking_back().is_some()
            {
                return;
            }
            match played.next() {
                Action::Wait(side) => self.deliver(rt, side),
                Action::Start(_) | Action::Send(_) | Action::Done(_) => {
                    self.happens(rt, Event::Act);
                }
            }
        }
    }

    /// Asserts that all the events, made again by one call, lead to a world that shows the same.
    pub fn assert_once_more(&self, rt: &impl Abort) {
        let mut world = opening(rt, self.refusing);
        world.run(self.events.all(rt));
        assert_same_world(rt, &self.world, &world);
    }
}

/// Asserts that two games are the same: size, komi, handicap and moves, the board and the captures.
pub fn assert_same_game(rt: &impl Abort, one: &Game, two: &Game) {
    assert_equal(rt, one.size(), two.size());
    assert_equal(rt, one.komi(), two.komi());
    assert_equal(rt, one.handicap(), two.handicap());
    assert_equal(rt, one.moves(), two.moves());
    assert_equal(rt, one.show().as_slice(), two.show().as_slice());
}

/// Asserts that two worlds show the same: what the controllers do next, and what they and the worlds have of each side.
pub fn assert_same_world(rt: &impl Abort, one: &World<Kind, Kind>, two: &World<Kind, Kind>) {
    let (first, second) = (one.controller(), two.controller());
    assert_equal(rt, first.next(), second.next());
    assert_same_game(rt, first.game(), second.game());
    for side in SIDES {
        assert_equal(rt, first.status(side), second.status(side));
        assert_equal(rt, first.restarts(side), second.restarts(side));
        assert_equal(rt, one.to_engine(side), two.to_engine(side));
        assert_equal(rt, one.to_controller(side), two.to_controller(side));
        assert_equal(rt, one.running(side).is_some(), two.running(side).is_some());
        if let (Some(game), Some(same)) = (one.running(side), two.running(side)) {
            assert_same_game(rt, game, same);
        }
    }
}
