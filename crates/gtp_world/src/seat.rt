//! One side of a world, and what happens between it and the controller.
ghost use Rattle.std.specs.Prelude.{◌≡◌, ◌≤◌, length, MatchOption, Some, None};
ghost use Rattle.gtp_match.specs.declared.verdicts.Action.TheVariants as action;
ghost use Rattle.gtp_match.specs.Next.{next, is_down};
ghost use Rattle.gtp_match.specs.Sides.{side_of};
ghost use Rattle.gtp_world.specs.Kinds.{Call as Calls, in_steps};
ghost use Rattle.gtp_world.specs.Lane.{empty_lane};
ghost use Rattle.gtp_world.specs.StepsWorlds.{event_of};
ghost use Rattle.gtp_world.specs.World.{Starts, Sends, SideHears, SideFails, SideActs, SideBreaksOff, as_one};
ghost use Rattle.gtp_world.specs.World.{side_of_action, side_of_event, side_of_any};
ghost use Rattle.gtp_world.specs.World.{most_to_engine, most_to_controller};
ghost use Rattle.gtp_world.specs.Worlds.{SeatHappensBy, game_in};
ghost use Rattle.gtp_world.specs.private.Room.{HasRoom, HasCallRoom};

use crate::engines::Engines;
use crate::events::Event;
use crate::lane::Lane;
use crate::maker::Maker;
use crate::sessions::Sessions;
use crate::steps_events::StepsEvent;
use go_base::Side;
use go_board::{Game, KoRule};
use gtp_match::{Action, Match, Status};
use std::marker::Model;

/// One side: what its engines are made of, and its engine with the bytes on the way to it and from it.
#[derive(Drop)]
pub(crate) struct Seat<E: Engines> {
    engines: E,
    lane: Lane<E>,
}

impl<E: Engines> Model for Seat<E> {
    ghost use Rattle.gtp_world.specs.Worlds.{SeatOf};

    ghost Value = { SeatOf E E.Engine };

    ghost view = { λ s. record { making = s.engines; lane = s.lane } };
}

/// Whether a side is down.
pub(crate) fn is_down(played: &Match, side: Side) -> bool
    ensures { result ≡ is_down (side_of played.now.sides side).up }
{
    match played.status(side) {
        Status::Down => true,
        Status::Up { .. } => false,
    }
}

impl<E: Engines> Seat<E> {
    /// A side with no engine and with empty lists.
    pub(crate) fn new(engines: E) -> Seat<E>
        ensures { result ≡ record { making = engines; lane = empty_lane } }
    {
        Seat {
            engines,
            lane: Lane::new(),
        }
    }

    /// Starts the side's engine.
    fn start(&mut self, played: &mut Match, side: Side)
        requires { next played.old ≡ action.Start side }
        ensures making { self.new.making ≡ self.old.making }
        ensures starts { Starts (E.kind self.old.making) side played.old played.new self.new.lane }
    {
        played.started(side);
        self.lane = Lane::begin(self.engines.start());
    }

    /// Sends the side its next command.
    fn send(&mut self, played: &mut Match, side: Side)
        requires next { next played.old ≡ action.Send side }
        requires room { HasRoom E.has_room side played.old self.old.lane }
        ensures making { self.new.making ≡ self.old.making }
        ensures sends { Sends side played.old self.old.lane played.new self.new.lane }
    {
        let text = played.send(side);
        self.lane.write(text.as_slice());
    }

    /// Does what the controller must do next at the side.
    fn act(&mut self, played: &mut Match, side: Side)
        requires side { side_of_action (next played.old) ≡ Some side }
        requires room { HasRoom E.has_room side played.old self.old.lane }
        ensures making { self.new.making ≡ self.old.making }
        ensures acts { SideActs (E.kind self.old.making) side (next played.old)
            played.old self.old.lane played.new self.new.lane }
    {
        match played.next() {
            Action::Start(_) => self.start(played, side),
            Action::Send(_) => self.send(played, side),
            Action::Wait(_) | Action::Done(_) => {}
        }
    }

    /// Breaks the write of the side's next command, so that the side goes down.
    fn break_off(&mut self, played: &mut Match, side: Side)
        requires { side_of_action (next played.old) ≡ Some side }
        ensures making { self.new.making ≡ self.old.making }
        ensures breaks { SideBreaksOff (E.kind self.old.making) side (next played.old)
            played.old self.old.lane played.new self.new.lane }
    {
        match played.next() {
            Action::Send(_) => {
                let _ = played.send(side);
                played.lost(side);
                self.lane = Lane::new();
            }
            Action::Start(_) | Action::Wait(_) | Action::Done(_) => {}
        }
    }

    /// Passes the controller the first `count` bytes of the side, or all if there are fewer, if the side is up.
    fn hear(&mut self, played: &mut Match, side: Side, count: usize)
        ensures making { self.new.making ≡ self.old.making }
        ensures hears { SideHears side played.old self.old.lane count played.new self.new.lane }
    {
        if is_down(played, side) {
            return;
        }
        let _ = played.hear_all(side, self.lane.front(count));
        self.lane.cut(count);
        if is_down(played, side) {
            self.lane = Lane::new();
        }
    }

    /// Puts the side down, if it is up.
    fn end(&mut self, played: &mut Match, side: Side)
        ensures making { self.new.making ≡ self.old.making }
        ensures ends { SideFails side played.old self.old.lane played.new self.new.lane }
    {
        if is_down(played, side) {
            return;
        }
        played.lost(side);
        self.lane = Lane::new();
    }

    /// Applies one event at the side. One that doesn't apply does nothing.
    pub(crate) fn step(&mut self, played: &mut Match, side: Side, event: Event)
        requires side { side_of_event played.old event ≡ Some side }
        requires room { HasRoom E.has_room side played.old self.old.lane }
        ensures { SeatHappensBy E.kind side (as_one event)
            played.old self.old played.new self.new }
    {
        match event {
            Event::Act => self.act(played, side),
            // The side goes down and loses its engine, so it doesn't matter how many bytes were written.
            Event::BrokenWrite(_) => self.break_off(played, side),
            Event::ToEngine(_, count) => self.lane.feed(&self.engines, count),
            Event::ToController(_, count) => self.hear(played, side, count),
            Event::Crash(_, count) => self.lane.crash(count),
            Event::End(_) => self.end(played, side),
        }
    }

    /// The engine, if one runs.
    pub(crate) fn engine(&self) -> Option<&E::Engine>
        ensures { MatchOption result (self.now.lane.engine ≡ None) (λ engine.
            self.now.lane.engine ≡ Some engine.now) }
    {
        self.lane.engine()
    }

    /// The bytes on the way to the engine.
    pub(crate) fn to_engine(&self) -> &[u8]
        ensures bytes { result.now ≡ self.now.lane.to_engine }
        ensures room { length result.now ≤ most_to_engine }
    {
        self.lane.to_engine()
    }

    /// The bytes on the way to the controller.
    pub(crate) fn to_controller(&self) -> &[u8]
        ensures bytes { result.now ≡ self.now.lane.to_controller }
        ensures room { length result.now ≤ most_to_controller }
    {
        self.lane.to_controller()
    }
}

impl<M: Maker> Seat<Sessions<M>> {
    /// The session's game, if one runs.
    pub(crate) fn game(&self) -> Option<&Game>
        ensures { MatchOption result (game_in self.now.lane.engine ≡ None) (λ game.
            game_in self.now.lane.engine ≡ Some game.now) }
    {
        match self.engine() {
            Some(session) => Some(session.game()),
            None => None,
        }
    }
}

impl Seat<KoRule> {
    /// Applies one event or call at the side. One that doesn't apply does nothing.
    pub(crate) fn apply(&mut self, played: &mut Match, side: Side, event: &StepsEvent<'_>)
        requires side { side_of_any played.old (event_of event.now) ≡ Some side }
        requires room { HasRoom ⟦<KoRule as Engines>⟧.has_room side played.old self.old.lane }
        requires calls { (call : Calls) → HasCallRoom self.old.lane call }
        ensures { SeatHappensBy in_steps side (event_of event.now)
            played.old self.old played.new self.new }
    {
        match event {
            StepsEvent::Happens(event) => self.step(played, side, *event),
            StepsEvent::Calls(_, call) => self.lane.call(call),
        }
    }
}
