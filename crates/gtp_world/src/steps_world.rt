//! The world of sans-IO engines: a controller, two engines whose callers supply their choices, and the bytes on the way
//! between them.
ghost use Rattle.std.specs.Prelude.{◌≡◌, ◌≢◌, ◌≤◌, length, MatchOption, IfSome, None, Some};
ghost use Rattle.go_board.specs.declared.rules.KoRule.TheVariants.{Simple};
ghost use Rattle.gtp_session.specs.declared.events.Wait.TheVariants as wait;
ghost use Rattle.gtp_world.specs.Joined.{IsFair};
ghost use Rattle.gtp_world.specs.StepsWorlds.{RuledHappens, RuledRuns, RuledReached, event_of, engine_at};
ghost use Rattle.gtp_world.specs.StepsWorlds.{rules_of_ruled};
ghost use Rattle.gtp_world.specs.StepsWorlds.{IsThereAtOnce, SameAtOnce, WaitsOnlyUnanswered};
ghost use Rattle.gtp_world.specs.World.{opening, side_of_any, to_engine_of, to_controller_of, most_to_engine};
ghost use Rattle.gtp_world.specs.World.{most_to_controller};
ghost use Rattle.gtp_world.specs.Worlds.{HoldsInStep};

use crate::seat::Seat;
use crate::steps_events::StepsEvent;
use crate::world::side_of;
use go_base::Side;
use go_board::KoRule;
use gtp_match::{Match, Setup};
use gtp_session::steps::Steps;
use std::marker::Model;

/// A controller and, for each side, a sans-IO engine or none, and the bytes on the way between them.
///
/// Each start makes a new engine with the side's ko rule. The controller's game is under simple ko.
#[derive(Drop)]
pub struct StepsWorld {
    controller: Match,
    black: Seat<KoRule>,
    white: Seat<KoRule>,
}

impl Model for StepsWorld {
    ghost use Rattle.gtp_world.specs.StepsWorlds.{RuledWorld, RuledReached};
    ghost use Rattle.gtp_world.specs.Worlds.{made_world};

    ghost Value = { RuledWorld };

    ghost view = { λ w. made_world w.controller w.black w.white };

    // Some events lead to it from the opening.
    ghost invariant = { λ w. RuledReached (made_world w.controller w.black w.white) };
}

/// The side at which an event happens: that of the controller's next action, or that of the event itself.
fn side_of_steps(controller: &Match, event: &StepsEvent<'_>) -> Option<Side>
    ensures { result ≡ side_of_any controller.now (event_of event.now) }
{
    match event {
        StepsEvent::Happens(event) => side_of(controller, *event),
        StepsEvent::Calls(side, _) => Some(*side),
    }
}

impl StepsWorld {
    /// A world with a new match of this setup, no engines, and empty lists. The engines of both sides play under simple
    /// ko.
    pub fn new(setup: Setup) -> StepsWorld
        ensures { result ≡ record {
          making_black = Simple;
          making_white = Simple;
          world = opening setup;
        } }
    {
        StepsWorld::with_rules(setup, KoRule::Simple, KoRule::Simple)
    }

    /// A world with a new match of this setup, no engines, and empty lists. Each side's engines play under that side's
    /// ko rule.
    pub fn with_rules(setup: Setup, rule_black: KoRule, rule_white: KoRule) -> StepsWorld
        ensures { result ≡ record {
          making_black = rule_black;
          making_white = rule_white;
          world = opening setup;
        } }
    {
        let controller = Match::new(setup);
        // A look: the setup is in its limits.
        let _ = controller.setup();
        StepsWorld {
            controller,
            black: Seat::new(rule_black),
            white: Seat::new(rule_white),
        }
    }

    /// Applies one event. One that doesn't apply does nothing.
    pub fn step(&mut self, event: &StepsEvent<'_>)
        ensures { RuledHappens self.old event.now self.new }
    {
        match side_of_steps(&self.controller, event) {
            Some(Side::Black) => self.black.apply(&mut self.controller, Side::Black, event),
            Some(Side::White) => self.white.apply(&mut self.controller, Side::White, event),
            None => {}
        }
    }

    /// Applies all these events in turn.
    pub fn run(&mut self, events: &[StepsEvent<'_>])
        ensures { RuledRuns self.old events.now self.new }
    {
        for event in events {
            self.step(event);
        }
    }

    /// A side's engine, if one runs. The contract adds that some events lead from the opening to this world.
    fn engine_of(&self, side: Side) -> Option<&Steps>
        ensures running { MatchOption result (engine_at self.now.world side ≡ None) (λ engine.
            engine_at self.now.world side ≡ Some engine.now) }
        ensures reached { RuledReached self.now }
    {
        match side {
            Side::Black => self.black.engine(),
            Side::White => self.white.engine(),
        }
    }

    /// A side's engine, if one runs, with its game, what it waits for, and its last reply.
    pub fn running(&self, side: Side) -> Option<&Steps>
        ensures running { MatchOption result (engine_at self.now.world side ≡ None) (λ engine.
            engine_at self.now.world side ≡ Some engine.now) }
        // If its side is in step, its game is the controller's, under its own side's ko rule, and it waits for nothing.
        ensures there { IfSome result (λ engine. IsThereAtOnce self.now side engine.now) }
        // So it holds the controller's size, komi, handicap, moves and board.
        ensures holds { IfSome result (λ engine.
            HoldsInStep self.now.world.controller side engine.now.game) }
        // If both sides are in step, the two games are the same.
        ensures same { IfSome result (λ engine. SameAtOnce self.now.world engine.now) }
        // If its side has answered everything that it was sent, it waits for nothing.
        ensures answered { IfSome result (λ engine.
            WaitsOnlyUnanswered self.now.world.controller side engine.now) }
        // No engine ever waits for the answer to a custom command.
        ensures own { IfSome result (λ engine. engine.now.wait ≢ wait.Answer) }
    {
        self.engine_of(side)
    }

    /// The controller.
    pub fn controller(&self) -> &Match
        ensures controller { result.now ≡ self.now.world.controller }
        // No verdict blames a side except for a fourth refusal, and a side is abandoned only after all its starts.
        ensures fair { IsFair (rules_of_ruled self.now) result.now result.now.verdict }
    {
        &self.controller
    }

    /// The bytes on the way to a side's engine.
    pub fn to_engine(&self, side: Side) -> &[u8]
        ensures bytes { result.now ≡ to_engine_of self.now.world side }
        ensures room { length result.now ≤ most_to_engine }
    {
        match side {
            Side::Black => self.black.to_engine(),
            Side::White => self.white.to_engine(),
        }
    }

    /// The bytes of a side on the way to the controller.
    pub fn to_controller(&self, side: Side) -> &[u8]
        ensures bytes { result.now ≡ to_controller_of self.now.world side }
        ensures room { length result.now ≤ most_to_controller }
    {
        match side {
            Side::Black => self.black.to_controller(),
            Side::White => self.white.to_controller(),
        }
    }
}
