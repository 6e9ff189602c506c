//! Worlds that settle.
use super::rows::{BLACK_IS_LOST, BLACK_MOVES, IN_STEP};
use super::scenes::{Events, Recorded, SIDES, assert_same_game};
use crate::asserts::{assert_equal, assert_true, some};
use gtp_match::{Match, Status};
use gtp_world::Event;
use std::process::Abort;

/// The events that start each side that is down, and bring both sides into step: one `Act` for each side that is down,
/// and then for Black, and then for White, a round for each script command that it has left.
fn settling(rt: &impl Abort, played: &Match) -> Events {
    let mut events = Events::new();
    for side in SIDES {
        if played.status(side) == Status::Down {
            events.add(rt, Event::Act);
        }
    }
    for side in SIDES {
        let confirmed = match played.status(side) {
            Status::Down => 0,
            Status::Up { confirmed, .. } => confirmed,
        };
        for number in confirmed..u32::MAX {
            if played
                .setup()
                .script(played.game().moves(), number)
                .is_none()
            {
                break;
            }
            events.add(rt, Event::Act);
            events.add(rt, Event::ToEngine(side, 100));
            events.add(rt, Event::ToController(side, 100));
        }
    }
    events
}

/// The world settles by `count` events: both sides are in step, their engines hold the controller's game, and the
/// record stays.
fn assert_settles(rt: &impl Abort, recorded: &mut Recorded, count: usize) {
    let world = &mut recorded.world;
    let events = settling(rt, world.controller());
    assert_equal(rt, events.all(rt).len(), count);
    let before = world.controller().game().moves().len();
    world.run(events.all(rt));
    let played = world.controller();
    for side in SIDES {
        assert_true(rt, played.in_step(side));
        assert_same_game(rt, some(rt, world.running(side)), played.game());
    }
    assert_equal(rt, played.game().moves().len(), before);
}

#[test]
fn a_new_world_settles_by_twenty_events_and_one_that_lost_an_engine_by_ten(rt: HostRuntime) {
    assert_settles(&rt, &mut Recorded::new(&rt, false), 20);
    let mut recorded = Recorded::new(&rt, false);
    recorded.go(&rt, "both sides are brought into step", &IN_STEP);
    recorded.go(&rt, "Black moves", &BLACK_MOVES);
    recorded.go(&rt, "Black is lost", &BLACK_IS_LOST);
    assert_settles(&rt, &mut recorded, 10);
    // Then no event is left.
    assert_settles(&rt, &mut recorded, 0);
}
