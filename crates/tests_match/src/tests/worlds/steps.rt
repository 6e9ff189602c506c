//! A world of sans-IO engines.
use super::small_setup;
use crate::asserts::{assert_equal, some};
use go_base::Colour::{Black, White};
use go_base::Vertex;
use go_board::KoRule;
use gtp_session::policy::Choice;
use gtp_session::steps::Wait;
use gtp_world::{Call, Event, StepsEvent, StepsWorld};

#[test]
fn an_author_chooses_and_no_other_call_makes_the_move(rt: HostRuntime) {
    let calls = [
        StepsEvent::Calls(Black, Call::SetName(b"thinker")),
        StepsEvent::Calls(Black, Call::SetVersion(b"2")),
        StepsEvent::Calls(Black, Call::AddCommand(b"think")),
        StepsEvent::Calls(Black, Call::AddCommand(b"genmove")),
        StepsEvent::Calls(Black, Call::Answer(true, b"thinker")),
        StepsEvent::Calls(Black, Call::Decline),
        StepsEvent::Calls(Black, Call::Choose(Choice::Play(Vertex::Pass))),
    ];
    for rules in [None, Some((KoRule::Simple, KoRule::Positional))] {
        let setup = small_setup(&rt);
        let mut world = match rules {
            None => StepsWorld::new(setup),
            Some((black, white)) => StepsWorld::with_rules(setup, black, white),
        };
        // Nothing was started, so none of these applies.
        world.run(&[
            StepsEvent::Happens(Event::BrokenWrite(3)),
            StepsEvent::Happens(Event::ToEngine(White, 100)),
            StepsEvent::Happens(Event::ToController(White, 100)),
            StepsEvent::Happens(Event::Crash(White, 0)),
            StepsEvent::Happens(Event::End(White)),
            StepsEvent::Calls(White, Call::Decline),
        ]);
        // Both sides are started, Black once more after a write that broke.
        world.run(&[
            StepsEvent::Happens(Event::Act),
            StepsEvent::Happens(Event::Act),
            StepsEvent::Happens(Event::BrokenWrite(3)),
            StepsEvent::Happens(Event::Act),
        ]);
        assert_equal(&rt, world.controller().restarts(Black), 1);
        for side in [Black, Black, Black, White, White, White] {
            world.step(&StepsEvent::Happens(Event::Act));
            world.step(&StepsEvent::Happens(Event::ToEngine(side, 100)));
            world.step(&StepsEvent::Happens(Event::ToController(side, 100)));
        }
        // Black is asked for a move, and White is lost.
        world.run(&[
            StepsEvent::Happens(Event::Act),
            StepsEvent::Happens(Event::ToEngine(Black, 100)),
            StepsEvent::Happens(Event::Act),
            StepsEvent::Happens(Event::Crash(White, 0)),
            StepsEvent::Happens(Event::End(White)),
        ]);
        assert_equal(&rt, world.running(White).is_none(), true);
        assert_equal(&rt, world.to_engine(White), b"".as_slice());
        assert_equal(&rt, world.to_controller(White), b"".as_slice());
        for call in &calls {
            let engine = some(&rt, world.running(Black));
            assert_equal(&rt, engine.wait(), Wait::Choice(Black));
            assert_equal(&rt, world.to_controller(Black), b"".as_slice());
            world.step(call);
        }
        assert_equal(&rt, world.to_engine(Black), b"".as_slice());
        assert_equal(&rt, world.to_controller(Black), b"=4 pass\n\n".as_slice());
        world.step(&StepsEvent::Happens(Event::ToController(Black, 100)));
        assert_equal(&rt, world.controller().game().moves().len(), 1);
    }
}
