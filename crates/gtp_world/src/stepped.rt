//! Sans-IO engines as the engines of one side, which are made of nothing but their ko rule.
ghost use Rattle.std.specs.Prelude.{◌≡◌};
ghost use Rattle.gtp_world.specs.Kinds.{Calls, FeedsFront, in_steps, written_at};
ghost use Rattle.gtp_world.specs.StepsWorlds.{call_of};
ghost use Rattle.gtp_world.specs.private.Room.{WritesWithin, reply_where};

use crate::calls;
use crate::engines::Engines;
use crate::lane::{MOST_TO_CONTROLLER, MOST_TO_ENGINE, cut_front};
use crate::steps_events::Call;
use arrayvec::ArrayVec;
use go_base::push;
use go_board::KoRule;
use gtp_session::steps::{Event, Steps};

/// What the caller writes when this was reported: the reply, if one is ready.
fn written(event: Event, steps: &Steps) -> &[u8]
    ensures { result.now ≡ written_at event steps.now }
{
    match event {
        Event::Reply => steps.reply(),
        Event::More | Event::Asked(_) | Event::Other | Event::Ended => &[],
    }
}

/// Makes a call of the engine. Returns whether its reply is ready to be written.
pub(crate) fn make(steps: &mut Steps, call: &Call<'_>) -> bool
    ensures { Calls steps.old (call_of call.now) steps.new (reply_where result steps.new) }
{
    match call {
        Call::Choose(choice) => calls::choose(steps, *choice).is_ok(),
        Call::Answer(ok, text) => calls::answer(steps, *ok, text).is_ok(),
        Call::Decline => calls::decline(steps).is_ok(),
        Call::SetName(text) => {
            let _ = calls::set_name(steps, text);
            false
        }
        Call::SetVersion(text) => {
            let _ = calls::set_version(steps, text);
            false
        }
        Call::AddCommand(name) => {
            let _ = calls::add_command(steps, name);
            false
        }
    }
}

impl Engines for KoRule {
    type Engine = Steps;

    ghost kind = { in_steps };

    ghost has_room = { λ engine count coming out. WritesWithin (FeedsFront count) engine coming out };

    fn start(&self) -> Steps {
        Steps::new(*self)
    }

    // The caller reads the bytes and feeds them. What the engine doesn't use stays on the way.
    fn deliver(
        &self,
        engine: &mut Steps,
        count: usize,
        to_engine: &mut ArrayVec<u8, MOST_TO_ENGINE>,
        to_controller: &mut ArrayVec<u8, MOST_TO_CONTROLLER>,
    ) {
        let given = count.min(to_engine.len());
        let fed = calls::feed(engine, &to_engine.as_slice()[..given]);
        push(to_controller, written(fed.event, engine));
        cut_front(to_engine, fed.used);
    }
}
