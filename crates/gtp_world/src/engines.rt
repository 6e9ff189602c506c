//! What a side of a world asks of its engines, of whatever kind.
ghost use Rattle.std.specs.Prelude.{ℕ, List};
ghost use Rattle.gtp_world.specs.Kinds.{Kind};
ghost use Rattle.gtp_world.specs.private.Room.{ReadsInto};

use crate::lane::{MOST_TO_CONTROLLER, MOST_TO_ENGINE};
use arrayvec::ArrayVec;

/// What the engines of one side are made of. It starts them, and delivers bytes to them.
pub(crate) trait Engines: Drop {
    /// An engine that it starts.
    type Engine: Drop;

    // What comes of these engines.
    ghost kind: { Self → Kind Self.Engine };

    // What an engine writes when it reads the first so many of the first bytes has room behind the others.
    ghost has_room: { Self.Engine → ℕ → List ℕ → List ℕ → Type 0 };

    /// Starts an engine.
    fn start(&self) -> Self::Engine
        ensures { (kind self.now).begins result };

    /// Delivers the first `count` bytes on the way to an engine, or all if there are fewer. What it reads is
    /// removed, and what it writes is appended.
    fn deliver(
        &self,
        engine: &mut Self::Engine,
        count: usize,
        to_engine: &mut ArrayVec<u8, MOST_TO_ENGINE>,
        to_controller: &mut ArrayVec<u8, MOST_TO_CONTROLLER>,
    )
        requires { has_room engine.old count to_engine.old.items to_controller.old.items }
        ensures { ReadsInto ((kind self.now).reads count)
            engine.old to_engine.old.items to_controller.old.items
            engine.new to_engine.new.items to_controller.new.items };
}
