//! How an engine is ended: after a `quit`, or at once.
ghost use Rattle.gtp_process.specs.Endings.{IsEnded};
ghost use Rattle.gtp_process.specs.Quitting.{QuitsIfAny};
ghost use Rattle.gtp_check_app.specs.Checks.{IsClosedWhere};
ghost use Rattle.gtp_check_app.specs.Turns.{process_of};

use gtp_check_talk::engine::{Engine, Room};
use gtp_process::{Process, quit_and_end};

/// Sends `quit` to an engine, if there is one, and ends it.
pub fn quit<P: Process>(engine: Option<Engine<P>>, room: &mut Room)
    ensures { QuitsIfAny P.Process (process_of engine) }
{
    if let Some(engine) = engine {
        let Engine {
            process,
            sent: _,
            talk: _,
            waiting: _,
            held: _,
            wrote: _,
        } = engine;
        quit_and_end(Some(process), &mut room.buffer);
    }
}

/// Ends an engine, if there is one. An idle one is sent `quit` first.
pub fn close<P: Process>(engine: Option<Engine<P>>, is_idle: bool, room: &mut Room)
    ensures { IsClosedWhere P.Process is_idle (process_of engine) }
{
    if is_idle {
        quit(engine, room);
    } else {
        end_now(engine);
    }
}

/// Ends an engine at once, if there is one.
pub fn end_now<P: Process>(engine: Option<Engine<P>>)
    ensures { IsEnded P.Process (process_of engine) }
{
    if let Some(engine) = engine {
        let _ = engine.end();
    }
}
