//! An example of a sans-IO engine. It runs the command of its argument by `sh`, and plays the moves that this writes.
#![tactic(auto)]

use go_base::{Choice, Vertex};
use gtp_process::{Process, Starter, SystemStarter, end, read_some};
use gtp_session::steps::{Event, Steps};
use gtp_session::streams::{Counted, Incoming, send};

fn main(rt: HostRuntime) -> std::io::Result<()> {
    let words = cli::words::arguments(&rt)?;
    let mut starter = SystemStarter {
        alloc: rt.alloc(),
        system: &rt,
        errors: rt.stderr(),
    };
    let command = words.get(1).map_or("", |word| word.as_str());
    if let Ok(mut mover) = starter.start(&["sh", "-c", command]) {
        let _ended = play(&rt, &mut mover);
        end(Some(mover));
    }
    Ok(())
}

/// Answers the controller until `quit` or the end of the input. A chunk of input may have many lines, or a part of one.
fn play<P: Process>(rt: &HostRuntime, mover: &mut P) -> Option<()> {
    let (mut input, mut output) = (Counted::new(rt.stdin()), Counted::new(rt.stdout()));
    let (mut engine, mut buffer) = (Steps::new(go_board::KoRule::Simple), [0; 4096]);
    let (mut from, mut to) = (0, input.read(&mut buffer).ok()?);
    for _event in 0..u64::MAX {
        let fed = engine.feed(buffer.get(from..to)?);
        from += fed.used;
        match fed.event {
            Event::More if to == 0 => break,
            Event::More => (from, to) = (0, input.read(&mut buffer).ok()?),
            Event::Asked(_colour) => choose(&mut engine, mover)?,
            Event::Other => engine.decline().ok()?,
            Event::Reply => {}
            Event::Ended => break,
        }
        if fed.event != Event::More {
            send(&mut output, engine.reply()).ok()?;
        }
    }
    Some(())
}

/// Supplies the mover's next line that is a legal choice, a vertex or `resign`; after its last newline, a pass.
fn choose<P: Process>(engine: &mut Steps, mover: &mut P) -> Option<()> {
    let (mut line, mut byte) = (arrayvec::ArrayVec::<u8, 80>::new(), [0]);
    for _byte in 0..u64::MAX {
        let read = read_some(mover, &mut byte).ok()?;
        match (byte[0], Choice::read(&line)) {
            _ if read == 0 => break,
            (b'\n', Some(choice)) if engine.choose(choice).is_ok() => return Some(()),
            (b'\n', _) => line.clear(),
            (other, _) => line.try_push(other).unwrap_or(()),
        }
    }
    engine.choose(Choice::Play(Vertex::Pass)).ok()
}
