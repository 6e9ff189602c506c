//! Why a process was not started, and how one was cut off.
ghost use Rattle.std.specs.Prelude.{◌≡◌, take};
ghost use Rattle.gtp_wire.specs.Replies.{most_shown};
ghost use Rattle.gtp_process.specs.Starts.{first_word, program_line};
ghost use Rattle.gtp_process.specs.Shown.{unstarted};

use crate::starter::StartReason;
use arrayvec::ArrayVec;
use go_base::push;
use gtp_wire::MOST_SHOWN;

/// How a pipe cut a process off.
#[derive(Clone, Copy, Debug, PartialEq, Eq, Drop)]
pub enum PipeCause {
    /// A write failed.
    Writing,
    /// A read failed.
    Reading,
    /// Its output ended.
    Ended,
}

/// The beginning of a program's name.
pub type ProgramName = ArrayVec<u8, MOST_SHOWN>;

/// A program that was not started.
#[derive(Drop)]
pub struct Unstarted {
    /// Why.
    pub reason: StartReason,
    /// The first 80 bytes of its name.
    pub program: ProgramName,
}

impl Unstarted {
    /// Records that a program was not started for this reason. The first word is its name, of which the first 80 bytes
    /// are kept.
    pub fn new(words: &[&str], reason: StartReason) -> Self
        ensures { result ≡ unstarted (program_line words.now) reason }
    {
        Unstarted {
            reason,
            program: first_bytes(first_word(words).as_bytes()),
        }
    }
}

/// Returns the first word, or an empty one if there is none.
fn first_word<'a>(words: &[&'a str]) -> &'a str
    ensures { result.now ≡ first_word (program_line words.now) }
{
    match words {
        [word, ..] => *word,
        [] => "",
    }
}

/// Returns the beginning of a text.
fn first_bytes(text: &[u8]) -> ProgramName
    ensures { result.items ≡ take most_shown text.now }
{
    let mut bytes = ArrayVec::new();
    push(&mut bytes, &text[..MOST_SHOWN.min(text.len())]);
    bytes
}
