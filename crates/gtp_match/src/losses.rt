//! Why a side fails by what it writes: it goes down, is unfit, or forfeits.
ghost use Rattle.std.specs.Prelude.{◌≡◌, take};
ghost use Rattle.gtp_match.specs.Losing.{owed_of, BreaksRule};
ghost use Rattle.gtp_wire.specs.Replies.{most_shown};
ghost use Rattle.gtp_match.specs.private.Adding.{owing_also};

use crate::sides::EngineRun;
use crate::unanswered::SentCommand;
use crate::verdicts::SideFault;
use arrayvec::ArrayVec;
use go_base::{Choice, Side, push};
use go_board::{Game, PlayFault};
use gtp_wire::MOST_SHOWN;

/// The beginning of what a side wrote.
pub type ShownBytes = ArrayVec<u8, MOST_SHOWN>;

/// Why a side fails by what it writes.
#[derive(Clone, Copy, Debug, PartialEq, Eq)]
pub enum LossCause {
    /// Its bytes show this fault. It goes down.
    Shows(SideFault),
    /// It failed a command of the script other than `play`, or its answer to `fixed_handicap` isn't the handicap's
    /// points. It is unfit.
    Unfit,
    /// It refused a `play` that isn't retaken. It forfeits.
    RefusesPlay,
    /// It failed to undo its last move, which the other side refused. The other side forfeits.
    KeepsMove,
    /// It failed a `genmove`. It forfeits.
    NoMove,
    /// Its answer to a `genmove` is neither a vertex nor a resignation. It forfeits.
    NoVertex,
    /// Its move is illegal for this cause. It forfeits.
    Illegal(PlayFault),
}

/// What a side owes.
#[derive(Drop)]
pub struct Owed {
    /// How many commands it hasn't answered.
    pub unanswered: u32,
    /// The oldest of them, if any.
    pub oldest: Option<SentCommand>,
    /// The first 80 bytes of what it wrote since its last whole reply, as they came.
    pub bytes: ShownBytes,
}

impl Owed {
    /// Adds bytes that the side wrote after these, as far as they are shown.
    pub(crate) fn add_bytes(&mut self, text: &[u8])
        ensures { self.new ≡ owing_also self.old text.now }
    {
        let room = MOST_SHOWN - self.bytes.len();
        push(&mut self.bytes, &text[..room.min(text.len())]);
    }
}

/// A side failed by what it wrote.
#[derive(Drop)]
pub struct Loss {
    /// Why.
    pub cause: LossCause,
    /// What it owed at the end of the reply, or at the fault, by which it fails. If that is a reply, the bytes are
    /// those of the reply, without what follows it. Otherwise they are the first 80 of all that was read since the last
    /// whole reply, including what follows the fault.
    pub owed: Owed,
}

/// Returns what an engine owes.
pub(crate) fn owed_by(engine: &EngineRun) -> Owed
    ensures { result ≡ owed_of engine.now engine.now.reader }
{
    Owed {
        unanswered: engine.unanswered.len() as u32,
        oldest: engine.unanswered.oldest(),
        bytes: first_bytes(engine.reader.bytes()),
    }
}

/// Returns the first bytes of a text, as many as are shown.
fn first_bytes(text: &[u8]) -> ShownBytes
    ensures { result.items ≡ take most_shown text.now }
{
    let mut bytes = ArrayVec::new();
    push(&mut bytes, &text[..MOST_SHOWN.min(text.len())]);
    bytes
}

/// Returns the rule that a chosen vertex breaks, if any.
pub(crate) fn broken_rule(game: &Game, side: Side, choice: Option<Choice>) -> Option<LossCause>
    ensures { BreaksRule game.now side choice result }
{
    match choice {
        None => None,
        Some(Choice::Resign) => None,
        Some(Choice::Play(vertex)) => match game.refusal(side, vertex) {
            None => None,
            Some(fault) => Some(LossCause::Illegal(fault)),
        },
    }
}
