//! What is wrong with an engine, in words.
ghost use Rattle.std.specs.Prelude.{◌≡◌};
ghost use Rattle.gtp_check_texts.specs.reasons.Kinds.{fault_text, kind_text};

use gtp_check_judge::Kind;
use gtp_check_talk::Fault;
use gtp_process::{PipeCause, pipe_text};

/// Returns the text of what was wrong, which follows the command.
pub fn fault_text(fault: Fault) -> &'static [u8]
    ensures { result.now ≡ fault_text fault }
{
    match fault {
        Fault::Wrote(kind) => kind_text(kind),
        Fault::CutOff(cause) => pipe_text(cause),
    }
}

/// Returns the text of what was wrong with its output.
fn kind_text(kind: Kind) -> &'static [u8]
    ensures { result.now ≡ kind_text kind }
{
    match kind {
        Kind::Refused => b"it was refused",
        Kind::Took(_) => b"it was accepted",
        Kind::OtherPoints => b"other points than those of the handicap",
        Kind::NoMove => b"no move: the genmove failed",
        Kind::NoVertex => b"neither a vertex nor resign",
        Kind::Unlawful(_) => b"an illegal move",
        Kind::Unlisted => b"a list without a row for a command that each engine has",
        Kind::NoScore => b"no score",
        Kind::OtherScore => b"a score that doesn't differ from its others as the komis do",
        Kind::WrongId => b"a reply without the id of the command",
        Kind::Unasked => b"a reply to nothing that was asked",
        Kind::NoStatus => b"not a GTP reply (it begins with neither = nor ?)",
        Kind::Overlong => b"no end of a reply in 8192 bytes",
    }
}
