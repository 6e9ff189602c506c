//! What is wrong with an engine.
ghost use Rattle.std.specs.Prelude.{◌≡◌};

use gtp_check_judge::Kind;
use gtp_process::PipeCause;

/// What is wrong with an engine.
#[derive(Clone, Copy, Debug, PartialEq, Eq)]
pub enum Fault {
    /// The output that it wrote.
    Wrote(Kind),
    /// It was cut off while it owed a reply.
    CutOff(PipeCause),
}

impl Default for Fault {
    ghost use Rattle.gtp_check_talk.specs.declared.fault.Fault.{Fault};
    ghost use Rattle.gtp_check_judge.specs.declared.judging.Kind.{Kind};

    ghost is_default = { λ fault. fault ≡ Fault.Wrote Kind.Refused };

    /// The default: a command was refused.
    fn default() -> Fault {
        Fault::Wrote(Kind::Refused)
    }
}
