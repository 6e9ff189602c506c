//! The usage errors that the program finds itself, and its name in error lines.
ghost use Rattle.std.specs.Prelude.{◌≡◌};
ghost use Rattle.cli.specs.declared.failure.PlanError.TheVariants as plan_error;
ghost use Rattle.twogtp_app.specs.Status.{mistake_text};

use cli::failure::{MistakeText, PlanError};

/// The program's name.
pub const NAME: &[u8] = b"twogtp";

/// A usage error that `clap` doesn't find.
#[derive(Clone, Copy, Debug, PartialEq, Eq, Drop)]
pub enum Mistake {
    /// `--black` is empty, or only spaces.
    NoBlackCommand,
    /// `--white` is empty, or only spaces.
    NoWhiteCommand,
    /// The text of `--komi` is no komi.
    BadKomi,
    /// The size doesn't allow this handicap.
    BadHandicap,
}

impl MistakeText for Mistake {
    ghost called = { mistake_text };

    fn text(&self) -> &'static [u8] {
        match self {
            Mistake::NoBlackCommand => b"no command for black",
            Mistake::NoWhiteCommand => b"no command for white",
            Mistake::BadKomi => b"bad komi",
            Mistake::BadHandicap => b"bad handicap",
        }
    }
}

impl From<Mistake> for PlanError<Mistake> {
    ghost from_gives = { λ mistake error. error ≡ plan_error.BadWords mistake };

    fn from(mistake: Mistake) -> PlanError<Mistake> {
        PlanError::BadWords(mistake)
    }
}
