//! The opening: what an engine is asked after each start.
ghost use Rattle.std.specs.Prelude.{◌≡◌, ◌<◌, IfSome};
ghost use Rattle.go_board.specs.Game.{GameRecord};
ghost use Rattle.gtp_check_course.specs.Course.{IsLeftOut};
ghost use Rattle.gtp_check_course.specs.declared.unasked.Unasked.{Unasked};
ghost use Rattle.gtp_check_course.specs.Openings.{opened, opening_next};

use gtp_check_judge::{CheckCommand, Known};

/// What the opening asks next.
#[derive(Clone, Copy, Debug, PartialEq, Eq)]
pub enum Opening {
    /// `name`.
    Name,
    /// `version`.
    Version,
    /// `known_command fixed_handicap`.
    KnowsHandicap,
    /// `known_command undo`.
    KnowsUndo,
    /// `known_command final_score`.
    KnowsScore,
    /// Nothing: all was asked.
    Over,
}

impl Opening {
    /// Returns the command that is asked next, and what comes after it.
    pub(crate) fn next(self) -> Option<(CheckCommand, Opening)>
        ensures next { result ≡ opening_next self }
        ensures further { IfSome result (λ next. opened self < opened next.1) }
        ensures kept { IfSome result (λ next. (unasked : Unasked) (game : GameRecord)
            → ¬ IsLeftOut unasked game next.0) }
    {
        match self {
            Opening::Name => Some((CheckCommand::Name, Opening::Version)),
            Opening::Version => Some((CheckCommand::Version, Opening::KnowsHandicap)),
            Opening::KnowsHandicap => {
                let known = CheckCommand::KnownCommand(Known::FixedHandicap);
                Some((known, Opening::KnowsUndo))
            }
            Opening::KnowsUndo => {
                let known = CheckCommand::KnownCommand(Known::Undo);
                Some((known, Opening::KnowsScore))
            }
            Opening::KnowsScore => {
                let known = CheckCommand::KnownCommand(Known::FinalScore);
                Some((known, Opening::Over))
            }
            Opening::Over => None,
        }
    }
}
