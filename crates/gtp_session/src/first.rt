//! The policy that takes the first candidate.
ghost use Rattle.gtp_session.specs.private.Lawful.{lawful_candidate};
ghost use Rattle.gtp_session.specs.Policies.{first_may};

use crate::candidates::{first_candidate, play_or_pass};
use crate::policy::{Choice, Policy};
use go_base::Colour;
use go_board::Game;

/// Chooses the first candidate, or a pass if there is none.
///
/// A candidate for a colour is a legal point that has a neighbour which is empty or has a stone of the other colour.
/// The candidates are in the order A1, B1, .., A2, B2, ...
#[derive(Clone, Copy, Debug, Drop)]
pub struct First;

impl Policy for First {
    ghost may = { first_may };

    fn choose(&mut self, game: &Game, colour: Colour) -> Choice {
        play_or_pass(first_candidate(game, colour))
    }

    ghost lawful = { λ old game colour choice new e. lawful_candidate game colour 0 choice e };
}
