//! The policy that chooses a random candidate.
ghost use Rattle.std.specs.Prelude.{◌≡◌};
ghost use Rattle.gtp_session.specs.Random.{generator_of};
ghost use Rattle.gtp_session.specs.private.Lawful.{lawful_draw};
ghost use Rattle.gtp_session.specs.Policies.{random_may};

use crate::candidates::{candidates, play_or_pass};
use crate::policy::{Choice, Policy};
use go_base::{Colour, Vertex};
use go_board::Game;
use rand_core::SeedableRng;
use rand_core::utils::NextWord;
use rand_pcg::Pcg64;
use std::marker::Model;

/// Chooses a random candidate by the next word of a generator, and passes if there is none.
///
/// The candidates are those of [`First`](crate::first::First), in the same order. Of `n` candidates it chooses number
/// `word mod n`, counted from 0. If there is none, the generator isn't used.
#[derive(Drop)]
pub struct Random {
    generator: Pcg64,
}

impl Model for Random {
    ghost use Rattle.rand_pcg.specs.Lcg.{Lcg};

    ghost Value = { Lcg };

    ghost view = { λ r. r.generator };
}

impl Random {
    /// Returns a policy with the generator that `seed_from_u64` makes from the seed.
    pub fn new(seed: u32) -> Self
        ensures { result ≡ generator_of seed }
    {
        Random {
            generator: Pcg64::seed_from_u64(u64::from(seed)),
        }
    }
}

impl Policy for Random {
    ghost may = { random_may };

    fn choose(&mut self, game: &Game, colour: Colour) -> Choice {
        let all = candidates(game, colour);
        if all.is_empty() {
            return Choice::Play(Vertex::Pass);
        }
        // The word that `next_u64` returns. The contract of this call also says the state after it.
        let word = self.generator.next_word();
        let number = word % all.len() as u64;
        play_or_pass(all.get(number as usize).copied())
    }

    ghost lawful = { λ old game colour choice new e. lawful_draw game colour old choice new e };
}
