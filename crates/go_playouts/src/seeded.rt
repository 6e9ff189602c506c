//! Random words from a seed, and the playouts that they decide.
ghost use Rattle.std.specs.Prelude.{◌≡◌};
ghost use Rattle.go_playouts.specs.Seeded.{generator_of, IsSeededPlayout, IsSeededRollout};

use go_base::Colour;
use go_board::{Game, Words};
use rand_core::SeedableRng;
use rand_core::utils::NextWord;
use rand_pcg::Pcg64;
use std::marker::Model;

/// The random words of `Pcg64::seed_from_u64` for a seed.
#[derive(Drop)]
pub struct SeededWords {
    generator: Pcg64,
}

impl Model for SeededWords {
    ghost use Rattle.rand_pcg.specs.Lcg.{Lcg};

    ghost Value = { Lcg };

    ghost view = { λ s. s.generator };
}

impl SeededWords {
    /// The words of a seed, from the first one.
    pub fn new(seed: u64) -> Self
        ensures { result ≡ generator_of seed }
    {
        SeededWords {
            generator: Pcg64::seed_from_u64(seed),
        }
    }
}

impl Words for SeededWords {
    ghost use Rattle.go_playouts.specs.Seeded.{gives_next};

    ghost gives = { gives_next };

    fn next_word(&mut self) -> u64 {
        self.generator.next_word()
    }
}

/// Plays on with the random words of a seed until the game is finished, `limit` moves are made or the record is full.
/// The colours take turns, beginning with this one. `Game::playout` says how a word chooses a move.
pub fn playout(game: &mut Game, colour: Colour, seed: u64, limit: u32)
    ensures { IsSeededPlayout game.old colour seed limit game.new }
{
    let mut words = SeededWords::new(seed);
    game.playout(colour, &mut words, limit);
}

/// Returns the score, in half points, of the game that `playout` would leave: positive if Black leads. The game isn't
/// changed. With limit 0 it is the score of the game as it is.
pub fn rollout(game: &Game, colour: Colour, seed: u64, limit: u32) -> i32
    ensures { IsSeededRollout game.now colour seed limit result }
{
    let mut words = SeededWords::new(seed);
    game.rollout(colour, &mut words, limit)
}
