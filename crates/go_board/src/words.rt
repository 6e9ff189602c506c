//! The source of a playout's random words.
ghost use Rattle.std.specs.Prelude.{ℕ};

/// A source of random words, such as a random number generator.
pub trait Words {
    // Whether the source may give this word in the first state, and is then in the second state.
    ghost gives: { Self → ℕ → Self → Type 0 };

    /// The next word: 64 bits.
    fn next_word(&mut self) -> u64
        ensures { gives self.old result self.new };
}
