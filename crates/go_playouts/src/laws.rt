//! Laws of seeded playouts.
ghost use Rattle.go_playouts.specs.SeededLaws.{SeedsDecidePlayouts, RolloutsScorePlayouts};

use go_board::laws::playouts::words_decide;

/// The same game, colour, seed and limit give the same playout, and a rollout with them returns the score of the game
/// that this playout leaves.
pub fn seeds_decide()
    ensures playouts { SeedsDecidePlayouts }
    ensures rollouts { RolloutsScorePlayouts }
{
    words_decide();
}
