//! Laws of playouts.
ghost use Rattle.go_board.specs.PlayoutLaws.{WordsDecidePlayouts, PlayoutsTakeRightTurns};

/// The words decide a playout: two playouts of the same game with the same colour, limit and words leave the same game.
/// How many words the source still has doesn't matter.
pub fn words_decide()
    ensures { WordsDecidePlayouts }
{}

/// In a playout the colours take turns, and each plays a candidate, or passes if it has none. It goes on until the game
/// is finished, the limit is reached or the record is full, and ends there.
pub fn right_turns()
    ensures { PlayoutsTakeRightTurns }
{}
