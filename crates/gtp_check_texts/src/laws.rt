//! Laws of the reasons: what they say about a game is so. Each is the contract of a function that does nothing.
ghost use Rattle.gtp_check_texts.specs.Laws.{CapturesAreTaken};

/// The stones that a reason names as captured are those that the move removes from the board.
pub fn captures_are_taken()
    ensures { CapturesAreTaken }
{}
