//! Laws of newly placed objects. Each is the contract of a function that does nothing.
ghost use Rattle.std.specs.Prelude.{◌≡◌, []};
ghost use Rattle.go_board.specs.declared.rules.KoRule.TheVariants.{Simple};
ghost use Rattle.vintsaky.specs.Fresh.{fresh_game, fresh_engine};
ghost use Rattle.vintsaky_calls.specs.Talks.{Talk};

/// A newly placed engine begins a talk under simple ko, and its game is that of a newly placed game.
pub fn placed_engines_begin_talks()
    ensures talk { Talk Simple [] fresh_engine }
    ensures game { fresh_engine.game ≡ fresh_game }
{}
