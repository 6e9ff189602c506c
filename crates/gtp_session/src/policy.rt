//! Policies, which choose an engine's moves.
ghost use Rattle.go_base.specs.declared.colours.Colour.{Colour};
ghost use Rattle.go_board.specs.Game.{GameRecord};
ghost use Rattle.go_base.specs.declared.choices.Choice.{Choice};
ghost use Rattle.gtp_session.specs.Policy.{IsLawful};

pub use go_base::Choice;
use go_base::Colour;
use go_board::Game;

/// Chooses the moves of an engine.
pub trait Policy: Drop {
    // When asked for a colour in a game, the first state may make this choice and leave the second state.
    ghost may: { Self → GameRecord → Colour → Choice → Self → Type 0 };

    /// Chooses what the colour does next in the game: a resignation, or a vertex that is legal for the colour. It makes
    /// no difference whose turn it is, or whether the record is full.
    fn choose(&mut self, game: &Game, colour: Colour) -> Choice
        ensures { may self.old game.now colour result self.new };

    // Every choice that it may make is lawful.
    ghost lawful: { (old : Self) (game : GameRecord) (colour : Colour) (choice : Choice)
        (new : Self) → may old game colour choice new → IsLawful game colour choice };
}
