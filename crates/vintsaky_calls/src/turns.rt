//! Whose turn it is in a game.
ghost use Rattle.vintsaky_calls.specs.Turns.{IsTurn, HasTurn};

use crate::codes::number_of_colour;
use go_base::Colour;
use go_board::Game;

/// Implements `vintsaky_game_turn`.
pub fn turn(game: &Game) -> u32
    ensures { HasTurn game.now result }
{
    number_of_colour(turn_of(game))
}

/// The colour whose turn it is.
pub(crate) fn turn_of(game: &Game) -> Colour
    ensures { IsTurn game.now result }
{
    match game.moves() {
        [.., last] => last.colour.other(),
        [] if game.handicap() == 0 => Colour::Black,
        [] => Colour::White,
    }
}
