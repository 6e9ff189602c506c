//! The policies of the engines in these worlds.
ghost use Rattle.gtp_session.specs.Policy.{IsLawful};

use go_base::{Colour, Vertex};
use go_board::Game;
use gtp_session::first::First;
use gtp_session::policy::{Choice, Policy};
use gtp_world::Maker;

/// Makes policies of one kind, a new one at each start.
#[derive(Clone, Copy, Drop)]
pub enum Kind {
    /// They choose as `First` does.
    First,
    /// They choose as `First` does, and pass where they are asked again at the same length of the record.
    FirstOnce,
}

/// A policy of one of these kinds.
#[derive(Drop)]
pub struct Chooser {
    kind: Kind,
    /// At which length of the record it was asked last.
    asked: Option<usize>,
}

impl Policy for Chooser {
    ghost may = { λ old game colour choice new. IsLawful game colour choice };

    fn choose(&mut self, game: &Game, colour: Colour) -> Choice {
        let moves = Some(game.moves().len());
        if matches!(&self.kind, Kind::FirstOnce) && self.asked == moves {
            return Choice::Play(Vertex::Pass);
        }
        self.asked = moves;
        let choice = First.choose(game, colour);
        match &choice {
            Choice::Play(vertex) if game.legal(colour, *vertex) => Choice::Play(*vertex),
            _ => Choice::Play(Vertex::Pass),
        }
    }

    ghost lawful = { λ old game colour choice new e. e };
}

impl Maker for Kind {
    type Made = Chooser;

    ghost may_make = { λ maker policy. Unit {0} };

    fn make(&self) -> Chooser {
        Chooser {
            kind: *self,
            asked: None,
        }
    }
}
