//! Choices: what an engine does when it is asked for a move.
use crate::vertices::Vertex;

/// What an engine answers to a request for a move.
#[derive(Clone, Copy, Debug, PartialEq, Eq)]
pub enum Choice {
    /// It resigns.
    Resign,
    /// It plays on a point, or passes.
    Play(Vertex),
}

impl Choice {
    ghost use Rattle.std.specs.Prelude.{◌≡◌, IfSome, IfNone};
    ghost use Rattle.go_base.specs.Choice.{SpellsChoice, choice_of};

    /// Reads a choice: `resign` in any case, or a vertex. Returns `None` for every other text.
    pub fn read(text: &[u8]) -> Option<Choice>
        ensures read { IfSome result (λ choice. SpellsChoice choice text.now) }
        ensures unread { IfNone result ((choice : Choice) → SpellsChoice choice text.now → ⊥) }
        ensures value { result ≡ choice_of text.now }
    {
        if text.eq_ignore_ascii_case(b"resign") {
            return Some(Choice::Resign);
        }
        let vertex = Vertex::read(text)?;
        Some(Choice::Play(vertex))
    }
}
