//! Colours of the stones.
ghost use Rattle.std.specs.Prelude.{◌≡◌, ◌↔◌, ◌⊎◌, [], ◌∷◌, IsTrue, IfSome, IfNone};
ghost use Rattle.std.specs.Str.{str_to_ascii_lowercase};
ghost use Rattle.go_base.specs.Word.{IsWord};

/// The colour of a stone, and of the player who plays it.
#[derive(Clone, Copy, Debug, PartialEq, Eq)]
pub enum Colour {
    /// Black, who gets the handicap stones.
    Black,
    /// White, who gets komi.
    White,
}

/// An engine, by the colour that it plays.
pub type Side = Colour;

impl Colour {
    ghost use Rattle.go_base.specs.Colour.{other, SpellsColour, colour_of, written_colour};

    /// Reads a colour: `b` or `black`, `w` or `white`, in any case. Returns `None` for every other text.
    pub fn read(text: &[u8]) -> Option<Colour>
        ensures read { IfSome result (λ colour. SpellsColour colour text.now) }
        ensures unread { IfNone result ((colour : Colour) → SpellsColour colour text.now → ⊥) }
        ensures value { result ≡ colour_of text.now }
    {
        if is_either(text, b"b", b"black") {
            return Some(Colour::Black);
        }
        if is_either(text, b"w", b"white") {
            return Some(Colour::White);
        }
        None
    }

    /// The other colour.
    pub fn other(self) -> Colour
        ensures { result ≡ other self }
    {
        match self {
            Colour::Black => Colour::White,
            Colour::White => Colour::Black,
        }
    }

    /// The colour as it is written: `b` or `w`.
    pub fn write(self) -> u8
        ensures { result ∷ [] ≡ written_colour self }
    {
        match self {
            Colour::Black => b'b',
            Colour::White => b'w',
        }
    }
}

/// Whether the text is one of two words, in any case.
fn is_either(text: &[u8], letter: &[u8], name: &[u8]) -> bool
    ensures { IsTrue result
        ↔ (IsWord (str_to_ascii_lowercase letter.now) text.now
        ⊎ IsWord (str_to_ascii_lowercase name.now) text.now) }
{
    text.eq_ignore_ascii_case(letter) || text.eq_ignore_ascii_case(name)
}
