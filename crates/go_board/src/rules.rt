//! The ko rules.

/// Which earlier boards a play may not bring back.
#[derive(Clone, Copy, PartialEq, Eq, Debug)]
pub enum KoRule {
    /// Simple ko: the board before the previous move.
    Simple,
    /// Positional ko, also called positional superko: the board after any number of the record's first moves, from none
    /// to all.
    Positional,
}
