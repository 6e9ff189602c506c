//! The streams that a check writes to.

/// An output and a standard error.
#[derive(Drop)]
pub struct Streams<O, E> {
    /// Where complaints are written.
    pub output: O,
    /// Where usage errors, failures and the progress are written.
    pub errors: E,
}
