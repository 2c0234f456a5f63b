//! How far a reader has come.

/// What a reader has read of its decks.
#[derive(Clone, Copy, Debug, PartialEq, Eq)]
pub struct ReaderProgress {
    /// How many decks came to their end.
    pub ended: usize,
    /// How many cards of the next one were read; None where it is not current.
    pub place: Option<usize>,
}
