//! What a take from a source answers.

/// A source gave some bytes, has none left, or failed.
#[derive(Clone, Copy, Debug, PartialEq, Eq)]
pub enum Take {
    /// So many bytes lie at the front of the buffer.
    Taken(usize),
    End,
    Failed,
}
