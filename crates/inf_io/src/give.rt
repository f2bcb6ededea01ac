//! What a put to a sink answers.

/// A sink took some of the bytes that it was offered, or failed.
#[derive(Clone, Copy, Debug, PartialEq, Eq)]
pub enum Give {
    /// So many bytes, from the first on, are now the sink's.
    Gave(usize),
    Failed,
}
