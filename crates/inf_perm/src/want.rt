//! What a permission is asked for.

/// What a caller wants of a file or of a directory.
#[derive(Clone, Copy, Debug, PartialEq, Eq)]
pub enum Want {
    Read,
    Write,
    /// To look up names in a directory, which the execute bit grants.
    Search,
}
