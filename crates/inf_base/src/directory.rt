//! Which directory is meant.

use crate::id::{Id, Place};

/// A directory: an identifier can come twice, the place of its birth never does, so both name it.
#[derive(Clone, Copy, Debug, PartialEq, Eq, Hash)]
pub struct DirRef {
    pub id: Id,
    /// The place of the Ask that made its content object, 0 for the root.
    pub born: Place,
}

/// Where an access object stands: by itself for the root, else in the slots of a directory.
#[derive(Clone, Copy, Debug, PartialEq, Eq)]
pub enum Home {
    Top,
    In(DirRef),
}
