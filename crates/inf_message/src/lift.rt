//! What a message of a clean-up asks for.

use inf_base::{DirRef, Id};

/// What a message of a clean-up asks for.
#[derive(Clone, Copy, Debug)]
pub enum Lift {
    Cancel(DirRef),
    Drop(DirRef),
    Unseal(DirRef),
    /// With the parent of the directory's birth.
    Forget(Id, DirRef),
}
