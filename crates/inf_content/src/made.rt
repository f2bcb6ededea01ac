//! What comes of making a directory.

use inf_base::{CallRef, Shared, Triple};

/// What comes of making a directory: it is new, its identifier is another triple's, or it is there, of this call.
#[derive(Debug, Drop)]
pub enum Made {
    New,
    Clash(Shared<Triple>),
    Bearer(CallRef),
}
