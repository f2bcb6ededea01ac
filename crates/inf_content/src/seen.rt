//! What is seen of a name of a directory.

use inf_base::{CallRef, DirRef, FileMeta};

/// What is seen of a name: that its directory is gone, that nothing stands there, which call reserved it, or what
/// stands there and which call holds it.
#[derive(Clone, Copy, Debug, PartialEq, Eq)]
pub enum Seen {
    Gone,
    Missing,
    Reserved(CallRef),
    File {
        meta: FileMeta,
        held: Option<CallRef>,
    },
    Dir {
        dir: DirRef,
        mode: u16,
        owner: u32,
        group: u32,
        held: Option<CallRef>,
    },
}
