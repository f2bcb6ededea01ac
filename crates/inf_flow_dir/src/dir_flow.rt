//! A flow under way: its messages one after another, and what is cleaned up where one does not succeed.

mod cleaning;
mod messages;
mod replies;

use inf_base::{Chain, DirRef, Id, Name};

/// The group that is next, or waited for.
#[derive(Drop)]
pub enum DirFlow {
    /// A directory is made at the end of the chain: the name is kept.
    Reserves {
        chain: Chain,
        name: Name,
        mode: u16,
    },
    /// With the version of the directory to come, and its identifier.
    Makes {
        chain: Chain,
        name: Name,
        mode: u16,
        version: u64,
        id: Id,
    },
    /// With the directory's version, and the directory that was born.
    Links {
        chain: Chain,
        name: Name,
        mode: u16,
        version: u64,
        dir: DirRef,
    },
    /// The directory at the end of the chain is removed: other calls are kept out of it.
    Seals(Chain),
    Unlinks(Chain),
}
