//! Access objects as they were told, and chains of them.

ghost use Rattle.std.specs.Prelude.{◌≡◌, IfOk};

use crate::access::Access;
use crate::id::Place;
use crate::key::Key;
use crate::memory::{NoMemory, TryClone};
use crate::sequence::Sequence;
use crate::shared::Shared;
use std::alloc::Global;

/// An access object as it was told under its key. Both are shared with the reply that told them, and with the other
/// chains that hold the entry.
#[derive(Debug, PartialEq, Drop)]
pub struct Entry {
    pub key: Shared<Key>,
    pub access: Shared<Access>,
    /// The place of the Serve that told it.
    pub stamp: Place,
}

/// The entries of a path's directories, the root's first. Every message of a call holds them, so copies share them.
pub type Chain = Shared<Sequence<Entry>>;

impl TryClone for Entry {
    fn try_clone(&self, alloc: Global) -> Result<Self, NoMemory> {
        Ok(Entry {
            key: self.key.try_clone(alloc)?,
            access: self.access.try_clone(alloc)?,
            stamp: self.stamp,
        })
    }
}
