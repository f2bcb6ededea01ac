//! What a server answers.

ghost use Rattle.std.specs.Prelude.{◌≡◌, ◌↔◌, IfOk, IsTrue};
ghost use Rattle.inf_message.specs.Heard.{heard, light};

use inf_base::{
    Access, CallRef, Errno, FileMeta, Items, Key, Kind, NoMemory, Place, Shared, Triple, TryClone,
};
use std::alloc::Global;

/// Where a change in flight touches the call that was told to wait.
#[derive(Clone, Copy, Debug, PartialEq, Eq)]
pub enum Spot {
    /// At the carried entry of this position, counted from 0 over all chains of the request.
    Carried(u32),
    Slot,
    Inside,
    Sealed,
    Bearer,
    Change,
}

/// What a server answers. `born` is the place of birth of the directory asked.
#[derive(Debug, PartialEq, Drop)]
pub enum Reply {
    Found {
        key: Shared<Key>,
        access: Shared<Access>,
    },
    Absent {
        born: Place,
    },
    IsFile {
        born: Place,
    },
    NoDir,
    Gone,
    /// Bit i is set where the carried entry of position i is out of date.
    Stale(u128),
    Busy {
        by: CallRef,
        spot: Spot,
        born: Place,
    },
    Other,
    NoMem,
    /// The version of the directory to come.
    Reserved(u64),
    Held(FileMeta),
    Clash(Shared<Triple>),
    Fine,
    Refused(Errno),
    Stat {
        kind: Kind,
        meta: FileMeta,
    },
    Listing(Items),
}

impl Reply {
    /// Whether the two are equal: `==`, with a contract that says what it decides.
    #[tactic(auto, using(crate::proofs::ReplyDecides::reply_decides))]
    pub fn is_same(&self, other: &Self) -> bool
        ensures { IsTrue result ↔ (self.now ≡ other.now) }
    {
        self == other
    }

    /// What a client keeps of the reply to a lookup: an equal copy. Of a listing nothing is kept, since no lookup asks
    /// for one.
    #[tactic(auto, using(crate::proofs::ReplyDecides::light_heard))]
    pub fn heard(&self, alloc: Global) -> Result<Self, NoMemory>
        ensures { IfOk result (λ copy. copy ≡ heard self.now) }
    {
        Ok(match self {
            Reply::Found { key, access } => Reply::Found {
                key: key.try_clone(alloc)?,
                access: access.try_clone(alloc)?,
            },
            Reply::Clash(triple) => Reply::Clash(triple.try_clone(alloc)?),
            _ => self.light(),
        })
    }

    /// What is kept of it without taking memory.
    pub fn light(&self) -> Reply
        ensures { result ≡ light self.now }
    {
        match self {
            Reply::Found { .. } | Reply::Clash(_) | Reply::Listing(_) => Reply::Other,
            Reply::Absent { born } => Reply::Absent { born: *born },
            Reply::IsFile { born } => Reply::IsFile { born: *born },
            Reply::NoDir => Reply::NoDir,
            Reply::Gone => Reply::Gone,
            Reply::Stale(hits) => Reply::Stale(*hits),
            Reply::Busy { by, spot, born } => Reply::Busy {
                by: *by,
                spot: *spot,
                born: *born,
            },
            Reply::Other => Reply::Other,
            Reply::NoMem => Reply::NoMem,
            Reply::Reserved(version) => Reply::Reserved(*version),
            Reply::Held(meta) => Reply::Held(*meta),
            Reply::Fine => Reply::Fine,
            Reply::Refused(error) => Reply::Refused(*error),
            Reply::Stat { kind, meta } => Reply::Stat {
                kind: *kind,
                meta: *meta,
            },
        }
    }
}

impl TryClone for Reply {
    #[tactic(auto, using(crate::proofs::ReplyDecides::light_same))]
    fn try_clone(&self, alloc: Global) -> Result<Self, NoMemory> {
        Ok(match self {
            Reply::Found { key, access } => Reply::Found {
                key: key.try_clone(alloc)?,
                access: access.try_clone(alloc)?,
            },
            Reply::Clash(triple) => Reply::Clash(triple.try_clone(alloc)?),
            Reply::Listing(items) => Reply::Listing(items.try_clone(alloc)?),
            _ => self.light(),
        })
    }
}
