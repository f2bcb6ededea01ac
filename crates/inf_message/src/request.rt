//! What a client asks a server for.

ghost use Rattle.std.specs.Prelude.{◌≡◌, ◌↔◌, IfOk, IsTrue};

use crate::aim::{Aim, What};
use crate::op::Op;
use inf_base::{
    Chain, DirRef, FileMeta, Home, Id, Key, LookKey, Name, NoMemory, Place, Shared, Triple,
    TryClone,
};
use std::alloc::Global;

/// What a client asks a server for. A chain holds the entries by which the client came to the directory asked; where
/// a request changes a directory itself, that one's entry ends the chain. Requests without a chain clean up, or end
/// what the calls of a flow began.
#[derive(Debug, PartialEq, Drop)]
pub enum Request {
    Lookup(LookKey),
    /// The one message of a call that needs no more.
    Finish {
        chain: Chain,
        op: Op,
    },
    /// Keeps a free name for a directory to come.
    Reserve {
        chain: Chain,
        name: Name,
    },
    /// Makes the content of a new directory.
    Make {
        triple: Shared<Triple>,
    },
    /// Puts the new directory under the name that was kept.
    Link {
        chain: Chain,
        name: Name,
        dir: DirRef,
        mode: u16,
    },
    Cancel {
        dir: DirRef,
    },
    Drop {
        dir: DirRef,
    },
    Seal {
        chain: Chain,
    },
    Unseal {
        dir: DirRef,
    },
    Unlink {
        chain: Chain,
    },
    /// Takes the row of a directory that had left its birth place.
    Forget {
        parent: Id,
        dir: DirRef,
    },
    Hold {
        chain: Chain,
        what: What,
    },
    Unhold {
        home: Home,
    },
    Prepare {
        old: Chain,
        new: Chain,
        aim: Aim,
    },
    Put {
        old: Chain,
        new: Chain,
        aim: Aim,
        meta: FileMeta,
    },
    Commit {
        home: Home,
    },
    Erase {
        dir: DirRef,
    },
    /// Tells a server that an access object is about to change; the place is that of the Hold's Serve.
    Mark {
        key: Key,
        hold: Place,
    },
    Release,
    Unmark,
    Admit {
        dir: DirRef,
        old: Chain,
        new: Chain,
    },
    Quit,
}

impl Request {
    /// Whether the two are equal: `==`, with a contract that says what it decides.
    #[tactic(auto, using(crate::proofs::RequestDecides::request_decides))]
    pub fn is_same(&self, other: &Self) -> bool
        ensures { IsTrue result ↔ (self.now ≡ other.now) }
    {
        self == other
    }
}

impl TryClone for Request {
    fn try_clone(&self, alloc: Global) -> Result<Self, NoMemory> {
        Ok(match self {
            Request::Lookup(key) => Request::Lookup(key.try_clone(alloc)?),
            Request::Finish { chain, op } => Request::Finish {
                chain: chain.try_clone(alloc)?,
                op: op.try_clone(alloc)?,
            },
            Request::Reserve { chain, name } => Request::Reserve {
                chain: chain.try_clone(alloc)?,
                name: name.try_clone(alloc)?,
            },
            Request::Make { triple } => Request::Make {
                triple: triple.try_clone(alloc)?,
            },
            Request::Link {
                chain,
                name,
                dir,
                mode,
            } => Request::Link {
                chain: chain.try_clone(alloc)?,
                name: name.try_clone(alloc)?,
                dir: *dir,
                mode: *mode,
            },
            Request::Cancel { dir } => Request::Cancel { dir: *dir },
            Request::Drop { dir } => Request::Drop { dir: *dir },
            Request::Seal { chain } => Request::Seal {
                chain: chain.try_clone(alloc)?,
            },
            Request::Unseal { dir } => Request::Unseal { dir: *dir },
            Request::Unlink { chain } => Request::Unlink {
                chain: chain.try_clone(alloc)?,
            },
            Request::Forget { parent, dir } => Request::Forget {
                parent: *parent,
                dir: *dir,
            },
            Request::Hold { chain, what } => Request::Hold {
                chain: chain.try_clone(alloc)?,
                what: what.try_clone(alloc)?,
            },
            Request::Unhold { home } => Request::Unhold { home: *home },
            Request::Prepare { old, new, aim } => Request::Prepare {
                old: old.try_clone(alloc)?,
                new: new.try_clone(alloc)?,
                aim: aim.try_clone(alloc)?,
            },
            Request::Put {
                old,
                new,
                aim,
                meta,
            } => Request::Put {
                old: old.try_clone(alloc)?,
                new: new.try_clone(alloc)?,
                aim: aim.try_clone(alloc)?,
                meta: *meta,
            },
            Request::Commit { home } => Request::Commit { home: *home },
            Request::Erase { dir } => Request::Erase { dir: *dir },
            Request::Mark { key, hold } => Request::Mark {
                key: key.try_clone(alloc)?,
                hold: *hold,
            },
            Request::Release => Request::Release,
            Request::Unmark => Request::Unmark,
            Request::Admit { dir, old, new } => Request::Admit {
                dir: *dir,
                old: old.try_clone(alloc)?,
                new: new.try_clone(alloc)?,
            },
            Request::Quit => Request::Quit,
        })
    }
}
