//! What the one message of a call may ask for.

ghost use Rattle.std.specs.Prelude.{◌≡◌, ◌↔◌, IfOk, IsTrue};

use inf_base::{Errno, Name, NoMemory, TryClone};
use std::alloc::Global;

/// What a call that one message decides asks for, at the directory that its path reached.
#[derive(Debug, PartialEq, Drop)]
pub enum Op {
    /// A refusal that the client knows by itself, and asks to have its place in the history.
    Refuse(Errno),
    /// The root's own metadata.
    StatTop,
    /// The walk cannot go on from this name.
    Walk(Name),
    Create(Name, u16),
    Stat(Name),
    Unlink(Name),
    Truncate(Name, u64),
    Chmod(Name, u16),
    /// A file gets another name in the same directory: the old name, then the new one.
    Move(Name, Name),
    /// A listing of what this name is told not to be, a directory.
    ListName(Name),
    /// The same for the removal of a directory.
    RmdirName(Name),
    List,
}

impl Op {
    /// Whether the two are equal: `==`, with a contract that says what it decides.
    #[tactic(auto, using(crate::proofs::PartDecides::op_decides))]
    pub fn is_same(&self, other: &Self) -> bool
        ensures { IsTrue result ↔ (self.now ≡ other.now) }
    {
        self == other
    }
}

impl TryClone for Op {
    fn try_clone(&self, alloc: Global) -> Result<Self, NoMemory> {
        Ok(match self {
            Op::Refuse(error) => Op::Refuse(*error),
            Op::StatTop => Op::StatTop,
            Op::Walk(name) => Op::Walk(name.try_clone(alloc)?),
            Op::Create(name, mode) => Op::Create(name.try_clone(alloc)?, *mode),
            Op::Stat(name) => Op::Stat(name.try_clone(alloc)?),
            Op::Unlink(name) => Op::Unlink(name.try_clone(alloc)?),
            Op::Truncate(name, length) => Op::Truncate(name.try_clone(alloc)?, *length),
            Op::Chmod(name, mode) => Op::Chmod(name.try_clone(alloc)?, *mode),
            Op::Move(old, new) => Op::Move(old.try_clone(alloc)?, new.try_clone(alloc)?),
            Op::ListName(name) => Op::ListName(name.try_clone(alloc)?),
            Op::RmdirName(name) => Op::RmdirName(name.try_clone(alloc)?),
            Op::List => Op::List,
        })
    }
}
