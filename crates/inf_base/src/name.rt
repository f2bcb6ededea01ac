//! Names of files, directories and clients.

ghost use Rattle.std.specs.Prelude.{◌≡◌, ◌<◌, ◌≤◌, length, vec_len, IfOk};
ghost use Rattle.inf_base.specs.declared.limits.TheConstants.{MOST_NAME_BYTES};

use crate::limits::MOST_NAME_BYTES;
use crate::memory::{NoMemory, TryClone};
use crate::sequence::Sequence;
use std::alloc::Global;
use std::cmp::Ordering;
use std::hash::{Hash, Hasher};
use std::marker::Model;

/// The bytes of a name, from 1 to 255 of them. Which bytes may stand in it is said where names are read.
#[derive(Debug, Drop)]
pub struct Name {
    bytes: Vec<u8>,
}

/// The names of a path, in path order.
pub type Names = Sequence<Name>;

impl Model for Name {
    ghost use Rattle.std.specs.Prelude.{ℕ, List, ◌<◌, ◌≤◌, vec_len};
    ghost use Rattle.inf_base.specs.declared.limits.TheConstants.{MOST_NAME_BYTES};

    ghost Value = { List ℕ };

    ghost view = { λ n. n.bytes.items };

    ghost invariant = { λ n. (0 < vec_len n.bytes) × (vec_len n.bytes ≤ MOST_NAME_BYTES) };
}

impl Name {
    pub fn new(bytes: Vec<u8>) -> Self
        requires not_empty { 0 < vec_len bytes }
        requires fits { vec_len bytes ≤ MOST_NAME_BYTES }
        ensures { result ≡ bytes.items }
    {
        Name { bytes }
    }

    pub fn from_slice(alloc: Global, bytes: &[u8]) -> Result<Self, NoMemory>
        requires not_empty { 0 < length bytes.now }
        requires fits { length bytes.now ≤ MOST_NAME_BYTES }
        ensures { IfOk result (λ name. name ≡ bytes.now) }
    {
        Ok(Name::new(Vec::from_slice(alloc, bytes)?))
    }

    pub fn as_slice(&self) -> &[u8]
        ensures value { result.now ≡ self.now }
        ensures not_empty { 0 < length self.now }
        ensures fits { length self.now ≤ MOST_NAME_BYTES }
    {
        self.bytes.as_slice()
    }
}

impl PartialEq for Name {
    ghost use Rattle.std.specs.Str.{bytes_eq};
    ghost use Rattle.std.proofs.Common.{rules};
    ghost use Rattle.std.specs.Cmp.Rules.{comparing};

    ghost eq = { bytes_eq };

    ghost laws = { Prim.search (comparing, rules) };

    fn eq(&self, other: &Self) -> bool {
        self.bytes.as_slice() == other.bytes.as_slice()
    }
}

impl Eq for Name {
    ghost use Rattle.std.proofs.Common.{rules};
    ghost use Rattle.std.specs.Cmp.Rules.{comparing};

    ghost laws = { Prim.search (comparing, rules) };
}

impl Ord for Name {
    ghost use Rattle.std.specs.Cmp.Rules.{comparing};
    ghost use Rattle.std.specs.Ordering.{nat_cmp};
    ghost use Rattle.std.specs.Cmp.Lexicographic.{slice_cmp};
    ghost use Rattle.std.proofs.Common.{rules};

    ghost cmp = { slice_cmp nat_cmp };

    ghost total = { Prim.search (comparing, rules) };

    ghost matches_partial_cmp = { Prim.search (comparing, rules) };

    ghost matches_eq = { Prim.search (comparing, rules) };

    fn cmp(&self, other: &Self) -> Ordering {
        self.bytes.as_slice().cmp(other.bytes.as_slice())
    }
}

impl PartialOrd for Name {
    ghost use Rattle.std.specs.Cmp.{partial_order_from_own_ties};
    ghost use Rattle.std.specs.Cmp.Rules.{comparing};
    ghost use Rattle.std.specs.Ordering.{nat_cmp, as_partial_cmp};
    ghost use Rattle.std.specs.Cmp.Lexicographic.{slice_cmp};
    ghost use Rattle.std.proofs.Common.{rules};

    ghost partial_cmp = { as_partial_cmp (slice_cmp nat_cmp) };

    ghost laws = { partial_order_from_own_ties (Prim.search (comparing, rules)) (Prim.search (comparing, rules)) };

    fn partial_cmp(&self, other: &Self) -> Option<Ordering> {
        Some(self.cmp(other))
    }
}

impl Hash for Name {
    ghost use Rattle.std.specs.Hash as fed;
    ghost use Rattle.std.proofs.Common.{rules};
    ghost use Rattle.std.specs.Cmp.Rules.{hashing};

    ghost hash_input = { λ n. fed.slice fed.u8 n };

    ghost respects_eq = { Prim.search (hashing, rules) };

    fn hash<H: Hasher>(&self, state: &mut H) {
        self.bytes.as_slice().hash(state);
    }
}

impl TryClone for Name {
    fn try_clone(&self, alloc: Global) -> Result<Self, NoMemory> {
        Name::from_slice(alloc, self.as_slice())
    }
}
