//! What an attempt asks next, or where its paths lead, for one call.

ghost use Rattle.std.specs.Prelude.{◌≡◌, IfOk};
ghost use Rattle.inf_resolve.specs.Resolved.{resolved};

use crate::known::Known;
use crate::looked::Looked;
use crate::resolved::Resolved;
use inf_base::{Id, Names, NoMemory};
use inf_birth::IdRule;
use std::alloc::Global;

/// The names that a call looks up, from the root of this identifier on.
#[derive(Debug, Drop)]
pub struct Resolver {
    pub root: Id,
    pub looked: Looked,
}

impl Resolver {
    /// Of the names of a call's old path, and of its new path if it has one.
    pub fn new(root: Id, old: Names, new: Names) -> Self
        ensures root { result.root ≡ root }
        ensures old { result.looked.old ≡ old }
        ensures new { result.looked.new ≡ new }
    {
        Resolver {
            root,
            looked: Looked { old, new },
        }
    }

    /// What becomes of an attempt by what it was told so far. Whether a reply says that memory is wanting, which ends
    /// the call, is looked at before.
    pub fn next<R: IdRule>(
        &self,
        alloc: Global,
        rule: &R,
        known: &[Known],
    ) -> Result<Resolved, NoMemory>
        ensures { IfOk result (λ r. r ≡ resolved (R.digest_of rule.now) self.now.root self.now.looked known.now) }
    {
        self.looked.resolve(alloc, rule, &self.root, known)
    }
}
