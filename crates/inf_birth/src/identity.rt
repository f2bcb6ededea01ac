//! The identifiers of directories.

ghost use Rattle.std.specs.Prelude.{◌≡◌, IfOk};
ghost use Rattle.inf_base.specs.Identity.{identity};

use crate::rule::IdRule;
use inf_base::{Id, NoMemory, Triple};
use std::alloc::Global;

/// The identifier of the directory that is born so: the digest of the empty message for the root, else of the birth
/// parent's identifier, the version and the name.
pub fn identify<R: IdRule>(alloc: Global, rule: &R, triple: &Triple) -> Result<Id, NoMemory>
    ensures { IfOk result (λ id. id ≡ identity (R.digest_of rule.now) triple.now) }
{
    match triple {
        Triple::Root => Ok(rule.digest(&[])),
        Triple::Of {
            parent,
            name,
            version,
        } => {
            let name = name.as_slice();
            let mut message = Vec::with_capacity(alloc, 40 + name.len())?;
            message.extend_from_slice(&parent.bytes)?;
            message.extend_from_slice(&version.to_be_bytes())?;
            message.extend_from_slice(name)?;
            Ok(rule.digest(message.as_slice()))
        }
    }
}
