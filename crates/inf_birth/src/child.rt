//! The identifiers of directories to come, without taking memory.

ghost use Rattle.std.specs.Prelude.{◌≡◌, ◌+◌, ◌≤◌, ◌++◌, length, take};
ghost use Rattle.inf_base.specs.Identity.{identity};
ghost use Rattle.inf_base.specs.declared.triple.Triple.TheVariants as triple;

use crate::rule::IdRule;
use inf_base::{Id, MOST_NAME_BYTES, Name};

/// Room for each message that an identifier is the digest of: a parent, a version and a name.
const ROOM: usize = 40 + MOST_NAME_BYTES;

/// Writes a part of a message behind so many bytes of it.
fn written(message: [u8; ROOM], before: usize, part: &[u8]) -> [u8; ROOM]
    requires { before + length part.now ≤ ROOM }
    ensures { take (before + length part.now) result ≡ take before message ++ part.now }
{
    let mut message = message;
    message[before..before + part.len()].copy_from_slice(part);
    message
}

/// The identifier of a directory that is born in this parent, under this name, with this version.
pub fn identity_of<R: IdRule>(rule: &R, parent: &Id, name: &Name, version: u64) -> Id
    ensures { result ≡ identity (R.digest_of rule.now) (triple.Of parent.now name.now version) }
{
    let name = name.as_slice();
    let message = written([0u8; ROOM], 0, &parent.bytes);
    let message = written(message, 32, &version.to_be_bytes());
    let message = written(message, 40, name);
    rule.digest(&message[..40 + name.len()])
}
