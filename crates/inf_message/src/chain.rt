//! The last entry of a chain, and the way to it.

ghost use Rattle.std.specs.Prelude.{◌≡◌};
ghost use Rattle.inf_base.specs.Same.{dir_of as the_dir};
ghost use Rattle.inf_message.specs.Chain.{last_dir, way_to};

use inf_base::{Access, DirRef, Entry, Id};

/// The directory that an access object is of.
pub fn dir_of(access: &Access) -> DirRef
    ensures { result ≡ the_dir access.now }
{
    DirRef {
        id: access.id,
        born: access.born,
    }
}

/// The directory that a chain leads to.
pub fn last_dir(chain: &[Entry]) -> DirRef
    ensures { result ≡ last_dir chain.now }
{
    match chain.last() {
        Some(entry) => dir_of(&entry.access),
        None => NO_DIR,
    }
}

/// The chain but for its last entry.
pub fn way_to(chain: &[Entry]) -> &[Entry]
    ensures { result.now ≡ way_to chain.now }
{
    &chain[..chain.len().saturating_sub(1)]
}

/// What a chain without an entry leads to.
const NO_DIR: DirRef = DirRef {
    id: Id { bytes: [0; 32] },
    born: 0,
};
