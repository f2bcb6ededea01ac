//! The least free versions as rows are added and removed.

ghost use Rattle.std.specs.Prelude.{◌≡◌, OnOk};

use super::*;
use inf_base::{DirRef, Id, Name, NoMemory};
use std::test::Fail;

const ONE: Id = Id { bytes: [1; 32] };

const TWO: Id = Id { bytes: [2; 32] };

fn dir(born: u64) -> DirRef {
    DirRef {
        id: Id { bytes: [7; 32] },
        born,
    }
}

fn put(
    renames: &mut Renames,
    parent: &Id,
    name: Name,
    version: u64,
    born: u64,
) -> Result<(), NoMemory> {
    renames.reserve(parent)?;
    renames.add(parent, name, version, dir(born));
    Ok(())
}

#[test]
fn versions(rt: HostRuntime) -> Result<(), Fail> {
    let mut renames = Renames::new(rt.alloc());
    // the parent, the name, the least version of it, the version that is taken then, and the directory's birth
    let rows: [(&Id, &[u8; 1], u64, u64, u64); 8] = [
        (&ONE, b"a", 0, 0, 0),
        (&ONE, b"a", 1, 1, 1),
        (&ONE, b"a", 2, 4, 2),
        (&ONE, b"b", 0, 0, 3),
        (&TWO, b"a", 0, 2, 4),
        (&TWO, b"a", 0, 0, 5),
        (&TWO, b"a", 1, 1, 6),
        (&TWO, b"a", 3, 3, 7),
    ];
    for (parent, name, least, version, born) in rows {
        let name = Name::from_slice(rt.alloc(), name)?;
        assert_eq!(rt; renames.least_version(parent, &name), least);
        put(&mut renames, parent, name, version, born)?;
    }
    // what is removed, and the least version of `a` there then
    let rows: [(&Id, u64, u64); 6] = [
        (&ONE, 5, 2),
        (&ONE, 1, 1),
        (&ONE, 0, 0),
        (&TWO, 1, 4),
        (&TWO, 6, 1),
        (&TWO, 5, 0),
    ];
    let name = Name::from_slice(rt.alloc(), b"a")?;
    for (parent, born, least) in rows {
        renames.remove(parent, &dir(born));
        assert_eq!(rt; renames.least_version(parent, &name), least);
    }
    Ok(())
}
