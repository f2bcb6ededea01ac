//! Each call once where it does its work, and at its other answers.

use super::*;
use inf_base::{
    Access, CallRef, DirRef, FileMeta, Id, Items, Kind, Name, NoMemory, Place, Shared, Triple,
};
use std::alloc::Global;
use std::test::Fail;

const LOW: Id = Id { bytes: [0; 32] };

const HIGH: Id = Id { bytes: [1; 32] };

const DIR: DirRef = DirRef { id: LOW, born: 3 };

const LATER: DirRef = DirRef { id: LOW, born: 4 };

const CALL: CallRef = CallRef {
    client: 0,
    number: 1,
};

const OTHER: CallRef = CallRef {
    client: 1,
    number: 1,
};

const META: FileMeta = FileMeta {
    mode: 0o640,
    owner: 7,
    group: 7,
    length: 0,
};

fn a(alloc: Global) -> Result<Name, NoMemory> {
    Name::from_slice(alloc, b"a")
}

fn b(alloc: Global) -> Result<Name, NoMemory> {
    Name::from_slice(alloc, b"b")
}

/// A directory that was made in `DIR` as `a`.
fn access(alloc: Global) -> Result<Access, NoMemory> {
    Ok(Access {
        id: HIGH,
        born: 5,
        mode: 0o755,
        owner: 7,
        group: 7,
        birth: Triple::Of {
            parent: LOW,
            name: a(alloc)?,
            version: 0,
        },
    })
}

/// What comes of making a directory of the root's triple.
fn is_new(contents: &mut Contents, alloc: Global, id: Id, born: Place) -> Result<bool, NoMemory> {
    let made = contents.make(id, Shared::new(alloc, Triple::Root)?, born, CALL)?;
    Ok(matches!(made, Made::New))
}

/// The contents with `DIR` alone.
fn with_dir(alloc: Global) -> Result<Contents, NoMemory> {
    let mut contents = Contents::new(alloc);
    is_new(&mut contents, alloc, LOW, 3)?;
    Ok(contents)
}

/// The contents with `DIR`, in which `a` is a file.
fn with_file(alloc: Global) -> Result<Contents, NoMemory> {
    let mut contents = with_dir(alloc)?;
    contents.put_file(&DIR, a(alloc)?, META)?;
    Ok(contents)
}

/// When the directory of this identifier was born.
fn born(contents: &Contents, id: &Id) -> Option<Place> {
    let directory = contents.directory_of_id(id)?;
    Some(directory.born())
}

/// What is seen of a name of the directory.
fn seen(contents: &Contents, dir: &DirRef, name: &Name) -> Seen {
    match contents.directory(dir) {
        None => Seen::Gone,
        Some(directory) => directory.look(name),
    }
}

/// Whether a directory stands under the name, of which a copy of the access object is given.
fn has_access(
    contents: &Contents,
    alloc: Global,
    dir: &DirRef,
    name: &Name,
) -> Result<bool, NoMemory> {
    match contents.directory(dir) {
        None => Ok(false),
        Some(directory) => Ok(directory.access_of(alloc, name)?.is_some()),
    }
}

/// The call of the first slot of `DIR` that is held or reserved.
fn busy(contents: &Contents) -> Option<CallRef> {
    let directory = contents.directory(&DIR)?;
    directory.busy()
}

/// What stands in `DIR`.
fn inside(contents: &Contents, by: CallRef) -> Option<Inside> {
    let directory = contents.directory(&DIR)?;
    Some(directory.inside(by))
}

/// The call that sealed `DIR`.
fn sealed(contents: &Contents) -> Option<CallRef> {
    let directory = contents.directory(&DIR)?;
    directory.sealed()
}

/// The names of `DIR` with their kinds.
fn listed(contents: &Contents, alloc: Global) -> Result<Items, NoMemory> {
    match contents.directory(&DIR) {
        None => Ok(Items::new(Vec::new(alloc))),
        Some(directory) => directory.list(alloc),
    }
}

#[test]
fn makes(rt: HostRuntime) -> Result<(), Fail> {
    let mut contents = with_dir(rt.alloc())?;
    assert!(rt; is_new(&mut contents, rt.alloc(), HIGH, 4)?);
    assert!(rt; !is_new(&mut contents, rt.alloc(), LOW, 9)?);
    assert_eq!(rt; born(&contents, &LOW), Some(3));
    Ok(())
}

/// Whether another triple is there, which is the root's.
fn is_root(made: &Made) -> bool {
    match made {
        Made::Clash(kept) => **kept == Triple::Root,
        _ => false,
    }
}

#[test]
fn makes_none_beside_another(rt: HostRuntime) -> Result<(), Fail> {
    let mut contents = with_dir(rt.alloc())?;
    contents.seal(&DIR, OTHER);
    let birth = Shared::new(rt.alloc(), access(rt.alloc())?.birth)?;
    let beside = contents.make(LOW, birth, 9, OTHER)?;
    assert!(rt; is_root(&beside));
    let again = contents.make(LOW, Shared::new(rt.alloc(), Triple::Root)?, 9, CALL)?;
    assert!(rt;
        matches!(
            again,
            Made::Bearer(CallRef {
                client: 1,
                number: 1
            })
        )
    );
    Ok(())
}

#[test]
fn looks(rt: HostRuntime) -> Result<(), Fail> {
    let mut contents = with_file(rt.alloc())?;
    let name = a(rt.alloc())?;
    assert_eq!(rt; seen(&contents, &LATER, &name), Seen::Gone);
    contents.set_file(&DIR, &name, FileMeta { length: 9, ..META });
    assert!(rt;
        matches!(
            seen(&contents, &DIR, &name),
            Seen::File {
                meta: FileMeta { length: 9, .. },
                held: None
            }
        )
    );
    contents.take_out(&DIR, &name);
    assert_eq!(rt; seen(&contents, &DIR, &name), Seen::Missing);
    Ok(())
}

#[test]
fn fills(rt: HostRuntime) -> Result<(), Fail> {
    let mut contents = with_dir(rt.alloc())?;
    let name = a(rt.alloc())?;
    contents.reserve(&DIR, a(rt.alloc())?, CALL, access(rt.alloc())?)?;
    assert_eq!(rt; seen(&contents, &DIR, &name), Seen::Reserved(CALL));
    assert_eq!(rt; contents.fill(&DIR, OTHER, None), None);
    assert_eq!(rt;
        contents.fill(&DIR, CALL, None),
        Some((DirRef { id: HIGH, born: 5 }, true))
    );
    assert!(rt; has_access(&contents, rt.alloc(), &DIR, &name)?);
    assert!(rt; !has_access(&contents, rt.alloc(), &LATER, &name)?);
    Ok(())
}

#[test]
fn holds(rt: HostRuntime) -> Result<(), Fail> {
    let mut contents = with_file(rt.alloc())?;
    let name = a(rt.alloc())?;
    contents.hold(&DIR, &name, CALL, Some(0o600));
    assert_eq!(rt; busy(&contents), Some(CALL));
    assert_eq!(rt; inside(&contents, OTHER), Some(Inside::Busy(CALL)));
    assert!(rt; contents.erase(&DIR, CALL).is_none());
    assert!(rt; contents.settle(&DIR, CALL));
    assert!(rt;
        matches!(
            seen(&contents, &DIR, &name),
            Seen::File {
                meta: FileMeta { mode: 0o600, .. },
                held: None
            }
        )
    );
    Ok(())
}

#[test]
fn erases(rt: HostRuntime) -> Result<(), Fail> {
    let mut contents = with_file(rt.alloc())?;
    contents.reserve(&DIR, b(rt.alloc())?, OTHER, access(rt.alloc())?)?;
    assert_eq!(rt; inside(&contents, CALL), Some(Inside::Full));
    contents.hold(&DIR, &a(rt.alloc())?, CALL, None);
    assert!(rt; contents.erase(&DIR, CALL).is_some());
    contents.lift(&DIR, OTHER);
    assert_eq!(rt; inside(&contents, CALL), Some(Inside::Empty));
    Ok(())
}

#[test]
fn drops(rt: HostRuntime) -> Result<(), Fail> {
    let mut contents = with_dir(rt.alloc())?;
    contents.seal(&DIR, CALL);
    contents.unseal(&DIR, OTHER);
    assert_eq!(rt; sealed(&contents), Some(CALL));
    contents.unseal(&DIR, CALL);
    contents.drop_dir(&DIR, OTHER);
    assert_eq!(rt; born(&contents, &LOW), Some(3));
    contents.drop_dir(&DIR, CALL);
    assert_eq!(rt; born(&contents, &LOW), None);
    Ok(())
}

#[test]
fn lists(rt: HostRuntime) -> Result<(), Fail> {
    let mut contents = with_file(rt.alloc())?;
    contents.reserve(&DIR, b(rt.alloc())?, CALL, access(rt.alloc())?)?;
    let items = listed(&contents, rt.alloc())?;
    assert_eq!(rt; items.len(), 1);
    for item in items.iter() {
        assert_eq!(rt; item.kind, Kind::File);
    }
    Ok(())
}

/// The name of the last two digits of a number.
fn digits(alloc: Global, number: u8) -> Result<Name, NoMemory> {
    Name::from_slice(alloc, &[b'0' + number / 10 % 10, b'0' + number % 10])
}

/// The contents with `DIR`, in which the even numbers below 80 are files.
fn with_many(alloc: Global) -> Result<Contents, NoMemory> {
    let mut contents = with_dir(alloc)?;
    for half in 0..40u8 {
        contents.put_file(&DIR, digits(alloc, 2 * half)?, META)?;
    }
    Ok(contents)
}

/// What the first slot is called that the other call may erase.
fn erased(contents: &mut Contents) -> Option<Name> {
    let (name, _) = contents.erase(&DIR, OTHER)?;
    Some(name)
}

#[test]
fn finds_among_many(rt: HostRuntime) -> Result<(), Fail> {
    let mut contents = with_many(rt.alloc())?;
    assert_eq!(rt; busy(&contents), None);
    contents.reserve(&DIR, digits(rt.alloc(), 33)?, CALL, access(rt.alloc())?)?;
    assert_eq!(rt; busy(&contents), Some(CALL));
    contents.hold(&DIR, &digits(rt.alloc(), 10)?, OTHER, Some(0o600));
    contents.hold(&DIR, &digits(rt.alloc(), 50)?, OTHER, None);
    assert_eq!(rt; busy(&contents), Some(OTHER));
    assert_eq!(rt;
        contents.fill(&DIR, CALL, None),
        Some((DirRef { id: HIGH, born: 5 }, false))
    );
    assert_eq!(rt; erased(&mut contents), Some(digits(rt.alloc(), 50)?));
    assert_eq!(rt; erased(&mut contents), None);
    assert!(rt; contents.settle(&DIR, OTHER));
    assert_eq!(rt; busy(&contents), None);
    assert_eq!(rt; listed(&contents, rt.alloc())?.len(), 40);
    Ok(())
}
