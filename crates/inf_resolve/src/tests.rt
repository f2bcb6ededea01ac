//! Small attempts, from their first round on.

use super::*;
use inf_base::{
    Access, CallRef, DirRef, Id, Key, LookKey, Name, Names, NoMemory, Place, Shared, Triple,
};
use inf_birth::{ShaRule, identify};
use inf_message::{Reply, Spot};
use std::alloc::Global;
use std::test::Fail;

const RULE: ShaRule = ShaRule { bytes: 32 };

fn names(alloc: Global, letters: &[u8]) -> Result<Names, NoMemory> {
    let mut names = Vec::new(alloc);
    for letter in letters {
        names.push(Name::from_slice(alloc, &[*letter])?)?;
    }
    Ok(Names::new(names))
}

/// What a directory made under a name for the first time is called.
fn first_of(alloc: Global, parent: Id, letter: u8) -> Result<Id, NoMemory> {
    let name = Name::from_slice(alloc, &[letter])?;
    let version = 0;
    identify(
        alloc,
        &RULE,
        &Triple::Of {
            parent,
            name,
            version,
        },
    )
}

fn found(alloc: Global, key: Key, id: Id, born: Place) -> Result<Reply, NoMemory> {
    let access = Access {
        id,
        born,
        mode: 0o755,
        owner: 0,
        group: 0,
        birth: Triple::Root,
    };
    Ok(Reply::Found {
        key: Shared::new(alloc, key)?,
        access: Shared::new(alloc, access)?,
    })
}

fn told_root(alloc: Global, root: Id) -> Result<Known, NoMemory> {
    Ok(Known {
        key: LookKey::Top,
        reply: found(alloc, Key::Top, root, 0)?,
        place: 4,
    })
}

fn told(alloc: Global, dir: DirRef, letter: u8, id: Id, place: Place) -> Result<Known, NoMemory> {
    let name = Name::from_slice(alloc, &[letter])?;
    let reply = found(alloc, Key::At { dir, name }, id, 7)?;
    replied(alloc, dir.id, letter, reply, place)
}

fn replied(
    alloc: Global,
    dir: Id,
    letter: u8,
    reply: Reply,
    place: Place,
) -> Result<Known, NoMemory> {
    let name = Name::from_slice(alloc, &[letter])?;
    let key = LookKey::At { dir, name };
    Ok(Known { key, reply, place })
}

/// How many keys are asked; how long the old chain is, and how many names it leaves; where a change was in the way.
fn shape(resolved: &Resolved) -> (&'static str, usize, usize) {
    match resolved {
        Resolved::Asks(keys) => ("asks", keys.len(), 0),
        Resolved::Leads(old, _) => ("leads", old.chain.len(), old.left.len()),
        Resolved::IsBusy(_, place) => ("is busy", *place as usize, 0),
        Resolved::Lacks => ("lacks", 0, 0),
    }
}

#[test]
fn two_names(rt: HostRuntime) -> Result<(), Fail> {
    let alloc = rt.alloc();
    let root = identify(alloc, &RULE, &Triple::Root)?;
    let first = first_of(alloc, root, b'a')?;
    let resolver = Resolver::new(root, names(alloc, b"ab")?, names(alloc, b"")?);
    let looked = &resolver.looked;
    assert_eq!(rt; shape(&resolver.next(alloc, &RULE, &[])?), ("asks", 3, 0));
    assert_eq!(rt;
        shape(&looked.resolve(alloc, &RULE, &root, &[])?),
        ("asks", 3, 0)
    );
    let by = CallRef {
        client: 1,
        number: 1,
    };
    let spot = Spot::Slot;
    for (reply, expected) in [
        (Reply::NoDir, ("leads", 2, 1)),
        (Reply::Busy { by, spot, born: 7 }, ("is busy", 6, 0)),
        (Reply::Busy { by, spot, born: 3 }, ("leads", 2, 1)),
    ] {
        let dir = DirRef { id: root, born: 0 };
        let known = [
            told_root(alloc, root)?,
            told(alloc, dir, b'a', first, 5)?,
            replied(alloc, first, b'b', reply, 6)?,
        ];
        assert_eq!(rt; shape(&resolver.next(alloc, &RULE, &known)?), expected);
        assert_eq!(rt;
            looked.verdict(&known) == Verdict::GoesOn,
            expected.0 == "leads"
        );
    }
    Ok(())
}
