//! Copies of every kind of event, and requests that nearly are the same.

use super::*;
use inf_base::{
    Access, CallRef, Caller, Chain, DirRef, Entry, Errno, FileMeta, Home, Id, Item, Items, Key,
    Kind, LookKey, Name, NoMemory, Place, Sequence, Shared, Triple, TryClone,
};
use std::alloc::Global;
use std::test::Fail;

const ID: Id = Id { bytes: [5; 32] };

const META: FileMeta = FileMeta {
    mode: 0o644,
    owner: 7,
    group: 8,
    length: 9,
};

fn dir(born: Place) -> DirRef {
    DirRef { id: ID, born }
}

fn name(alloc: Global) -> Result<Name, NoMemory> {
    Name::from_slice(alloc, b"name")
}

fn triple(alloc: Global, version: u64) -> Result<Triple, NoMemory> {
    Ok(Triple::Of {
        parent: ID,
        name: name(alloc)?,
        version,
    })
}

fn birth(alloc: Global, version: u64) -> Result<Shared<Triple>, NoMemory> {
    Shared::new(alloc, triple(alloc, version)?)
}

fn access(alloc: Global) -> Result<Access, NoMemory> {
    Ok(Access {
        id: ID,
        born: 3,
        mode: 0o755,
        owner: 7,
        group: 8,
        birth: triple(alloc, 2)?,
    })
}

/// A chain of one entry with this stamp.
fn chain(alloc: Global, stamp: Place) -> Result<Chain, NoMemory> {
    let mut entries = Vec::new(alloc);
    entries.push(Entry {
        key: Shared::new(alloc, Key::Top)?,
        access: Shared::new(alloc, access(alloc)?)?,
        stamp,
    })?;
    Chain::new(alloc, Sequence::new(entries))
}

fn items(alloc: Global) -> Result<Items, NoMemory> {
    let mut items = Vec::new(alloc);
    items.push(Item {
        name: name(alloc)?,
        kind: Kind::Dir,
    })?;
    Ok(Items::new(items))
}

/// A request of each kind with a chain.
fn chained(alloc: Global, kind: u8) -> Result<Request, NoMemory> {
    Ok(match kind {
        0 => Request::Reserve {
            chain: chain(alloc, 2)?,
            name: name(alloc)?,
        },
        1 => Request::Link {
            chain: chain(alloc, 2)?,
            name: name(alloc)?,
            dir: dir(3),
            mode: 0o755,
        },
        2 => Request::Seal {
            chain: chain(alloc, 2)?,
        },
        3 => Request::Unlink {
            chain: chain(alloc, 2)?,
        },
        4 => Request::Hold {
            chain: chain(alloc, 2)?,
            what: What::Mode(0o700),
        },
        5 => Request::Prepare {
            old: chain(alloc, 2)?,
            new: chain(alloc, 4)?,
            aim: Aim::Stop(name(alloc)?),
        },
        6 => Request::Put {
            old: chain(alloc, 2)?,
            new: chain(alloc, 4)?,
            aim: Aim::At(name(alloc)?),
            meta: META,
        },
        7 => Request::Admit {
            dir: dir(3),
            old: chain(alloc, 2)?,
            new: chain(alloc, 4)?,
        },
        _ => Request::Finish {
            chain: chain(alloc, 2)?,
            op: Op::Create(name(alloc)?, 0o640),
        },
    })
}

/// A request of each kind without a chain.
fn bare(alloc: Global, kind: u8) -> Result<Request, NoMemory> {
    Ok(match kind {
        0 => Request::Lookup(LookKey::At {
            dir: ID,
            name: name(alloc)?,
        }),
        1 => Request::Make {
            triple: birth(alloc, 1)?,
        },
        2 => Request::Cancel { dir: dir(3) },
        3 => Request::Drop { dir: dir(3) },
        4 => Request::Unseal { dir: dir(3) },
        5 => Request::Forget {
            parent: ID,
            dir: dir(3),
        },
        6 => Request::Unhold { home: Home::Top },
        7 => Request::Commit {
            home: Home::In(dir(3)),
        },
        8 => Request::Erase { dir: dir(3) },
        9 => Request::Mark {
            key: Key::At {
                dir: dir(3),
                name: name(alloc)?,
            },
            hold: 12,
        },
        10 => Request::Release,
        11 => Request::Unmark,
        _ => Request::Quit,
    })
}

/// A reply of each kind.
fn reply(alloc: Global, kind: u8) -> Result<Reply, NoMemory> {
    Ok(match kind {
        0 => Reply::Found {
            key: Shared::new(alloc, Key::Top)?,
            access: Shared::new(alloc, access(alloc)?)?,
        },
        1 => Reply::Absent { born: 3 },
        2 => Reply::IsFile { born: 3 },
        3 => Reply::NoDir,
        4 => Reply::Gone,
        5 => Reply::Stale(1 << 100),
        6 => Reply::Busy {
            by: CallRef {
                client: 1,
                number: 2,
            },
            spot: Spot::Carried(3),
            born: 4,
        },
        7 => Reply::Other,
        8 => Reply::NoMem,
        9 => Reply::Reserved(2),
        10 => Reply::Held(META),
        11 => Reply::Clash(birth(alloc, 2)?),
        12 => Reply::Fine,
        13 => Reply::Refused(Errno::ENOENT),
        14 => Reply::Stat {
            kind: Kind::File,
            meta: META,
        },
        _ => Reply::Listing(items(alloc)?),
    })
}

fn asked(alloc: Global, request: Request) -> Result<Event, NoMemory> {
    let from = CallRef {
        client: 1,
        number: 2,
    };
    let caller = Caller { uid: 7, gid: 8 };
    let ask = Ask {
        from,
        caller,
        request,
    };
    Ok(Event::Ask {
        number: 3,
        ask: Shared::new(alloc, ask)?,
    })
}

fn served(reply: Reply) -> Event {
    Event::Serve {
        number: 3,
        ask_place: 9,
        reply,
    }
}

/// Whether the event has an equal copy.
fn copies(alloc: Global, event: Event) -> Result<bool, NoMemory> {
    equals_copy(alloc, &event)
}

fn equals_copy(alloc: Global, event: &Event) -> Result<bool, NoMemory> {
    let copy = copy_event(alloc, event)?;
    Ok(copy == *event)
}

#[test]
fn copies_asks_with_chains(rt: HostRuntime) -> Result<(), Fail> {
    for kind in 0..9 {
        let event = asked(rt.alloc(), chained(rt.alloc(), kind)?)?;
        assert!(rt; copies(rt.alloc(), event)?, "request {kind}");
    }
    Ok(())
}

#[test]
fn copies_asks_without_chains(rt: HostRuntime) -> Result<(), Fail> {
    for kind in 0..13 {
        let event = asked(rt.alloc(), bare(rt.alloc(), kind)?)?;
        assert!(rt; copies(rt.alloc(), event)?, "request {kind}");
    }
    Ok(())
}

#[test]
fn copies_serves(rt: HostRuntime) -> Result<(), Fail> {
    for kind in 0..16 {
        let event = served(reply(rt.alloc(), kind)?);
        assert!(rt; copies(rt.alloc(), event)?, "reply {kind}");
    }
    Ok(())
}

/// A request with this number in one of its fields.
fn numbered(alloc: Global, kind: u8, number: u64) -> Result<Request, NoMemory> {
    Ok(match kind {
        0 => Request::Drop { dir: dir(number) },
        1 => Request::Seal {
            chain: chain(alloc, number)?,
        },
        2 => Request::Make {
            triple: birth(alloc, number)?,
        },
        _ => Request::Admit {
            dir: dir(3),
            old: chain(alloc, 2)?,
            new: chain(alloc, number)?,
        },
    })
}

/// Whether the request with 2 in that field is the one with this number.
fn is_same_at(alloc: Global, kind: u8, number: u64) -> Result<bool, NoMemory> {
    let request = numbered(alloc, kind, 2)?;
    is_numbered(alloc, &request, kind, number)
}

fn is_numbered(alloc: Global, request: &Request, kind: u8, number: u64) -> Result<bool, NoMemory> {
    let other = numbered(alloc, kind, number)?;
    Ok(request.is_same(&other))
}

#[test]
fn tells_near_misses_apart(rt: HostRuntime) -> Result<(), Fail> {
    for kind in 0..4 {
        assert!(rt; is_same_at(rt.alloc(), kind, 2)?, "kind {kind}");
        assert!(rt; !is_same_at(rt.alloc(), kind, 3)?, "kind {kind}");
    }
    Ok(())
}
