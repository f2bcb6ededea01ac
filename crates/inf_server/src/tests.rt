//! Each reply of each request once, at the root's server of two and at the others, as requests and replies in few
//! words.

ghost use Rattle.std.specs.Prelude.{◌≡◌, ◌≤◌, true, length, IfOk};
ghost use Rattle.inf_server.specs.Chains.{HasShortChains};
ghost use Rattle.inf_server.specs.Machine.{is_built, is_built_op};

mod births;
mod files;
mod removals;

use super::*;
use inf_base::{
    Access, CallRef, Caller, Chain, Clients, DirRef, Entry, Errno, FileMeta, Id, Key, Kind,
    LookKey, Name, NoMemory, Sequence, Setup, Shared, Triple,
};
use inf_birth::ShaRule;
use inf_message::{Ask, Op, Reply, Request, Spot};
use std::alloc::Global;

const WHOLE: ShaRule = ShaRule { bytes: 32 };

/// SHA-256 of the empty message: of two servers number 0 keeps it, of three number 1.
const ROOT: Id = Id {
    bytes: [
        0xe3, 0xb0, 0xc4, 0x42, 0x98, 0xfc, 0x1c, 0x14, 0x9a, 0xfb, 0xf4, 0xc8, 0x99, 0x6f, 0xb9,
        0x24, 0x27, 0xae, 0x41, 0xe4, 0x64, 0x9b, 0x93, 0x4c, 0xa4, 0x95, 0x99, 0x1b, 0x78, 0x52,
        0xb8, 0x55,
    ],
};

/// SHA-256 of the 41 bytes for the name `a` of version 0 in the root: of two servers number 1 keeps it.
const A_IN_ROOT: Id = Id {
    bytes: [
        0x41, 0x0e, 0xc5, 0xe8, 0x46, 0x67, 0xf2, 0x69, 0x08, 0xf6, 0x06, 0xf9, 0x0a, 0xe0, 0x32,
        0xb1, 0xdc, 0x4a, 0x7c, 0xa3, 0x87, 0x64, 0x92, 0x4c, 0x85, 0x8e, 0x9a, 0x4b, 0x5b, 0x19,
        0x5f, 0xe9,
    ],
};

/// No directory has it; of two servers number 1 would keep it.
const ODD: Id = Id { bytes: [1; 32] };

/// A directory of the tests. Every Ask is made at place 5.
#[derive(Clone, Copy)]
enum Dir {
    Top,
    /// A root that is no more.
    Moved,
    A,
    /// Another directory of the identifier of `a`, born later.
    LaterA,
    Odd,
    /// The root, where identifiers have one byte.
    ShortTop,
}

/// What a chain tells: the root, which has this mode, and then maybe `a` in it, which lets nobody in.
#[derive(Clone, Copy)]
enum Way {
    Nowhere,
    Root(u16),
    ToMoved,
    InA(u16),
    InLaterA(u16),
    InMoved,
}

/// A request, each name with one letter.
#[derive(Clone, Copy)]
enum Step {
    LookTop,
    Look(Dir, u8),
    Create(Way, u8),
    Stat(Way, u8),
    Walk(Way, u8),
    Rmdir(Way, u8),
    Reserve(Way, u8),
    Make(Dir, u8, u64),
    /// The directory `a`, with mode 750.
    Link(Way),
    Cancel(Dir),
    Drop(Dir),
    Seal(Way),
    Unseal(Dir),
    Unlink(Way),
    /// The root's entry of this directory.
    Forget(Dir),
}

/// A reply that owns no memory.
#[derive(Clone, Copy)]
enum Want {
    Fine,
    Other,
    Gone,
    NoDir,
    Absent(u64),
    IsFile(u64),
    Reserved(u64),
    /// The client's call is in the way: in a slot of the root, in `a`, by its seal on `a`, or as the bearer of `a`.
    Slot(u32),
    Inside(u32),
    Sealed(u32),
    Bearer(u32),
    Denied(Errno),
    /// The file with mode 640, or the directory with mode 750, of this user.
    File(u32),
    Folder(u32),
    /// The access object of the root, and that of `a`, which user 7 made in it.
    FoundTop,
    FoundA,
    /// With `e` of version 1, where identifiers have one byte.
    ClashOfE,
}

/// The client, whose number is its user's too and who makes its first call, the request, and the reply.
type Row = (u32, Step, Want);

/// Which of the requests, counted from 0, is the first that the server of this number replies to otherwise.
fn first_wrong(
    alloc: Global,
    number: u32,
    servers: u32,
    rule: ShaRule,
    rows: &[Row],
) -> Result<Option<usize>, NoMemory>
    requires some_servers { 1 ≤ servers }
    requires numbered { number ≤ servers }
{
    let mut server = server(alloc, number, servers, rule)?;
    wrong_reply(alloc, &mut server, rows)
}

fn server(
    alloc: Global,
    number: u32,
    servers: u32,
    rule: ShaRule,
) -> Result<Server<ShaRule>, NoMemory>
    requires some_servers { 1 ≤ servers }
    requires numbered { number ≤ servers }
{
    let setup = Setup {
        servers,
        digest_bytes: 32,
        cache: 1,
        clients: Clients::new(Vec::new(alloc)),
    };
    Server::new(alloc, rule, number, &setup)
}

fn wrong_reply(
    alloc: Global,
    server: &mut Server<ShaRule>,
    rows: &[Row],
) -> Result<Option<usize>, NoMemory> {
    for (at, &(client, step, want)) in rows.iter().enumerate() {
        if serve(alloc, server, client, step)? != reply(alloc, want)? {
            return Ok(Some(at));
        }
    }
    Ok(None)
}

/// What is replied to the client's call, in group 10.
fn serve(
    alloc: Global,
    server: &mut Server<ShaRule>,
    client: u32,
    step: Step,
) -> Result<Reply, NoMemory> {
    let ask = Ask {
        from: first_call(client),
        caller: Caller {
            uid: client,
            gid: 10,
        },
        request: request(alloc, step)?,
    };
    Ok(server.serve(5, &ask))
}

fn first_call(client: u32) -> CallRef {
    CallRef { client, number: 1 }
}

fn dir_of(dir: Dir) -> DirRef {
    match dir {
        Dir::Top => DirRef { id: ROOT, born: 0 },
        Dir::Moved => DirRef { id: ROOT, born: 5 },
        Dir::A => DirRef {
            id: A_IN_ROOT,
            born: 5,
        },
        Dir::LaterA => DirRef {
            id: A_IN_ROOT,
            born: 6,
        },
        Dir::Odd => DirRef { id: ODD, born: 0 },
        Dir::ShortTop => DirRef {
            id: short(ROOT),
            born: 0,
        },
    }
}

/// The identifier with its first byte alone.
fn short(id: Id) -> Id {
    let mut bytes = [0; 32];
    bytes[0] = id.bytes[0];
    Id { bytes }
}

fn request(alloc: Global, step: Step) -> Result<Request, NoMemory>
    ensures built { IfOk result (λ asked. is_built asked ≡ true) }
    ensures short_chains { IfOk result (λ asked. HasShortChains asked) }
{
    Ok(match step {
        Step::LookTop => Request::Lookup(LookKey::Top),
        Step::Look(dir, letter) => look(dir_of(dir).id, name(alloc, letter)?),
        Step::Create(way, letter) => finish(alloc, way, Op::Create(name(alloc, letter)?, 0o640))?,
        Step::Stat(way, letter) => finish(alloc, way, Op::Stat(name(alloc, letter)?))?,
        Step::Walk(way, letter) => finish(alloc, way, Op::Walk(name(alloc, letter)?))?,
        Step::Rmdir(way, letter) => finish(alloc, way, Op::RmdirName(name(alloc, letter)?))?,
        Step::Reserve(way, letter) => Request::Reserve {
            chain: chain(alloc, way)?,
            name: name(alloc, letter)?,
        },
        Step::Make(parent, letter, version) => Request::Make {
            triple: Shared::new(alloc, birth(alloc, parent, letter, version)?)?,
        },
        Step::Link(way) => Request::Link {
            chain: chain(alloc, way)?,
            name: name(alloc, b'a')?,
            dir: dir_of(Dir::A),
            mode: 0o750,
        },
        Step::Cancel(dir) => Request::Cancel { dir: dir_of(dir) },
        Step::Drop(dir) => Request::Drop { dir: dir_of(dir) },
        Step::Seal(way) => Request::Seal {
            chain: chain(alloc, way)?,
        },
        Step::Unseal(dir) => Request::Unseal { dir: dir_of(dir) },
        Step::Unlink(way) => Request::Unlink {
            chain: chain(alloc, way)?,
        },
        Step::Forget(dir) => Request::Forget {
            parent: ROOT,
            dir: dir_of(dir),
        },
    })
}

fn name(alloc: Global, letter: u8) -> Result<Name, NoMemory> {
    Name::from_slice(alloc, &[letter])
}

fn birth(alloc: Global, parent: Dir, letter: u8, version: u64) -> Result<Triple, NoMemory> {
    Ok(Triple::Of {
        parent: dir_of(parent).id,
        name: name(alloc, letter)?,
        version,
    })
}

fn look(dir: Id, name: Name) -> Request
    ensures built { is_built result ≡ true }
    ensures short_chains { HasShortChains result }
{
    Request::Lookup(LookKey::At { dir, name })
}

fn finish(alloc: Global, way: Way, op: Op) -> Result<Request, NoMemory>
    requires built_op { is_built_op op ≡ true }
    ensures built { IfOk result (λ asked. is_built asked ≡ true) }
    ensures short_chains { IfOk result (λ asked. HasShortChains asked) }
{
    Ok(Request::Finish {
        chain: chain(alloc, way)?,
        op,
    })
}

fn chain(alloc: Global, way: Way) -> Result<Chain, NoMemory>
    ensures { IfOk result (λ chain. length chain ≤ 2) }
{
    let mut entries = Vec::new(alloc);
    let (first, second) = directories(way);
    if let Some((dir, mode)) = first {
        entries.push(entry(alloc, Key::Top, dir, mode)?)?;
    }
    if let Some(dir) = second {
        let key = Key::At {
            dir: dir_of(Dir::Top),
            name: name(alloc, b'a')?,
        };
        entries.push(entry(alloc, key, dir, 0)?)?;
    }
    Chain::new(alloc, Sequence::new(entries))
}

/// The root of a way with its mode, and what stands below.
fn directories(way: Way) -> (Option<(Dir, u16)>, Option<Dir>) {
    match way {
        Way::Nowhere => (None, None),
        Way::Root(mode) => (Some((Dir::Top, mode)), None),
        Way::ToMoved => (Some((Dir::Moved, 0o755)), None),
        Way::InA(mode) => (Some((Dir::Top, mode)), Some(Dir::A)),
        Way::InLaterA(mode) => (Some((Dir::Top, mode)), Some(Dir::LaterA)),
        Way::InMoved => (Some((Dir::Moved, 0o755)), Some(Dir::A)),
    }
}

/// User 0's directory of this mode, as it was told under the key.
fn entry(alloc: Global, key: Key, dir: Dir, mode: u16) -> Result<Entry, NoMemory> {
    let access = access(dir, mode, Triple::Root);
    Ok(Entry {
        key: Shared::new(alloc, key)?,
        access: Shared::new(alloc, access)?,
        stamp: 2,
    })
}

/// The access object of user 0's directory.
fn access(dir: Dir, mode: u16, birth: Triple) -> Access {
    let DirRef { id, born } = dir_of(dir);
    Access {
        id,
        born,
        mode,
        owner: 0,
        group: 0,
        birth,
    }
}

fn reply(alloc: Global, want: Want) -> Result<Reply, NoMemory> {
    Ok(match want {
        Want::Fine => Reply::Fine,
        Want::Other => Reply::Other,
        Want::Gone => Reply::Gone,
        Want::NoDir => Reply::NoDir,
        Want::Absent(born) => Reply::Absent { born },
        Want::IsFile(born) => Reply::IsFile { born },
        Want::Reserved(version) => Reply::Reserved(version),
        Want::Slot(client) => busy(client, Spot::Slot, 0),
        Want::Inside(client) => busy(client, Spot::Inside, 5),
        Want::Sealed(client) => busy(client, Spot::Sealed, 5),
        Want::Bearer(client) => busy(client, Spot::Bearer, 0),
        Want::Denied(error) => Reply::Refused(error),
        Want::File(user) => stat(Kind::File, 0o640, user),
        Want::Folder(user) => stat(Kind::Dir, 0o750, user),
        Want::FoundTop => found_root(alloc)?,
        Want::FoundA => found_a(alloc)?,
        Want::ClashOfE => clash_of_e(alloc)?,
    })
}

fn busy(client: u32, spot: Spot, born: u64) -> Reply {
    Reply::Busy {
        by: first_call(client),
        spot,
        born,
    }
}

fn stat(kind: Kind, mode: u16, owner: u32) -> Reply {
    Reply::Stat {
        kind,
        meta: FileMeta {
            mode,
            owner,
            group: 10,
            length: 0,
        },
    }
}

/// The root's access object, as its server tells it.
fn found_root(alloc: Global) -> Result<Reply, NoMemory> {
    found(alloc, Key::Top, access(Dir::Top, 0o755, Triple::Root))
}

/// The access object of `a`, which user 7 made in the root.
fn found_a(alloc: Global) -> Result<Reply, NoMemory> {
    let key = Key::At {
        dir: dir_of(Dir::Top),
        name: name(alloc, b'a')?,
    };
    let access = Access {
        owner: 7,
        group: 10,
        ..access(Dir::A, 0o750, birth(alloc, Dir::Top, b'a', 0)?)
    };
    found(alloc, key, access)
}

fn found(alloc: Global, key: Key, access: Access) -> Result<Reply, NoMemory> {
    Ok(Reply::Found {
        key: Shared::new(alloc, key)?,
        access: Shared::new(alloc, access)?,
    })
}

fn clash_of_e(alloc: Global) -> Result<Reply, NoMemory> {
    let kept = birth(alloc, Dir::ShortTop, b'e', 1)?;
    Ok(Reply::Clash(Shared::new(alloc, kept)?))
}
