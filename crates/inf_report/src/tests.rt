ghost use Rattle.std.specs.Prelude.{◌≡◌, ◌<◌, length, None, Some};

use crate::fault::ReportFault;
use crate::replies::push_reply;
use crate::report::write_report;
use crate::requests::push_request;
use inf_base::{
    Access, Answer, Call, CallRef, Caller, Calls, Chain, ClientLine, Clients, DirRef, Entry, Errno,
    FileMeta, Home, Id, Item, Items, Key, Kind, LookKey, Name, Place, Sequence, Setup, Shared,
    Text, Triple,
};
use inf_io::MemSink;
use inf_message::{Aim, Ask, CallResult, Event, Op, Reply, Request, Spot, What};
use std::alloc::Global;
use std::test::Fail;

const REPORT: &[u8] = b"infinifs report 1
servers 2
digest-bytes 32
cache 64
client a 7 8
client b 9 10
calls 3
2 b.1 stat /g = done first 2 last - attempts 1 rounds 2 messages 3 open
4 a.1 create /f 644 = done first 4 last 4 attempts 1 rounds 2 messages 3
- b.2 stat /h = done first - last - attempts 1 rounds 2 messages 3
events 4
1 ask b.1 s0 lookup top
2 serve s0 1 gone
3 ask a.1 c release
4 serve c 3 fine
end
";

fn client(alloc: Global, name: &[u8], caller: Caller, calls: Vec<Call>) -> Result<ClientLine, Fail>
    requires { (0 < length name.now) × (length name.now < 9) }
{
    Ok(ClientLine {
        name: Name::from_slice(alloc, name)?,
        caller,
        calls: Calls::new(alloc, Sequence::new(calls))?,
    })
}

fn stat(alloc: Global, path: &[u8]) -> Result<Call, Fail> {
    Ok(Call::Stat {
        path: Text::from_slice(alloc, path)?,
    })
}

fn create(alloc: Global, path: &[u8]) -> Result<Call, Fail> {
    Ok(Call::Create {
        path: Text::from_slice(alloc, path)?,
        mode: 0o644,
    })
}

fn client_a(alloc: Global) -> Result<ClientLine, Fail> {
    let mut calls = Vec::new(alloc);
    calls.push(create(alloc, b"/f")?)?;
    client(alloc, b"a", Caller { uid: 7, gid: 8 }, calls)
}

fn client_b(alloc: Global) -> Result<ClientLine, Fail> {
    let mut calls = Vec::new(alloc);
    calls.push(stat(alloc, b"/g")?)?;
    calls.push(stat(alloc, b"/h")?)?;
    client(alloc, b"b", Caller { uid: 9, gid: 10 }, calls)
}

fn setup(alloc: Global) -> Result<Setup, Fail> {
    let mut clients = Vec::new(alloc);
    clients.push(client_a(alloc)?)?;
    clients.push(client_b(alloc)?)?;
    Ok(Setup {
        servers: 2,
        digest_bytes: 32,
        cache: 64,
        clients: Clients::new(clients),
    })
}

fn asked(alloc: Global, number: u32, client: u32, request: Request) -> Result<Event, Fail> {
    let ask = Ask {
        from: CallRef { client, number: 1 },
        caller: Caller { uid: 7, gid: 8 },
        request,
    };
    Ok(Event::Ask {
        number,
        ask: Shared::new(alloc, ask)?,
    })
}

fn served(number: u32, ask_place: Place, reply: Reply) -> Event {
    Event::Serve {
        number,
        ask_place,
        reply,
    }
}

fn events(alloc: Global) -> Result<Vec<Event>, Fail> {
    let mut events = Vec::new(alloc);
    events.push(asked(alloc, 0, 1, Request::Lookup(LookKey::Top))?)?;
    events.push(served(0, 1, Reply::Gone))?;
    events.push(asked(alloc, 2, 0, Request::Release)?)?;
    events.push(served(2, 3, Reply::Fine))?;
    Ok(events)
}

fn outcome(call: CallRef, place: Option<Place>, last: Option<Place>) -> CallResult
    ensures { result.place ≡ place }
{
    CallResult {
        call,
        answer: Answer::Done,
        place,
        first: place,
        last,
        attempts: 1,
        rounds: 2,
        messages: 3,
    }
}

/// Writes the report of the two clients.
fn write(
    alloc: Global,
    sink: &mut MemSink,
    events: &[Event],
) -> Result<Result<(), ReportFault>, Fail>
    requires { length events.now ≡ 4 }
{
    let setup = setup(alloc)?;
    let results = [
        outcome(
            CallRef {
                client: 0,
                number: 1,
            },
            Some(4),
            Some(4),
        ),
        outcome(
            CallRef {
                client: 1,
                number: 1,
            },
            Some(2),
            None,
        ),
        outcome(
            CallRef {
                client: 1,
                number: 2,
            },
            None,
            None,
        ),
    ];
    Ok(write_report(alloc, sink, &setup, events, &results))
}

#[test]
fn a_report_has_each_line(rt: HostRuntime) -> Result<(), Fail> {
    let events = events(rt.alloc())?;
    assert_eq!(rt; events.len(), 4);
    let mut sink = MemSink::new(rt.alloc(), 7, 4096, Vec::new(rt.alloc()))?;
    let written = write(rt.alloc(), &mut sink, events.as_slice())?;
    assert!(rt; written.is_ok());
    assert_eq!(rt; sink.held(), REPORT);
    Ok(())
}

#[test]
fn a_sink_that_fails_has_a_front(rt: HostRuntime) -> Result<(), Fail> {
    let events = events(rt.alloc())?;
    assert_eq!(rt; events.len(), 4);
    let mut sink = MemSink::new(rt.alloc(), 10, 4096, [2].to_vec(rt.alloc())?)?;
    let written = write(rt.alloc(), &mut sink, events.as_slice())?;
    assert_eq!(rt; written, Err(ReportFault::Write));
    assert_eq!(rt; sink.held(), b"infinifs r".as_slice());
    Ok(())
}

const ID: Id = Id { bytes: [5; 32] };

const META: FileMeta = FileMeta {
    mode: 0o640,
    owner: 7,
    group: 8,
    length: 9,
};

fn dir(born: Place) -> DirRef {
    DirRef { id: ID, born }
}

fn name(alloc: Global) -> Result<Name, Fail> {
    Ok(Name::from_slice(alloc, b"name")?)
}

fn triple(alloc: Global) -> Result<Triple, Fail> {
    Ok(Triple::Of {
        parent: ID,
        name: name(alloc)?,
        version: 2,
    })
}

fn access(alloc: Global, birth: Triple) -> Result<Shared<Access>, Fail> {
    let access = Access {
        id: ID,
        born: 3,
        mode: 0o755,
        owner: 7,
        group: 8,
        birth,
    };
    Ok(Shared::new(alloc, access)?)
}

/// A chain of two entries with these stamps.
fn chain(alloc: Global, first: Place, second: Place) -> Result<Chain, Fail> {
    let mut entries = Vec::new(alloc);
    for stamp in [first, second] {
        entries.push(Entry {
            key: Shared::new(alloc, Key::Top)?,
            access: access(alloc, Triple::Root)?,
            stamp,
        })?;
    }
    Ok(Chain::new(alloc, Sequence::new(entries))?)
}

fn items(alloc: Global) -> Result<Items, Fail> {
    let mut items = Vec::new(alloc);
    for kind in [Kind::File, Kind::Dir] {
        items.push(Item {
            name: name(alloc)?,
            kind,
        })?;
    }
    Ok(Items::new(items))
}

/// Requests with chains.
fn chained(alloc: Global, kind: usize) -> Result<Request, Fail> {
    Ok(match kind {
        0 => Request::Finish {
            chain: chain(alloc, 2, 4)?,
            op: Op::Create(name(alloc)?, 0o640),
        },
        1 => Request::Link {
            chain: chain(alloc, 2, 4)?,
            name: name(alloc)?,
            dir: dir(3),
            mode: 0o755,
        },
        2 => Request::Hold {
            chain: chain(alloc, 2, 4)?,
            what: What::Mode(0o700),
        },
        3 => Request::Put {
            old: chain(alloc, 2, 4)?,
            new: chain(alloc, 6, 18)?,
            aim: Aim::Stop(name(alloc)?),
            meta: META,
        },
        4 => Request::Admit {
            dir: dir(3),
            old: Chain::new(alloc, Sequence::new(Vec::new(alloc)))?,
            new: chain(alloc, 6, 18)?,
        },
        _ => Request::Seal {
            chain: chain(alloc, 2, 4)?,
        },
    })
}

const CHAINED: [&[u8]; 6] = [
    b"finish 2,4 create name 640",
    b"link 2,4 name 0505050505050505050505050505050505050505050505050505050505050505#3 755",
    b"hold 2,4 mode 700",
    b"put 2,4 6,18 stop name 640 7 8 9",
    b"admit 0505050505050505050505050505050505050505050505050505050505050505#3 - 6,18",
    b"seal 2,4",
];

/// Requests without chains.
fn bare(alloc: Global, kind: usize) -> Result<Request, Fail> {
    Ok(match kind {
        0 => Request::Lookup(LookKey::At {
            dir: ID,
            name: name(alloc)?,
        }),
        1 => Request::Make {
            triple: Shared::new(alloc, triple(alloc)?)?,
        },
        2 => Request::Forget {
            parent: ID,
            dir: dir(18_446_744_073_709_551_615),
        },
        3 => Request::Unhold { home: Home::Top },
        4 => Request::Mark {
            key: Key::At {
                dir: dir(3),
                name: name(alloc)?,
            },
            hold: 10,
        },
        _ => Request::Quit,
    })
}

const BARE: [&[u8]; 6] = [
    b"lookup 0505050505050505050505050505050505050505050505050505050505050505 name",
    b"make 0505050505050505050505050505050505050505050505050505050505050505/name/2",
    b"forget 0505050505050505050505050505050505050505050505050505050505050505 0505050505050505050505050505050505050505050505050505050505050505#18446744073709551615",
    b"unhold top",
    b"mark 0505050505050505050505050505050505050505050505050505050505050505#3/name 10",
    b"quit",
];

fn reply(alloc: Global, kind: usize) -> Result<Reply, Fail> {
    Ok(match kind {
        0 => Reply::Found {
            key: Shared::new(alloc, Key::Top)?,
            access: access(alloc, triple(alloc)?)?,
        },
        1 => Reply::Absent { born: 0 },
        2 => Reply::Stale(1 << 127 | 1 << 64 | 5),
        3 => Reply::Busy {
            by: CallRef {
                client: 1,
                number: 2,
            },
            spot: Spot::Carried(3),
            born: 4,
        },
        4 => Reply::Listing(items(alloc)?),
        5 => Reply::Stat {
            kind: Kind::File,
            meta: META,
        },
        _ => Reply::Refused(Errno::ENOENT),
    })
}

const REPLIES: [&[u8]; 7] = [
    b"found top 0505050505050505050505050505050505050505050505050505050505050505#3 755 7 8 0505050505050505050505050505050505050505050505050505050505050505/name/2",
    b"absent 0",
    b"stale 0,2,64,127",
    b"busy b.2 carried 3 4",
    b"list 2 name name/",
    b"stat file 640 7 8 9",
    b"refused ENOENT",
];

fn request_text(alloc: Global, request: Request) -> Result<Vec<u8>, Fail> {
    text_of_request(alloc, &request)
}

fn text_of_request(alloc: Global, request: &Request) -> Result<Vec<u8>, Fail> {
    let mut out = Vec::new(alloc);
    push_request(&mut out, request)?;
    Ok(out)
}

fn text_of_reply(alloc: Global, reply: &Reply) -> Result<Vec<u8>, Fail> {
    let setup = setup(alloc)?;
    let mut out = Vec::new(alloc);
    push_reply(&mut out, setup.clients.as_slice(), reply)?;
    Ok(out)
}

fn reply_text(alloc: Global, kind: usize) -> Result<Vec<u8>, Fail> {
    let reply = reply(alloc, kind)?;
    text_of_reply(alloc, &reply)
}

#[test]
fn requests_have_their_texts(rt: HostRuntime) -> Result<(), Fail> {
    for kind in 0..6 {
        let text = request_text(rt.alloc(), chained(rt.alloc(), kind)?)?;
        assert_eq!(rt; text.as_slice(), CHAINED[kind]);
        let text = request_text(rt.alloc(), bare(rt.alloc(), kind)?)?;
        assert_eq!(rt; text.as_slice(), BARE[kind]);
    }
    Ok(())
}

#[test]
fn replies_have_their_texts(rt: HostRuntime) -> Result<(), Fail> {
    for kind in 0..7 {
        let text = reply_text(rt.alloc(), kind)?;
        assert_eq!(rt; text.as_slice(), REPLIES[kind]);
    }
    Ok(())
}
