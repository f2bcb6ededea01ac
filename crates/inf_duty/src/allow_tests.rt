//! Which asks of a short run are allowed.

ghost use Rattle.std.specs.Prelude.{◌≡◌, ◌≤◌, length, IfOk};
ghost use Rattle.inf_base.specs.Setup.{call_count};
ghost use Rattle.inf_base.specs.declared.limits.TheConstants.{MOST_CALLS};

use super::*;
use inf_base::{
    Access, Call, CallRef, Caller, Calls, Chain, ClientLine, Clients, Entry, Key, LookKey, Name,
    NoMemory, Place, Sequence, Setup, Shared, Text, Triple,
};
use inf_birth::{IdRule, ShaRule};
use inf_message::{Ask, Op, Reply, Request};
use std::alloc::Global;
use std::process::Abort;
use std::test::Fail;

const RULE: ShaRule = ShaRule { bytes: 32 };

const ROOT_USER: Caller = Caller { uid: 0, gid: 0 };

/// What the client is to ask for.
#[derive(Clone, Copy)]
enum Asked {
    /// The lookup of this call, for this user.
    LooksUp(u32, u32),
    /// The deciding message of this call, with the root's entry as it was told at this place.
    Finishes(u32, Place),
}

/// A client that makes a file and asks for it.
fn line(alloc: Global) -> Result<ClientLine, NoMemory>
    ensures { IfOk result (λ line. length line.calls ≡ 2) }
{
    let path = Text::from_slice(alloc, b"/f")?;
    let mut calls = Vec::new(alloc);
    calls.push(Call::Create { path, mode: 0o644 })?;
    let path = Text::from_slice(alloc, b"/f")?;
    calls.push(Call::Stat { path })?;
    Ok(ClientLine {
        name: Name::from_slice(alloc, b"a")?,
        caller: ROOT_USER,
        calls: Calls::new(alloc, Sequence::new(calls))?,
    })
}

/// Two servers, and the client. The digest of the empty message begins with the bytes e3 b0 c4 42 98 fc 1c 14, an even
/// number, so server 0 keeps the root.
fn setup(alloc: Global) -> Result<Setup, NoMemory>
    ensures servers { IfOk result (λ setup. setup.servers ≡ 2) }
    ensures calls { IfOk result (λ setup. call_count setup.clients ≤ MOST_CALLS) }
{
    let mut clients = Vec::new(alloc);
    clients.push(line(alloc)?)?;
    Ok(Setup {
        servers: 2,
        digest_bytes: 32,
        cache: 256,
        clients: Clients::new(clients),
    })
}

fn access() -> Access {
    Access {
        id: RULE.digest(&[]),
        born: 0,
        mode: 0o755,
        owner: 0,
        group: 0,
        birth: Triple::Root,
    }
}

fn ask(call: u32, uid: u32, request: Request) -> Ask {
    Ask {
        from: CallRef {
            client: 0,
            number: call,
        },
        caller: Caller { uid, gid: 0 },
        request,
    }
}

fn op(alloc: Global, call: u32) -> Result<Op, NoMemory> {
    let name = Name::from_slice(alloc, b"f")?;
    if call == 1 {
        Ok(Op::Create(name, 0o644))
    } else {
        Ok(Op::Stat(name))
    }
}

/// The root's entry as it was told at this place.
fn chain(alloc: Global, stamp: Place) -> Result<Chain, NoMemory> {
    let mut entries = Vec::new(alloc);
    entries.push(Entry {
        key: Shared::new(alloc, Key::Top)?,
        access: Shared::new(alloc, access())?,
        stamp,
    })?;
    Chain::new(alloc, Sequence::new(entries))
}

fn finish(alloc: Global, call: u32, stamp: Place) -> Result<Request, NoMemory> {
    Ok(Request::Finish {
        op: op(alloc, call)?,
        chain: chain(alloc, stamp)?,
    })
}

fn ask_of(alloc: Global, asked: Asked) -> Result<Ask, NoMemory> {
    match asked {
        Asked::LooksUp(call, uid) => Ok(ask(call, uid, Request::Lookup(LookKey::Top))),
        Asked::Finishes(call, stamp) => Ok(ask(call, 0, finish(alloc, call, stamp)?)),
    }
}

/// What server 0 was asked for at this place, and its answer, if it has come.
fn own(
    alloc: Global,
    asked: Asked,
    ask_place: Place,
    told: Option<(Place, Reply)>,
) -> Result<OwnAsk, NoMemory> {
    Ok(OwnAsk {
        number: 0,
        ask: ask_of(alloc, asked)?,
        ask_place,
        told,
    })
}

fn found(alloc: Global) -> Result<Reply, NoMemory> {
    Ok(Reply::Found {
        key: Shared::new(alloc, Key::Top)?,
        access: Shared::new(alloc, access())?,
    })
}

/// The file is made, and looked up again.
fn run(alloc: Global) -> Result<Vec<OwnAsk>, NoMemory> {
    let mut run = Vec::new(alloc);
    for (asked, ask_place, told) in [
        (Asked::LooksUp(1, 0), 1, (2, found(alloc)?)),
        (Asked::Finishes(1, 2), 3, (4, Reply::Fine)),
        (Asked::LooksUp(2, 0), 5, (6, found(alloc)?)),
    ] {
        run.push(own(alloc, asked, ask_place, Some(told))?)?;
    }
    Ok(run)
}

/// Whether the client may ask the server of this number, after so many Asks of its own.
fn may<R: AllocGlobal + Abort>(
    rt: &R,
    own: &[OwnAsk],
    made: usize,
    number: u32,
    asked: Asked,
) -> Result<bool, NoMemory> {
    let own = &own[..made.min(own.len())];
    assert!(rt; are_in_order(own));
    let setup = setup(rt.alloc())?;
    let ask = ask_of(rt.alloc(), asked)?;
    allowed(rt.alloc(), RULE, &setup, 0, own, number, &ask)
}

#[test]
fn a_run_is_allowed(rt: HostRuntime) -> Result<(), Fail> {
    let own = run(rt.alloc())?;
    for (made, asked) in [
        (0, Asked::LooksUp(1, 0)),
        (1, Asked::Finishes(1, 2)),
        (2, Asked::LooksUp(2, 0)),
        (3, Asked::Finishes(2, 6)),
    ] {
        assert!(rt; may(&rt, own.as_slice(), made, 0, asked)?);
    }
    Ok(())
}

#[test]
fn nothing_else_is(rt: HostRuntime) -> Result<(), Fail> {
    let own = run(rt.alloc())?;
    for (made, number, asked) in [
        // Before the lookup, to another server, and for another caller.
        (0, 0, Asked::Finishes(1, 2)),
        (0, 1, Asked::LooksUp(1, 0)),
        (0, 0, Asked::LooksUp(1, 1)),
        // With an entry that was never told, and once more.
        (1, 0, Asked::Finishes(1, 3)),
        (1, 0, Asked::LooksUp(1, 0)),
    ] {
        assert!(rt; !may(&rt, own.as_slice(), made, number, asked)?);
    }
    Ok(())
}

/// Where memory is wanting, a call may be given up between two groups, and not within one.
#[test]
fn a_call_is_given_up(rt: HostRuntime) -> Result<(), Fail> {
    let mut waiting = Vec::new(rt.alloc());
    waiting.push(own(rt.alloc(), Asked::LooksUp(1, 0), 1, None)?)?;
    for (made, asked, may_ask) in [
        (0, Asked::LooksUp(2, 0), true),
        (1, Asked::LooksUp(2, 0), false),
        (1, Asked::LooksUp(1, 0), false),
    ] {
        assert_eq!(rt; may(&rt, waiting.as_slice(), made, 0, asked)?, may_ask);
    }
    Ok(())
}
