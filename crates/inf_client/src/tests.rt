//! A round of lookups at two servers, by hand.

ghost use Rattle.std.specs.Prelude.{◌≡◌, ◌+◌, ◌<◌, ◌≤◌, false, IfOk};
ghost use Rattle.inf_base.specs.declared.limits.TheConstants.{MOST_CALLS};
ghost use Rattle.inf_base.specs.Setup.{call_count};
ghost use Rattle.inf_client.specs.AskLog.{IsLater};

use super::*;
use inf_base::{
    Answer, Call, Caller, Calls, ClientLine, Clients, Name, NoMemory, Place, Sequence, Setup,
    Shared, Text,
};
use inf_birth::ShaRule;
use inf_duty::ClientStep;
use inf_message::{CallResult, Reply, Request, Trip};
use std::alloc::Global;
use std::test::Fail;

const WHOLE: ShaRule = ShaRule { bytes: 32 };

/// Two servers, and a client that asks about `/a/b/c`: it looks up the root, `a` in it, and `b` in `a`. SHA-256 of the
/// empty message begins with the bytes e3 b0 c4 42 98 fc 1c 14, an even number, so server 0 keeps the root, and its 8
/// first bytes for `a` of version 0 in the root are 41 0e c5 e8 46 67 f2 69, so server 1 is asked about `a`.
fn setup(alloc: Global) -> Result<Setup, NoMemory>
    ensures servers { IfOk result (λ setup. setup.servers ≡ 2) }
    ensures calls { IfOk result (λ setup. call_count setup.clients ≤ MOST_CALLS) }
{
    let calls = vec![in alloc;
        Call::Stat {
            path: Text::from_slice(alloc, b"/a/b/c")?
        },
    ]?;
    let line = ClientLine {
        name: Name::from_slice(alloc, b"a")?,
        caller: Caller { uid: 0, gid: 0 },
        calls: Calls::new(alloc, Sequence::new(calls))?,
    };
    Ok(Setup {
        servers: 2,
        digest_bytes: 32,
        cache: 256,
        clients: Clients::new(vec![in alloc; line]?),
    })
}

/// The client before its first ask.
#[tactic(auto, using(crate::proofs::TestFacts::start_few, crate::proofs::TestFacts::start_later))]
fn open(alloc: Global) -> Result<Client, NoMemory>
    ensures quiet { IfOk result (λ client. client.handed ≡ false) }
    ensures later { IfOk result (λ client. IsLater 1 client.log.asks) }
    ensures few { IfOk result (λ client. client.state.counts.messages ≡ 0) }
{
    let setup = setup(alloc)?;
    Client::new(alloc, &WHOLE, &setup, 0)
}

/// The next ask is made, and stands at this place. Its server.
#[tactic(auto, using(crate::proofs::TestFacts::asks_few, crate::proofs::TestFacts::asks_later, crate::proofs::TestFacts::placed_few, crate::proofs::TestFacts::placed_later, crate::proofs::TestFacts::placed_quiet))]
fn make(client: &mut Client, alloc: Global, place: Place) -> Result<u32, NoMemory>
    requires quiet { client.old.handed ≡ false }
    requires later { IsLater place client.old.log.asks }
    requires few { client.old.state.counts.messages < place }
    requires early { place < 100 }
    ensures quiet { IfOk result (λ server. client.new.handed ≡ false) }
    ensures later { IfOk result (λ server. IsLater (place + 1) client.new.log.asks) }
    ensures few { IfOk result (λ server. client.new.state.counts.messages < place + 1) }
{
    let ClientStep::Ask(server, ask) = client.step(alloc, &WHOLE) else {
        return Err(NoMemory);
    };
    client.asked(place, server, Shared::new(alloc, ask)?);
    Ok(server)
}

/// Whether this is the trip of a lookup at the server of this number.
fn is_trip(trip: &Trip, number: u32, ask_place: Place, serve_place: Place) -> bool {
    let is_lookup = matches!(&trip.ask.request, Request::Lookup(_));
    let is_placed = trip.ask_place == ask_place && trip.serve_place == serve_place;
    trip.number == number && is_placed && is_lookup
}

fn are_trips(trips: &[Trip], wanted: &[(u32, Place, Place)]) -> bool {
    trips.len() == wanted.len()
        && trips
            .iter()
            .zip(wanted)
            .all(|(trip, want)| is_trip(trip, want.0, want.1, want.2))
}

/// Whether the lookups that are asked one after another, at 1, 2 and 3, go to the servers 0, 0 and 1.
fn asks_in_order(client: &mut Client, alloc: Global) -> Result<bool, NoMemory>
    requires quiet { client.old.handed ≡ false }
    requires later { IsLater 1 client.old.log.asks }
    requires few { client.old.state.counts.messages ≡ 0 }
    ensures { IfOk result (λ yes. client.new.handed ≡ false) }
{
    let first = make(client, alloc, 1)?;
    let second = make(client, alloc, 2)?;
    let third = make(client, alloc, 3)?;
    Ok(first == 0 && second == 0 && third == 1)
}

fn waits(client: &mut Client, alloc: Global) -> bool
    requires { client.old.handed ≡ false }
{
    match client.step(alloc, &WHOLE) {
        ClientStep::Waiting => true,
        _ => false,
    }
}

fn answer_all(client: &mut Client, alloc: Global) -> Result<(), NoMemory> {
    client.told(alloc, &WHOLE, 3, 4, Reply::Other)?;
    client.told(alloc, &WHOLE, 1, 5, Reply::Other)?;
    client.told(alloc, &WHOLE, 2, 6, Reply::Other)?;
    Ok(())
}

#[test]
fn a_round_is_answered_in_another_order(rt: HostRuntime) -> Result<(), Fail> {
    let mut client = open(rt.alloc())?;
    assert!(rt; asks_in_order(&mut client, rt.alloc())?);
    assert!(rt; waits(&mut client, rt.alloc()));
    answer_all(&mut client, rt.alloc())?;
    assert!(rt; are_trips(client.trips(), &[(0, 1, 5), (0, 2, 6), (1, 3, 4)]));
    Ok(())
}

/// Whether one call came to want of memory, and its last Serve is not told.
fn is_one_wanting(results: &[CallResult]) -> bool {
    results.len() == 1
        && results.iter().all(|ended| ended.answer == Answer::NoMemory && ended.last.is_none())
}

/// What one lookup was told decides the call, though the others of its round still wait.
#[test]
fn an_unfinished_round_wants_memory(rt: HostRuntime) -> Result<(), Fail> {
    let mut client = open(rt.alloc())?;
    assert!(rt; asks_in_order(&mut client, rt.alloc())?);
    client.told(rt.alloc(), &WHOLE, 1, 4, Reply::NoMem)?;
    let results = client.into_results();
    assert!(rt; is_one_wanting(results.as_slice()));
    Ok(())
}
