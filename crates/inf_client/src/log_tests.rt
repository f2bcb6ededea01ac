//! Groups of Asks, which are answered in another order than they were made.

ghost use Rattle.std.specs.Prelude.{◌≡◌, ◌+◌, ◌<◌, OnOk};
ghost use Rattle.inf_client.specs.AskLog.{IsLater};

use crate::ask_log::AskLog;
use inf_base::{CallRef, Caller, DirRef, Id, NoMemory, Place, Shared};
use inf_message::{Ask, Reply, Request, Trip};
use std::alloc::Global;
use std::test::Fail;

/// An ask to the server of this number, which no other one is equal to.
fn ask(number: u32) -> Ask {
    Ask {
        from: CallRef {
            client: 0,
            number: 1,
        },
        caller: Caller { uid: 7, gid: 8 },
        request: Request::Drop {
            dir: DirRef {
                id: Id { bytes: [5; 32] },
                born: Place::from(number),
            },
        },
    }
}

/// Makes an ask to the server of this number.
#[tactic(auto, using(crate::proofs::LogTestFacts::made_later, crate::proofs::LogTestFacts::made_one))]
fn make(log: &mut AskLog, alloc: Global, place: Place, number: u32) -> Result<(), NoMemory>
    requires room { 0 < log.old.room }
    requires later { IsLater place log.old.asks }
    ensures room { OnOk result (log.new.room + 1 ≡ log.old.room) }
    ensures later { OnOk result (IsLater (place + 1) log.new.asks) }
{
    log.asked(place, number, Shared::new(alloc, ask(number))?);
    Ok(())
}

/// Whether the Ask at this place waited, and waits no more now that it was answered.
fn tell(log: &mut AskLog, ask_place: Place, serve_place: Place) -> bool {
    if !log.waits_at(ask_place) {
        return false;
    }
    log.told(ask_place, serve_place, Reply::Reserved(serve_place));
    !log.waits_at(ask_place)
}

/// Whether this is the trip of the ask to the server of this number, and of the answer at this place.
fn is_trip(trip: &Trip, number: u32, ask_place: Place, serve_place: Place) -> bool {
    let is_asked =
        matches!(&trip.ask.request, Request::Drop { dir } if dir.born == Place::from(number));
    let is_answered = matches!(&trip.reply, Reply::Reserved(version) if *version == serve_place);
    let is_placed = trip.ask_place == ask_place && trip.serve_place == serve_place;
    trip.number == number && is_placed && is_asked && is_answered
}

fn are_trips(trips: &[Trip], wanted: &[(u32, Place, Place)]) -> bool {
    trips.len() == wanted.len()
        && trips
            .iter()
            .zip(wanted)
            .all(|(trip, want)| is_trip(trip, want.0, want.1, want.2))
}

/// The log of asks to the servers 5, 6 and 7, which stand at 1, 2 and 3.
#[tactic(auto, using(crate::proofs::LogTestFacts::none_later))]
fn three_asked(alloc: Global) -> Result<AskLog, NoMemory> {
    let mut log = AskLog::with_capacity(alloc, 2)?;
    log.reserve(3)?;
    make(&mut log, alloc, 1, 5)?;
    make(&mut log, alloc, 2, 6)?;
    make(&mut log, alloc, 3, 7)?;
    Ok(log)
}

#[test]
fn answers_come_in_any_order(rt: HostRuntime) -> Result<(), Fail> {
    let mut log = three_asked(rt.alloc())?;
    assert!(rt; log.trips().is_empty());
    for (ask_place, serve_place, trips) in [
        (2, 4, &[(6, 2, 4)][..]),
        (1, 5, &[(5, 1, 5), (6, 2, 4)][..]),
        (3, 6, &[(5, 1, 5), (6, 2, 4), (7, 3, 6)][..]),
    ] {
        assert!(rt;
            tell(&mut log, ask_place, serve_place),
            "the Ask at {ask_place}"
        );
        assert!(rt;
            are_trips(log.trips(), trips),
            "after the answer of {ask_place}"
        );
    }
    Ok(())
}
