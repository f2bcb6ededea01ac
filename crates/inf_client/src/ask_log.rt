//! What a client asked and was answered.

ghost use Rattle.std.specs.Prelude.{◌≡◌, ◌<◌, ◌≤◌, true, length, IfOk, OnOk, OnErr};
ghost use Rattle.std.specs.List.{AllWithin};
ghost use Rattle.inf_message.specs.History.{posted_ask, told_reply};
ghost use Rattle.inf_client.specs.AskLog.{IsLater, Rise, asked_log, no_asks, told_log, trip_places, trips_in, waits_at, with_room};

use crate::waiting::{Waiting, has_place, index_of};
use inf_base::{NoMemory, Place, Shared};
use inf_message::{Ask, Reply, Trip};
use std::alloc::Global;
use std::marker::Model;

/// The Asks of a client in the order of asking, and for how many more there is room.
#[derive(Drop)]
pub(crate) struct AskLog {
    trips: Vec<Trip>,
    waiting: Vec<Waiting>,
    room: usize,
}

impl Model for AskLog {
    ghost use Rattle.std.specs.Prelude.{vec_len, vec_capacity};
    ghost use Rattle.inf_client.specs.AskLog.{AskLog, IsKept, merged};

    ghost Value = { AskLog };

    ghost view = { λ l. record { asks = merged l.trips.items l.waiting.items; room = l.room } };

    // Room was taken before: to make an ask and to be answered takes no memory.
    ghost invariant = { λ l. IsKept l.trips.items l.waiting.items (vec_len l.trips) (vec_len l.waiting)
        l.room (vec_capacity l.trips) (vec_capacity l.waiting) };
}

impl AskLog {
    /// A log in which so many trips find room before it has to grow.
    pub(crate) fn with_capacity(alloc: Global, trips: usize) -> Result<Self, NoMemory>
        ensures { IfOk result (λ log. log ≡ no_asks) }
    {
        Ok(AskLog {
            trips: Vec::with_capacity(alloc, trips)?,
            waiting: Vec::new(alloc),
            room: 0,
        })
    }

    /// The Asks that were answered, each with its answer.
    pub(crate) fn trips(&self) -> &[Trip]
        ensures { result.now ≡ trips_in self.now }
    {
        self.trips.as_slice()
    }

    /// Takes room for this many asks, and for their answers. Room for more is let go.
    pub(crate) fn reserve(&mut self, count: usize) -> Result<(), NoMemory>
        ensures ok { OnOk result (self.new ≡ with_room count self.old) }
        ensures err { OnErr result (self.new ≡ self.old) }
    {
        self.waiting.reserve(count)?;
        self.trips.reserve(self.waiting.len() + count)?;
        self.room = count;
        Ok(())
    }

    /// This ask was made, and stands at this place.
    pub(crate) fn asked(&mut self, place: Place, number: u32, ask: Shared<Ask>)
        requires room { 0 < self.old.room }
        requires later { IsLater place self.old.asks }
        ensures { self.new ≡ asked_log place (posted_ask number ask) self.old }
    {
        self.waiting.push_reserved(Waiting::at(place, number, ask));
        self.room -= 1;
    }

    /// Whether the Ask at this place waits.
    pub(crate) fn waits_at(&self, place: Place) -> bool
        ensures { result ≡ waits_at place self.now.asks }
    {
        has_place(self.waiting.as_slice(), place)
    }

    /// The Ask at this place, which waits, was answered.
    pub(crate) fn told(&mut self, ask_place: Place, serve_place: Place, reply: Reply)
        requires waits { waits_at ask_place self.old.asks ≡ true }
        ensures { self.new ≡ told_log ask_place (told_reply serve_place reply) self.old }
    {
        let Some(index) = index_of(self.waiting.as_slice(), ask_place) else {
            unreachable!()
        };
        let trip = self.waiting.remove(index).answered(serve_place, reply);
        let at = index_for(self.trips.as_slice(), ask_place);
        // There is room, so this takes no memory.
        let Ok(()) = self.trips.insert(at, trip) else {
            unreachable!()
        };
    }
}

/// Where the trip of the Ask at this place is to stand. The last trips are passed, which are at most those of a group.
fn index_for(trips: &[Trip], place: Place) -> usize
    requires { Rise (trip_places trips.now) }
    ensures within { result ≤ length trips.now }
    ensures earlier { AllWithin (λ trip. trip.ask_place ≤ place) trips.now 0 result }
    ensures later { AllWithin (λ trip. place < trip.ask_place) trips.now result (length trips.now) }
{
    let mut index = trips.len();
    while index > 0 && place < trips[index - 1].ask_place {
        index -= 1;
    }
    index
}
