//! An Ask that waits for its answer.

ghost use Rattle.std.specs.Prelude.{◌≡◌, ◌==◌, position};
ghost use Rattle.std.specs.List.{list_any};
ghost use Rattle.inf_message.specs.History.{posted_ask, told_reply};
ghost use Rattle.inf_client.specs.AskLog.{is_at, made_at, trip_told};

use inf_base::{Place, Shared};
use inf_message::{Ask, Reply, Trip};
use std::marker::Model;

/// An Ask to the server of this number that waits.
#[derive(Drop)]
pub(crate) struct Waiting {
    number: u32,
    ask: Shared<Ask>,
    place: Place,
}

impl Model for Waiting {
    ghost use Rattle.inf_message.specs.History.{Made, made_ask};

    ghost Value = { Made };

    ghost view = { λ w. made_ask w.number w.ask w.place };
}

impl Waiting {
    pub(crate) fn at(place: Place, number: u32, ask: Shared<Ask>) -> Self
        ensures { result ≡ made_at place (posted_ask number ask) }
    {
        Waiting { number, ask, place }
    }

    fn is_at(&self, place: Place) -> bool
        ensures { result ≡ is_at place self.now }
    {
        self.place == place
    }

    pub(crate) fn answered(self, serve_place: Place, reply: Reply) -> Trip
        ensures { result ≡ trip_told self (told_reply serve_place reply) }
    {
        let Waiting { number, ask, place } = self;
        Trip {
            number,
            ask,
            ask_place: place,
            serve_place,
            reply,
        }
    }
}

/// Whether one of them stands at this place.
pub(crate) fn has_place(waiting: &[Waiting], place: Place) -> bool
    ensures { result ≡ list_any (is_at place) waiting.now }
{
    waiting.iter().any(|waiting| waiting.is_at(place))
}

pub(crate) fn index_of(waiting: &[Waiting], place: Place) -> Option<usize>
    ensures { result ≡ position (is_at place) waiting.now }
{
    waiting.iter().position(|waiting| waiting.is_at(place))
}
