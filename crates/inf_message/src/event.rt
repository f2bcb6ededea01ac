//! The events of a history.

ghost use Rattle.std.specs.Prelude.{◌≡◌, ◌↔◌, IfOk, IsTrue};

use crate::ask::Ask;
use crate::reply::Reply;
use inf_base::{NoMemory, Place, Sequence, Shared, TryClone};
use std::alloc::Global;

/// One atomic step: a client sends a request to a server, or a server answers the Ask at a place. The number is the
/// server's; the coordinator's is the number of servers.
#[derive(Debug, PartialEq, Drop)]
pub enum Event {
    Ask {
        number: u32,
        ask: Shared<Ask>,
    },
    Serve {
        number: u32,
        ask_place: Place,
        reply: Reply,
    },
}

/// The events of a history by place, the oldest first.
pub type Events = Sequence<Event>;

impl Event {
    /// Whether the two are equal: `==`, with a contract that says what it decides.
    #[tactic(auto, using(crate::proofs::HistoryDecides::event_decides))]
    pub fn is_same(&self, other: &Self) -> bool
        ensures { IsTrue result ↔ (self.now ≡ other.now) }
    {
        self == other
    }
}

impl TryClone for Event {
    fn try_clone(&self, alloc: Global) -> Result<Self, NoMemory> {
        Ok(match self {
            Event::Ask { number, ask } => Event::Ask {
                number: *number,
                ask: ask.try_clone(alloc)?,
            },
            Event::Serve {
                number,
                ask_place,
                reply,
            } => Event::Serve {
                number: *number,
                ask_place: *ask_place,
                reply: reply.try_clone(alloc)?,
            },
        })
    }
}

/// An equal event.
pub fn copy_event(alloc: Global, event: &Event) -> Result<Event, NoMemory>
    ensures { IfOk result (λ copy. copy ≡ event.now) }
{
    event.try_clone(alloc)
}
