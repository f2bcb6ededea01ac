//! Laws of what an author, a client that asks or a server that serves, must know of a history to make its next event:
//! its own events; and of the answers to a client's Asks, those of the groups that are over.
#![tactic(auto)]

mod clients;
mod servers;
mod waiting;

pub use clients::{
    later_answers_change_no_ask, own_asks_decide_what_is_next, own_events_decide_what_is_next,
    what_is_known_lets_a_client_ask,
};
pub use servers::{own_serves_decide_what_is_served, what_is_known_lets_a_server_serve};
pub use waiting::{asks_are_served_once, own_serves_show_what_waits};
