//! The messages between clients and servers, the history that they make, what a call came to, and what the flows of all
//! calls share.
#![tactic(auto)]

mod aim;
mod ask;
mod call_result;
mod chain;
mod clean_up;
mod ending;
mod event;
mod examples;
mod laws;
mod lift;
mod op;
mod reply;
mod request;
mod sending;
mod step;
mod telling;
#[cfg(test)]
mod tests;
mod trip;
mod turn;
mod who;

pub use aim::{Aim, What};
pub use ask::Ask;
pub use call_result::CallResult;
pub use chain::{dir_of, last_dir, way_to};
pub use clean_up::{CleanUp, CleanUps};
pub use ending::Ending;
pub use event::{Event, Events, copy_event};
pub use examples::{
    example_of_a_server, example_of_asks, example_of_places, example_of_served, example_of_trips,
    example_of_waiting,
};
pub use laws::{
    asks_have_places, asks_wait_for_their_serves, clients_stand_apart, places_are_indexes,
    places_stay, servers_stand_apart, trips_are_shown,
};
pub use lift::Lift;
pub use op::Op;
pub use reply::{Reply, Spot};
pub use request::Request;
pub use sending::{Sending, are_told, deciding, has_place, is_one_wanting, take_first};
pub use step::Message;
pub use telling::Telling;
pub use trip::Trip;
pub use turn::{Turn, again, done, ends, failed};
pub use who::Who;
