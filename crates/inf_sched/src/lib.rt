//! Runs the calls of a script under an order of moves: clients ask, servers serve, and a history comes of it.
#![tactic(auto)]

mod ending;
mod examples;
mod laws;
mod limit_examples;
mod limits;
mod moving;
mod opening;
mod posting;
mod queue;
mod run;
mod scheduler;
mod serving;
mod stepping;

pub use examples::{ended_calls, lone_clients, rounds, single_moves, wanting, wanting_in_a_flow};
pub use inf_client::Client;
pub use inf_duty::{ClientStep, Outcome, Results};
pub use inf_order::{MOST_MOVES, Move, Moves};
pub use laws::{
    calls_left_open_are_unanswered, clients_keep_their_trips,
    every_order_is_made_without_want_of_memory, kept_asks_show_the_client,
    one_history_without_want_of_memory, one_outcome_without_want_of_memory,
    unanswered_calls_are_left, what_an_order_makes_is_an_outcome, what_an_order_makes_is_legal,
};
pub use limit_examples::limit_of_a_move;
pub use limits::MOST_EVENTS;
pub use posting::Posting;
pub use queue::Queue;
pub use scheduler::schedule;
