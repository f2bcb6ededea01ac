//! One server: its state, and how it replies.
#![tactic(auto)]

mod checks;
mod examples;
mod laws;
mod refusal;
mod server;
#[cfg(test)]
mod tests;
mod top;

pub use examples::{
    example_of_bearers, example_of_births, example_of_chains, example_of_files, example_of_holds,
    example_of_lookups, example_of_lookups_in_flight, example_of_other_servers,
    example_of_permissions, example_of_removals, example_of_removed_names, example_of_reservations,
    example_of_reserved_names, example_of_seals, example_of_states, example_of_strangers,
    example_of_unlinks, example_of_walks,
};
pub use laws::{coordinators_keep_nothing, others_are_turned_away, states_follow_serves};
pub use server::Server;
