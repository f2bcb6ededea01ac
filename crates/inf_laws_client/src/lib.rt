//! Laws of clients whose calls go by flows: what they know is what they were told, and their flows follow their paths.
#![tactic(auto)]

mod examples;
mod laws;

pub use examples::{
    example_of_a_further_round, example_of_clashes, example_of_clean_ups, example_of_paths,
    example_of_removals_and_creations, example_of_rounds, example_of_wanting_memory,
    example_of_whole_lives,
};
pub use laws::{
    chains_are_told_along, clients_ask_their_groups, clients_keep_to_paths,
    clients_know_what_they_were_told, flows_follow_paths, what_is_sent_was_told,
};
