//! Laws of legal histories: whatever clients ask and servers reply, one plain tree answers the same.
#![tactic(auto)]

mod causes;
mod laws;
mod replies;
mod results;

pub use causes::{again_names_a_change_in_flight, clashes_are_of_two_births};
pub use laws::{
    every_legal_history_keeps, every_legal_history_replays, idle_clients_stay,
    messages_are_within_the_history, new_places_are_fresh, others_stay, outcomes_are_decided,
    own_asks_show_the_client, results_have_own_places,
};
pub use replies::links_are_never_replied_other;
pub use results::{answers_are_replayed, as_many_replay_as_were_decided};
