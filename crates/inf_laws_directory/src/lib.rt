//! Laws of directories: how the objects that servers keep stand for one plain tree, and what a request that is served
//! does to both.
#![tactic(auto)]

mod answers;
mod born;
mod owes;
mod phases;
mod replays;
mod served;
mod serves;
mod stands;
mod telling;

pub use answers::{
    creations_follow_chains, looks_follow_chains, paths_stop_at_chains, removals_follow_chains,
};
pub use born::{clean_ups_are_done, contents_are_born_at_an_ask};
pub use owes::what_is_served_stands;
pub use phases::{
    chains_are_true, creating_keeps, ending_keeps, linking_keeps, making_keeps, opening_is_owned,
    reserving_keeps, sealing_keeps, undoing_keeps, unlinking_keeps,
};
pub use replays::{
    births_replay, creates_replay, removals_of_no_directory_replay, removals_replay, stats_replay,
    walks_replay,
};
pub use served::{
    served_clean_ups_stand, served_creations_stand, served_links_stand, served_looks_stand,
    served_makes_stand, served_reservations_stand, served_seals_stand, served_unlinks_stand,
    the_opening_stands,
};
pub use serves::{
    creating_puts_a_file, dropping_leaves_others, linking_puts_a_directory, objects_stay_in_order,
    preparing_is_unseen, unlinking_takes_the_directory,
};
pub use stands::{
    opening_stands, unseen_changes_stand, walks_follow_chains, what_is_put_stands,
    what_is_taken_stands,
};
pub use telling::{
    lookups_answer_what_was_asked, lookups_tell_the_truth, permissions_are_asked_first,
    reservations_and_seals_ask_permission, the_root_is_kept, the_root_stays, what_is_told_is_true,
};
