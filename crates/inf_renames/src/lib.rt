//! The rename lists of a server: which versions of a name are taken by directories that moved away.
#![tactic(auto)]

mod examples;
mod kept_rows;
mod laws;
mod renames;
mod row;
#[cfg(test)]
mod tests;

pub use examples::{
    example_of_least_versions, example_of_others, example_of_removals, example_of_room,
    example_of_rows_added, example_of_rows_forgotten, example_of_versions,
};
pub use laws::{
    least_versions_are_free, least_versions_are_unique, lists_follow_one_list,
    room_is_for_one_parent, rows_are_added_to_one_parent, rows_are_forgotten_of_one_parent,
};
pub use renames::Renames;
