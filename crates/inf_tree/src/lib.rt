//! The plain tree of files and directories: what each path call answers and leaves, as definitions and as code.
#![tactic(auto)]

mod examples;
mod laws;
#[cfg(test)]
mod tests;
mod tree;

pub use examples::{
    a_file_moves, ends_of_walks, files_and_permissions, limits_of_paths, moves_and_listings,
    not_empty, order_of_refusals, the_root, what_replays,
};
pub use laws::{answers_replay, calls_keep_the_tree, one_name_changes};
pub use tree::Tree;
