//! The content objects of a server: what it keeps of the directories that it serves.
#![tactic(auto)]

mod busy_names;
mod contents;
mod directory;
mod examples;
mod inside;
mod laws;
mod made;
mod named;
mod object;
mod seen;
mod slot;
mod slots;
#[cfg(test)]
mod tests;
mod wanted;

pub use contents::Contents;
pub use directory::Directory;
pub use examples::{
    example_of_busy_names, example_of_filling, example_of_holds, example_of_insides,
    example_of_looks, example_of_making, example_of_order, example_of_seals,
};
pub use inside::Inside;
pub use laws::calls_keep_the_order;
pub use made::Made;
pub use seen::Seen;
