//! Path texts: the names of a path, or why its text is refused.
#![tactic(auto)]

mod fault;
mod parse;
mod path;
mod pieces;
#[cfg(test)]
mod tests;

pub use fault::PathFault;
pub use parse::{count_names, has_names, parse_path};
pub use path::Path;
