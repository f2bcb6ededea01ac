//! The one place where events join the history: asks under the client's duty, serves by the server's machine.
#![tactic(auto)]

mod examples;
mod history;
#[cfg(test)]
mod history_tests;

pub use examples::{accepted, next_asks, outcomes, refusals, replies};
pub use history::Core;
