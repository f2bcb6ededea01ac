//! A client of a run: it is told what to do next, and gives calls up where memory is wanting.
#![tactic(auto)]

mod ask_log;
mod client;
mod group;
#[cfg(test)]
mod log_tests;
#[cfg(test)]
mod tests;
mod waiting;

pub use client::Client;
