//! The report of a run: what it was set up with, each call with its answer, and each event, line by line.
#![tactic(auto)]

mod calls;
mod examples;
mod fault;
mod identifiers;
mod lines;
mod numbers;
mod pieces;
mod replies;
mod report;
mod requests;
mod slots;
#[cfg(test)]
mod tests;

pub use examples::{
    example_of_calls, example_of_lines, example_of_positions, example_of_the_empty_report,
};
pub use fault::ReportFault;
pub use report::write_report;
