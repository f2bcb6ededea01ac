//! What a client may send, and what its calls came to: its duty as a definition, and a client in code; the flows that
//! its calls go by.
#![tactic(auto)]

mod allow;
#[cfg(test)]
mod allow_tests;
mod calls_left;
mod client_state;
mod client_step;
mod course;
#[cfg(test)]
mod course_tests;
mod flow;
mod group;
mod learning;
mod outcome;
mod own;
mod recording;
mod standing;
mod tally;

pub use allow::{allowed, are_in_order};
pub use client_state::ClientState;
pub use client_step::ClientStep;
pub use flow::Flow;
pub use outcome::{Outcome, Results};
pub use own::OwnAsk;
