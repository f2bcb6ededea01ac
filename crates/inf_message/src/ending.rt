//! How a call ends, or an attempt.

use inf_base::{Answer, Place};

/// How a call ends once its last messages were served, or an attempt.
#[derive(Debug, PartialEq, Drop)]
pub enum Ending {
    /// With the place of the Serve that decided it.
    Answers(Answer, Option<Place>),
    /// A new attempt follows.
    Retries,
}
