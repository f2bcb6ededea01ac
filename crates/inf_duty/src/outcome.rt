//! What a run came to.

use inf_base::Sequence;
use inf_message::{CallResult, Events};

/// One result for each call, in the order of the script.
pub type Results = Sequence<CallResult>;

/// What a run came to: its history, and one result for each call in the order of the script.
#[derive(Debug, Drop)]
pub struct Outcome {
    pub history: Events,
    pub results: Results,
}
