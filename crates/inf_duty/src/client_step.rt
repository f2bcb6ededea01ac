//! What a client is to do next.

use inf_message::Ask;

/// What a client is to do next.
#[derive(Debug, Drop)]
pub enum ClientStep {
    /// To the server of this number, this ask.
    Ask(u32, Ask),
    /// A message must be answered first.
    Waiting,
    /// Each call has ended.
    Finished,
}
