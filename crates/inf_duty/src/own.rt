//! What a client asked, and what it was answered.

use inf_base::Place;
use inf_message::{Ask, Reply};

/// An Ask of a client, to the server of this number, and its answer, if it was served: the place of the Serve, and
/// the reply.
#[derive(Debug, Drop)]
pub struct OwnAsk {
    pub number: u32,
    pub ask: Ask,
    pub ask_place: Place,
    pub told: Option<(Place, Reply)>,
}
