//! Asks as those know them that serve.

use inf_base::Place;

/// An Ask: its place, the server that it was made to, and the client that made it.
#[derive(Clone, Copy, Debug, PartialEq, Eq)]
pub struct Posting {
    pub place: Place,
    pub number: u32,
    pub client: u32,
}
