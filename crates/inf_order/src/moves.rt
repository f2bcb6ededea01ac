//! The moves of an order.

use inf_base::Sequence;

/// The greatest number of moves of an order.
pub const MOST_MOVES: usize = 1_000_000;

/// A move of an order. Clients are given by their numbers from 0 on in the order of their lines, servers by theirs; the
/// coordinator's number is that of the servers. A move that has no event to make is passed over. Our own rule.
#[derive(Clone, Copy, Debug, PartialEq, Eq)]
pub enum Move {
    /// `+a`: the client makes its next ask.
    Step(u32),
    /// `=a`: the client goes on alone until its call has ended.
    Alone(u32),
    /// `sN` and `c`: the server serves its oldest waiting ask; `sN:a` and `c:a`: its oldest one of that client.
    Serve { number: u32, client: Option<u32> },
    /// `*`: each client in turn goes on alone until it has no calls left.
    Rest,
}

/// The moves of an order, in their order.
pub type Moves = Sequence<Move>;
