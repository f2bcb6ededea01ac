//! The limit of one move.

/// The greatest number of events that a client's going on alone makes. Our own rule.
pub const MOST_EVENTS: u32 = 65_536;
