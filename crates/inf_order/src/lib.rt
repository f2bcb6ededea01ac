//! The moves of an order: what makes the events of a run, one after another.
#![tactic(auto)]

mod moves;

pub use moves::{MOST_MOVES, Move, Moves};
