//! Where the paths of a call lead, by what an attempt at the call was told: what it asks next, or the chains of its
//! directories.
#![tactic(auto)]

mod examples;
mod keys;
mod known;
mod laws;
mod looked;
mod resolved;
mod resolver;
#[cfg(test)]
mod tests;
mod walked;

pub use known::Known;
pub use looked::Looked;
pub use resolved::{Resolved, Verdict};
pub use resolver::Resolver;
pub use walked::Walked;
