//! Identifiers of directories: the digest of the place and the version that a directory is born with.
#![tactic(auto)]

mod child;
mod identity;
mod rule;
#[cfg(test)]
mod tests;

pub use child::identity_of;
pub use identity::identify;
pub use rule::{IdRule, ShaRule};
