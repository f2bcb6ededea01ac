//! Permission checks: what a mode lets a caller do, by the class rule of POSIX, as a definition and as code.
#![tactic(auto)]

mod classes;
mod examples;
mod want;

pub use classes::may;
pub use examples::one_class_counts;
pub use want::Want;
