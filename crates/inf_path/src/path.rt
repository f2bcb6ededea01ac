//! A path whose text was read.

use inf_base::Names;

/// The names of a path, from the root on; `/` has none.
#[derive(Debug, PartialEq, Drop)]
pub struct Path {
    pub names: Names,
}
