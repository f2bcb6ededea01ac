//! One row of a rename list.

use inf_base::{DirRef, Name};

/// The directory was made under this name and version in the parent that keeps the row, and lives elsewhere.
#[derive(Debug, Drop)]
pub struct Row {
    pub name: Name,
    pub version: u64,
    pub dir: DirRef,
}
