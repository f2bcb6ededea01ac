//! The metadata of files.

/// The metadata of a file; of a directory, with length 0, where a call answers it.
#[derive(Clone, Copy, Debug, PartialEq, Eq)]
pub struct FileMeta {
    pub mode: u16,
    pub owner: u32,
    pub group: u32,
    pub length: u64,
}
