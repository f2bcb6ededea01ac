//! Who calls, and which call it is.

/// The user and the one group that a client calls with.
#[derive(Clone, Copy, Debug, PartialEq, Eq)]
pub struct Caller {
    pub uid: u32,
    pub gid: u32,
}

/// A call of the script: clients are numbered from 0 in the order of their lines, a client's calls from 1.
#[derive(Clone, Copy, Debug, PartialEq, Eq)]
pub struct CallRef {
    pub client: u32,
    pub number: u32,
}
