//! Identifiers of directories, their servers, and places in the history.

ghost use Rattle.std.specs.Prelude.{◌≡◌, ◌≤◌};
ghost use Rattle.inf_base.specs.Identity.{server_of as the_server};

/// An identifier of a directory: a digest of 32 bytes, of which the later ones may be zeros.
#[derive(Clone, Copy, Debug, PartialEq, Eq, PartialOrd, Ord, Hash)]
pub struct Id {
    pub bytes: [u8; 32],
}

/// The place of an event in the history, counted from 1. A directory born at 0 is the root.
pub type Place = u64;

/// The server, of so many beside the coordinator, that keeps the directory of this identifier.
pub fn server_of(id: &Id, servers: u32) -> u32
    requires { 1 ≤ servers }
    ensures { result ≡ the_server id.now servers }
{
    let [b0, b1, b2, b3, b4, b5, b6, b7, ..] = id.bytes;
    let number = u64::from_be_bytes([b0, b1, b2, b3, b4, b5, b6, b7]);
    (number % u64::from(servers)) as u32
}
