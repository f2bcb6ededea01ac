//! Why a server refuses a request.

ghost use Rattle.std.specs.Prelude.{◌≡◌};

use inf_base::{CallRef, Errno, Place, Shared, Triple};
use inf_message::{Reply, Spot};

/// Why a check does not let a request through.
#[derive(Debug, Drop)]
pub enum Refusal {
    /// The request belongs to another server, or lacks what it needs.
    Other,
    /// The directory asked is no more.
    Gone,
    /// No directory of this identifier is there.
    NoDir,
    Denied(Errno),
    /// Another call's change is in the way, at this spot of the directory born then.
    Busy(CallRef, Spot, Place),
    /// The identifier is that of the directory of this triple.
    Clash(Shared<Triple>),
}

impl Refusal {
    ghost use Rattle.inf_server.specs.Refusal.{reply_of};

    pub fn reply(self) -> Reply
        ensures { result ≡ reply_of self }
    {
        match self {
            Refusal::Other => Reply::Other,
            Refusal::Gone => Reply::Gone,
            Refusal::NoDir => Reply::NoDir,
            Refusal::Denied(error) => Reply::Refused(error),
            Refusal::Busy(by, spot, born) => Reply::Busy { by, spot, born },
            Refusal::Clash(triple) => Reply::Clash(triple),
        }
    }
}
