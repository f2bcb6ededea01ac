//! The types that every crate of the service shares, and the definitions that several of them cite.
#![tactic(auto)]

mod access;
mod answer;
mod call;
mod caller;
mod directory;
mod entry;
mod errno;
mod file;
mod id;
mod item;
mod key;
mod limits;
mod memory;
mod name;
mod sequence;
mod setup;
mod shared;
mod text;
mod triple;

pub use access::Access;
pub use answer::Answer;
pub use call::{Call, Calls};
pub use caller::{CallRef, Caller};
pub use directory::{DirRef, Home};
pub use entry::{Chain, Entry};
pub use errno::Errno;
pub use file::FileMeta;
pub use id::{Id, Place, server_of};
pub use item::{Item, Items, Kind};
pub use key::{Key, LookKey, LookKeys};
pub use limits::{
    MOST_CACHE, MOST_CALLS, MOST_CLIENTS, MOST_DIGEST_BYTES, MOST_MODE, MOST_NAME_BYTES,
    MOST_PATH_NAMES, MOST_SERVERS,
};
pub use memory::{NoMemory, TryClone};
pub use name::{Name, Names};
pub use sequence::Sequence;
pub use setup::{ClientLine, Clients, Setup};
pub use shared::Shared;
pub use text::Text;
pub use triple::Triple;
