//! The limits of a script and of a path.

/// The greatest number of servers.
pub const MOST_SERVERS: u32 = 64;

/// The greatest number of clients of a script.
pub const MOST_CLIENTS: usize = 64;

/// The greatest number of calls of a script, all clients together.
pub const MOST_CALLS: usize = 20_000;

/// The greatest number of bytes that a digest keeps.
pub const MOST_DIGEST_BYTES: u8 = 32;

/// The greatest number of entries of a client's cache.
pub const MOST_CACHE: u32 = 4_096;

/// The greatest mode: all nine permission bits.
pub const MOST_MODE: u16 = 0o777;

/// The greatest number of names of a path.
pub const MOST_PATH_NAMES: usize = 32;

/// The greatest number of bytes of a name.
pub const MOST_NAME_BYTES: usize = 255;
