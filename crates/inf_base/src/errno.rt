//! Why a path call is refused.

/// The refusals of the path calls, by the names that POSIX gives them.
#[derive(Clone, Copy, Debug, PartialEq, Eq)]
pub enum Errno {
    ENOENT,
    ENOTDIR,
    EACCES,
    EEXIST,
    ENOTEMPTY,
    EINVAL,
    EPERM,
    EISDIR,
    EBUSY,
    ENAMETOOLONG,
}
