//! Whether a directory may go.

use inf_base::CallRef;

/// What stands in a directory: nothing, something that stays, or nothing but what calls hold or reserve.
#[derive(Clone, Copy, Debug, PartialEq, Eq)]
pub enum Inside {
    Empty,
    Full,
    Busy(CallRef),
}
