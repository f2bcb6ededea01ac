//! Which slots are sought for a call.

/// What a call is to have done with a slot: reserved it, held it, held it with no mode to come, or taken it at all.
#[derive(Clone, Copy, Debug, PartialEq, Eq)]
pub(crate) enum Wanted {
    Reserved,
    Held,
    Going,
    Taken,
}
