//! What becomes of an attempt that looks up paths.

use crate::walked::Walked;
use inf_base::{CallRef, LookKeys, Place};

/// What an attempt comes to by what it was told so far.
#[derive(Debug, Drop)]
pub enum Resolved {
    /// These keys are to be asked, all of them before an answer is waited for.
    Asks(LookKeys),
    /// How far the old path leads, and the new one. Of a call with one path the new one is the root alone.
    Leads(Walked, Walked),
    /// A change of that call is in the way, as the Serve at this place told.
    IsBusy(CallRef, Place),
    /// The root was not told: the attempt is to be made again.
    Lacks,
}

/// Whether an attempt is over.
#[derive(Debug, PartialEq, Drop)]
pub enum Verdict {
    /// A change of that call is in the way, as the Serve at this place told.
    IsBusy(CallRef, Place),
    /// The root was not told: the attempt is to be made again.
    Lacks,
    GoesOn,
}
