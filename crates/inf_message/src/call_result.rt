//! What a call came to.

ghost use Rattle.std.specs.Prelude.{◌≡◌, IfOk};

use inf_base::{Answer, CallRef, NoMemory, Place, TryClone};
use std::alloc::Global;

/// What a call came to, and what it took.
#[derive(Debug, PartialEq, Drop)]
pub struct CallResult {
    pub call: CallRef,
    pub answer: Answer,
    /// The place of the Serve that decided the answer.
    pub place: Option<Place>,
    /// The place of the call's first Ask.
    pub first: Option<Place>,
    /// The place of the call's last Serve, where the call has ended.
    pub last: Option<Place>,
    /// How often the call began: with its first Ask, and with an Ask after each reply that led to a new attempt.
    pub attempts: u64,
    /// How many rounds of lookups sent an Ask.
    pub rounds: u64,
    /// How many Asks were made.
    pub messages: u64,
}

impl TryClone for CallResult {
    fn try_clone(&self, alloc: Global) -> Result<Self, NoMemory> {
        Ok(CallResult {
            call: self.call,
            answer: self.answer.try_clone(alloc)?,
            place: self.place,
            first: self.first,
            last: self.last,
            attempts: self.attempts,
            rounds: self.rounds,
            messages: self.messages,
        })
    }
}
