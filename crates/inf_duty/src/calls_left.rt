//! The calls that a client has left.

ghost use Rattle.std.specs.Prelude.{◌≡◌, ◌<◌, ◌≤◌, ◌↔◌, [], length, slice_get, IsTrue};
ghost use Rattle.std.specs.Option.{option_copied};
ghost use Rattle.inf_base.specs.declared.limits.TheConstants.{MOST_CALLS};
ghost use Rattle.inf_duty.specs.ClientState.{rest_of};

use inf_base::{Call, Calls};
use std::marker::Model;

/// The calls that a client has left, of those that it shares with the setup. To contracts they are a list.
#[derive(Drop)]
pub struct CallsLeft {
    calls: Calls,
    /// How many of them, from the first on, have ended.
    passed: usize,
}

impl Model for CallsLeft {
    ghost use Rattle.std.specs.Prelude.{◌≤◌, List, drop, length};
    ghost use Rattle.inf_base.specs.declared.call.Call.{Call};
    ghost use Rattle.inf_base.specs.declared.limits.TheConstants.{MOST_CALLS};

    ghost Value = { List Call };

    ghost view = { λ l. drop l.passed l.calls };

    ghost invariant = { λ l. (l.passed ≤ length l.calls) × (length l.calls ≤ MOST_CALLS) };
}

impl CallsLeft {
    /// All of them.
    pub fn new(calls: Calls) -> Self
        requires { length calls ≤ MOST_CALLS }
        ensures { result ≡ calls }
    {
        CallsLeft { calls, passed: 0 }
    }

    pub fn len(&self) -> usize
        ensures { result ≡ length self.now }
    {
        self.calls.len() - self.passed
    }

    pub fn is_empty(&self) -> bool
        ensures { IsTrue result ↔ (self.now ≡ []) }
    {
        self.len() == 0
    }

    pub fn first(&self) -> Option<&Call>
        ensures { option_copied result ≡ slice_get self.now 0 }
    {
        self.calls.as_slice().get(self.passed)
    }

    /// The first has ended.
    #[tactic(auto, using(crate::proofs::LeftFacts::passed_more))]
    pub fn pass(&mut self)
        requires { 0 < length self.old }
        ensures { self.new ≡ rest_of self.old }
    {
        self.passed += 1;
    }
}
