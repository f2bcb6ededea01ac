//! What a call takes.

ghost use Rattle.std.specs.Prelude.{◌≡◌, ◌+◌, ◌<◌, ◌≤◌, ◌^◌};
ghost use Rattle.inf_duty.specs.ClientState.{no_counts};
ghost use Rattle.inf_duty.specs.Tally.{at_new_attempt, with_ask, with_serve, without_serves};

use inf_base::Place;
use std::marker::Model;

/// What the call under way took so far.
#[derive(Drop)]
pub struct Tally {
    first: Option<Place>,
    last: Option<Place>,
    attempts: u64,
    rounds: u64,
    messages: u64,
    is_begun: bool,
}

impl Model for Tally {
    ghost use Rattle.std.specs.Prelude.{◌≤◌};
    ghost use Rattle.inf_duty.specs.ClientState.{Counts};

    ghost Value = { Counts };

    ghost view = { λ t. record {
      first = t.first;
      last = t.last;
      attempts = t.attempts;
      rounds = t.rounds;
      messages = t.messages;
      is_begun = t.is_begun;
    } };

    // An attempt and a round are counted with a message each.
    ghost invariant = { λ t. (t.attempts ≤ t.messages) × (t.rounds ≤ t.messages) };
}

impl Tally {
    pub fn new() -> Self
        ensures { result ≡ no_counts }
    {
        Tally {
            first: None,
            last: None,
            attempts: 0,
            rounds: 0,
            messages: 0,
            is_begun: false,
        }
    }

    pub fn first(&self) -> Option<Place>
        ensures { result ≡ self.now.first }
    {
        self.first
    }

    pub fn last(&self) -> Option<Place>
        ensures { result ≡ self.now.last }
    {
        self.last
    }

    pub fn attempts(&self) -> u64
        ensures { result ≡ self.now.attempts }
    {
        self.attempts
    }

    pub fn rounds(&self) -> u64
        ensures { result ≡ self.now.rounds }
    {
        self.rounds
    }

    pub fn messages(&self) -> u64
        ensures { result ≡ self.now.messages }
    {
        self.messages
    }

    /// An Ask more, which may begin a round.
    pub fn count_ask(&mut self, place: Place, begins_round: bool)
        requires { self.old.messages + 1 < 2 ^ 64 }
        ensures { self.new ≡ with_ask place begins_round self.old }
    {
        if self.first.is_none() {
            self.first = Some(place);
        }
        if !self.is_begun {
            self.attempts += 1;
        }
        if begins_round {
            self.rounds += 1;
        }
        self.messages += 1;
        self.is_begun = true;
    }

    /// A Serve more, of which the latest is the last.
    pub fn count_serve(&mut self, place: Place)
        ensures { self.new ≡ with_serve place self.old }
    {
        let last = match self.last {
            None => place,
            Some(earlier) => { if earlier < place { place } else { earlier } }
        };
        self.last = Some(last);
    }

    /// Only a call that has ended has a last Serve.
    pub fn forget_serves(&mut self)
        ensures { self.new ≡ without_serves self.old }
    {
        self.last = None;
    }

    /// The attempt ended without an answer.
    pub fn begin_again(&mut self)
        ensures { self.new ≡ at_new_attempt self.old }
    {
        self.is_begun = false;
    }
}
