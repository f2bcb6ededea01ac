//! A sink in memory, for tests: it takes bytes in pieces up to its room, and fails by plan.
ghost use Rattle.std.specs.Prelude.{◌≡◌, ◌≤◌, ◌<◌, ◌^◌, [], length, Some, IfOk};
ghost use Rattle.inf_io.specs.Faults.{Rose, Stays};
ghost use Rattle.inf_io.specs.Sink.{GivesTo, GivesWithin, OnFailedGive, UnlessFailedGive};
ghost use Rattle.inf_io.specs.MemSink.{after_put, put_answer};

use crate::fault_plan::FaultPlan;
use crate::give::Give;
use crate::sink::Sink;
use inf_base::NoMemory;
use std::alloc::Global;
use std::marker::Model;

/// Memory that takes bytes by pieces. The calls whose numbers, from 1, stand in its plan fail, and so
/// does each call once its room is full.
#[derive(Debug, Drop)]
pub struct MemSink {
    bytes: Vec<u8>,
    piece: usize,
    room: usize,
    plan: FaultPlan,
}

impl Model for MemSink {
    ghost use Rattle.std.specs.Prelude.{◌<◌, ◌≤◌, vec_len, vec_capacity};
    ghost use Rattle.inf_io.specs.MemSink.{MemSinkState};

    ghost Value = { MemSinkState };

    ghost view = { λ s. record {
      held = s.bytes.items;
      piece = s.piece;
      room = s.room;
      fails = s.plan.fails.items;
      calls = s.plan.calls;
      faults = s.plan.faults;
    } };

    ghost invariant = { λ s. (vec_len s.bytes ≤ s.room) × (s.room ≤ vec_capacity s.bytes) × (0 < s.piece) };
}

impl MemSink {
    /// Takes the memory for `room` bytes, so that no put takes any.
    pub fn new(alloc: Global, piece: usize, room: usize, fails: Vec<u64>) -> Result<Self, NoMemory>
        requires { 0 < piece }
        ensures { IfOk result (λ sink. sink ≡ record {
          held = [];
          piece = piece;
          room = room;
          fails = fails.items;
          calls = 0;
          faults = 0;
        }) }
    {
        Ok(MemSink {
            bytes: Vec::with_capacity(alloc, room)?,
            piece,
            room,
            plan: FaultPlan::new(fails),
        })
    }

    pub fn held(&self) -> &[u8]
        ensures { result.now ≡ self.now.held }
    {
        self.bytes.as_slice()
    }
}

impl Sink for MemSink {
    ghost held = { λ s. Some s.held };

    ghost faults = { λ s. s.faults };

    fn put(&mut self, bytes: &[u8]) -> Give
        requires { 0 < length bytes.now }
        ensures count { GivesWithin (length bytes.now) result }
        ensures bytes { GivesTo (Some self.old.held) (Some self.new.held) result bytes.now }
        ensures failed { OnFailedGive result (Rose self.old.faults self.new.faults) }
        ensures stays { UnlessFailedGive result (Stays self.old.faults self.new.faults) }
        ensures never_falls { self.old.faults ≤ self.new.faults }

        // All that a put does.
        ensures answer { result ≡ put_answer self.old (length bytes.now) }
        ensures after { self.new ≡ after_put self.old bytes.now }
    {
        let is_planned = self.plan.next_is_planned();
        let is_failure = is_planned || self.room <= self.bytes.len();
        self.plan.count(is_failure);
        if is_failure {
            return Give::Failed;
        }
        let n = self
            .piece
            .min(bytes.len())
            .min(self.room - self.bytes.len());
        self.bytes.extend_from_slice(&bytes[..n]).unwrap();
        Give::Gave(n)
    }

    fn faults(&self) -> u64 {
        self.plan.faults
    }
}
