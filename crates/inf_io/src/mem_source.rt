//! A source in memory, for tests: it gives its bytes in pieces, and fails by plan.
ghost use Rattle.std.specs.Prelude.{◌≡◌, ◌≤◌, ◌<◌, ◌^◌, [], length, Some};
ghost use Rattle.inf_io.specs.Faults.{Rose, Stays};
ghost use Rattle.inf_io.specs.Source.{OnFailedTake, TakesFrom, TakesWithin, UnlessFailedTake};
ghost use Rattle.inf_io.specs.MemSource.{FillsFront, after_take, take_answer};

use crate::fault_plan::FaultPlan;
use crate::source::Source;
use crate::take::Take;
use std::marker::Model;

/// Bytes in memory that are given by pieces. The calls whose numbers, from 1, stand in its plan fail.
#[derive(Debug, Drop)]
pub struct MemSource {
    bytes: Vec<u8>,
    start: usize,
    piece: usize,
    plan: FaultPlan,
}

impl Model for MemSource {
    ghost use Rattle.std.specs.Prelude.{◌≡◌, ◌<◌, ◌≤◌, [], drop, vec_len};
    ghost use Rattle.inf_io.specs.MemSource.{MemSourceState};

    ghost Value = { MemSourceState };

    ghost view = { λ s. record {
      left = drop s.start s.bytes.items;
      piece = s.piece;
      fails = s.plan.fails.items;
      calls = s.plan.calls;
      faults = s.plan.faults;
    } };

    ghost invariant = { λ s. record {
      start : s.start ≤ vec_len s.bytes;
      piece : 0 < s.piece;
      no_plan : s.plan.fails.items ≡ [] → s.plan.faults ≡ 0;
    } };
}

impl MemSource {
    pub fn new(bytes: Vec<u8>, piece: usize, fails: Vec<u64>) -> Self
        requires { 0 < piece }
        ensures { result ≡ record {
          left = bytes.items;
          piece = piece;
          fails = fails.items;
          calls = 0;
          faults = 0;
        } }
    {
        MemSource {
            bytes,
            start: 0,
            piece,
            plan: FaultPlan::new(fails),
        }
    }
}

impl Source for MemSource {
    ghost left = { λ s. Some s.left };

    ghost faults = { λ s. s.faults };

    fn take(&mut self, buf: &mut [u8]) -> Take
        requires { 0 < length buf.old }
        ensures count { TakesWithin (length buf.old) result }
        ensures bytes { TakesFrom (Some self.old.left) (Some self.new.left) result buf.new }
        ensures failed { OnFailedTake result (Rose self.old.faults self.new.faults) }
        ensures stays { UnlessFailedTake result (Stays self.old.faults self.new.faults) }
        ensures never_falls { self.old.faults ≤ self.new.faults }

        // All that a take does.
        ensures answer { result ≡ take_answer self.old (length buf.old) }
        ensures after { self.new ≡ after_take self.old (length buf.old) }
        ensures front { FillsFront self.old.left result buf.old buf.new }

        // With no plan the count is 0 for good.
        ensures no_plan { self.old.fails ≡ [] → self.new.faults ≡ 0 }
    {
        let is_failure = self.plan.next_is_planned();
        self.plan.count(is_failure);
        if is_failure {
            return Take::Failed;
        }
        let n = self.piece.min(buf.len()).min(self.bytes.len() - self.start);
        if n == 0 {
            return Take::End;
        }
        let bytes = self.bytes.as_slice();
        buf[..n].copy_from_slice(&bytes[self.start..self.start + n]);
        self.start += n;
        Take::Taken(n)
    }

    fn faults(&self) -> u64
        ensures count { result ≡ self.now.faults }
        ensures no_plan { self.now.fails ≡ [] → result ≡ 0 }
    {
        self.plan.faults
    }
}
