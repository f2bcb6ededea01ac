//! What gives bytes.
ghost use Rattle.std.specs.Prelude.{◌≡◌, ◌≤◌, ◌<◌, ℕ, List, None, length};
ghost use Rattle.std.specs.declared.option.Option.{Option};
ghost use Rattle.inf_io.specs.Faults.{Rose, Stays};
ghost use Rattle.inf_io.specs.Source.{OnFailedTake, TakesFrom, TakesWithin, UnlessFailedTake};

use crate::take::Take;

/// Gives bytes in pieces of its own choice, and counts its faults.
pub trait Source {
    /// The bytes that are left, where the source tells them.
    ghost left: { Self → Option (List ℕ) } = { λ _. None };

    /// How many faults there were, up to the greatest `u64`.
    ghost faults: { Self → ℕ };

    /// Moves some of the bytes left to the front of `buf`.
    fn take(&mut self, buf: &mut [u8]) -> Take
        requires { 0 < length buf.old }
        ensures count { TakesWithin (length buf.old) result }
        ensures bytes { TakesFrom (left self.old) (left self.new) result buf.new }
        ensures failed { OnFailedTake result (Rose (faults self.old) (faults self.new)) }
        ensures stays { UnlessFailedTake result (Stays (faults self.old) (faults self.new)) }
        ensures never_falls { faults self.old ≤ faults self.new };

    /// How many faults there were. The count stops at the greatest `u64`.
    fn faults(&self) -> u64
        ensures { result ≡ faults self.now };
}
