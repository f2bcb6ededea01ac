//! The limit of one move, as a number.

ghost use Rattle.std.specs.Prelude.{◌≡◌};
ghost use Rattle.inf_sched.specs.declared.limits.TheConstants.{MOST_EVENTS};

/// A client that goes on alone makes so many events at most.
pub fn limit_of_a_move()
    ensures { MOST_EVENTS ≡ 65536 }
{}
