//! Runs a script under an order.

ghost use Rattle.std.specs.Prelude.{◌≡◌, true, length, reverse, IfOk};
ghost use Rattle.std.specs.List.{list_all};
ghost use Rattle.inf_base.specs.Setup.{IsValid};
ghost use Rattle.inf_laws_history.specs.Legal.{Legal};
ghost use Rattle.inf_duty.specs.Outcome.{Outcome as IsOutcome};
ghost use Rattle.inf_laws_history.specs.Replayed.{decisions};
ghost use Rattle.inf_duty.specs.World.{world_of};
ghost use Rattle.inf_order.specs.Order.{is_move_of};
ghost use Rattle.inf_sched.specs.Order.{ByOrder};
ghost use Rattle.inf_tree.specs.Replay.{Replays};
ghost use Rattle.inf_tree.specs.Tree.{opening_tree};

use crate::moving::all;
use crate::run::Run;
use inf_base::{NoMemory, Setup, TryClone};
use inf_birth::ShaRule;
use inf_duty::Outcome;
use inf_laws_history::every_legal_history_replays;
use inf_order::Move;
use std::alloc::Global;

/// Runs the calls of a script under an order. It always returns.
pub fn schedule(alloc: Global, setup: &Setup, order: &[Move]) -> Result<Outcome, NoMemory>
    requires valid { IsValid setup.now }
    requires moves { list_all (is_move_of setup.now.servers (length setup.now.clients)) order.now ≡ true }
    ensures by_order { IfOk result (λ outcome. ByOrder (world_of setup.now) order.now
        (reverse outcome.history) outcome.results) }
    ensures legal { IfOk result (λ outcome. Legal (world_of setup.now) (reverse outcome.history)) }
    ensures outcome { IfOk result (λ outcome. IsOutcome (world_of setup.now)
        (reverse outcome.history) outcome.results) }
    ensures replays { IfOk result (λ outcome. Replays opening_tree
        (decisions (world_of setup.now) (reverse outcome.history) outcome.results)) }
{
    every_legal_history_replays();
    let rule = ShaRule {
        bytes: setup.digest_bytes,
    };
    let run = Run::new(alloc, setup.try_clone(alloc)?, rule)?;
    let run = all(run, order)?;
    let outcome = run.into_outcome()?;
    Ok(outcome)
}
