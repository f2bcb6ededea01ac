//! The clients and queues of a run before anything has happened.

ghost use Rattle.std.specs.Prelude.{◌≤◌, length, IfOk};
ghost use Rattle.inf_base.specs.declared.limits.TheConstants.{MOST_CALLS, MOST_CLIENTS};
ghost use Rattle.inf_base.specs.Setup.{call_count};
ghost use Rattle.inf_duty.specs.World.{world_by};
ghost use Rattle.inf_sched.specs.Run.{AreEmpty, AreOpening};

use crate::queue::Queue;
use inf_base::{NoMemory, Setup};
use inf_birth::IdRule;
use inf_client::Client;
use std::alloc::Global;

#[tactic(auto, using(crate::proofs::OpeningFacts::opening_none, crate::proofs::OpeningFacts::opening_more))]
/// The clients of a setup, of which none has asked for anything.
pub fn open_clients<R: IdRule>(
    alloc: Global,
    rule: &R,
    setup: &Setup,
) -> Result<Vec<Client>, NoMemory>
    requires some_servers { 1 ≤ setup.now.servers }
    requires few_calls { call_count setup.now.clients ≤ MOST_CALLS }
    requires few_clients { length setup.now.clients ≤ MOST_CLIENTS }
    ensures { IfOk result (λ clients. AreOpening (world_by (R.digest_of rule.now) setup.now)
        (length setup.now.clients) clients.items) }
{
    let mut clients = Vec::new(alloc);
    for number in 0..setup.clients.len() {
        clients.push(Client::new(alloc, rule, setup, number as u32)?)?;
    }
    Ok(clients)
}

#[tactic(auto, using(crate::proofs::OpeningFacts::empty_none, crate::proofs::OpeningFacts::empty_more))]
/// So many queues, of which none has an Ask.
pub fn open_queues(alloc: Global, many: usize) -> Result<Vec<Queue>, NoMemory>
    ensures { IfOk result (λ queues. AreEmpty many queues.items) }
{
    let mut queues = Vec::new(alloc);
    for _ in 0..many {
        queues.push(Queue::new(alloc))?;
    }
    Ok(queues)
}
