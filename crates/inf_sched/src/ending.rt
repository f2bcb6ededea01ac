//! What the calls of a run came to.

ghost use Rattle.std.specs.Prelude.{◌≡◌, IfOk};
ghost use Rattle.std.specs.List.{flat_map};
ghost use Rattle.inf_sched.specs.Run.{results_of_client};

use inf_base::NoMemory;
use inf_client::Client;
use inf_message::CallResult;
use std::alloc::Global;

/// The results of all clients, one client after another.
pub fn all_results(alloc: Global, clients: Vec<Client>) -> Result<Vec<CallResult>, NoMemory>
    ensures { IfOk result (λ results. results.items
        ≡ flat_map results_of_client clients.items) }
{
    let mut results = Vec::new(alloc);
    for client in clients {
        let mut ended = client.into_results();
        results.append(&mut ended)?;
    }
    Ok(results)
}
