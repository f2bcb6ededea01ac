//! What comes of serving an Ask.

ghost use Rattle.std.specs.Prelude.{OnOk};
ghost use Rattle.inf_core.specs.Core.{IsSameRun, world_in};
ghost use Rattle.inf_duty.specs.After.{client_after};
ghost use Rattle.inf_sched.specs.Run.{HasServed, IsClient};
ghost use Rattle.inf_sched.specs.Waiting.{IsWaiting};

use crate::posting::Posting;
use inf_base::NoMemory;
use inf_birth::IdRule;
use inf_client::Client;
use inf_core::Core;
use std::alloc::Global;

/// The server of an Ask that waits serves it, and the client that made it is told.
#[tactic(auto, using(crate::proofs::ServeFacts::waiting_asked, crate::proofs::ServeFacts::has_served))]
pub fn serve<R: IdRule>(
    alloc: Global,
    core: &mut Core<R>,
    client: &mut Client,
    posting: Posting,
) -> Result<(), NoMemory>
    requires waits { IsWaiting core.old.history posting }
    requires is_client { IsClient (client_after (world_in R.digest_of core.old)
        posting.client core.old.history) client.old }
    ensures served { OnOk result (HasServed (world_in R.digest_of core.old) posting
        core.old.history core.new.history client.old client.new) }
    ensures same { OnOk result (IsSameRun core.old core.new) }
{
    let rule = core.rule();
    let (place, reply) = core.serve(posting.place)?;
    client.told(alloc, &rule, posting.place, place, reply)?;
    Ok(())
}
