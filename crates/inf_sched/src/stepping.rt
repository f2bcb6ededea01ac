//! What comes of letting a client ask.

ghost use Rattle.std.specs.Prelude.{◌≡◌, ◌<◌, false, length, IfOk, OnOk};
ghost use Rattle.inf_core.specs.Core.{IsSameRun, world_in};
ghost use Rattle.inf_duty.specs.After.{client_after};
ghost use Rattle.inf_sched.specs.Run.{Did, IsClient, asks_shown, rested};

use crate::posting::Posting;
use inf_base::NoMemory;
use inf_birth::IdRule;
use inf_client::Client;
use inf_core::Core;
use inf_duty::ClientStep;
use std::alloc::Global;

/// What a client did that was let ask.
#[derive(Clone, Copy, Debug, PartialEq, Eq)]
pub enum Stepped {
    Asked(Posting),
    /// It gave up all that it had left for want of memory.
    GaveUp,
    /// It had no ask to make.
    Rested,
}

#[tactic(auto, using(crate::proofs::StepFacts::asked_did, crate::proofs::StepFacts::rested_did, crate::proofs::StepFacts::waiting_rests, crate::proofs::StepFacts::finished_rests))]
/// Lets the client of this number make its next ask.
pub fn let_ask<R: IdRule>(
    alloc: Global,
    core: &mut Core<R>,
    client: &mut Client,
    number: u32,
) -> Result<Stepped, NoMemory>
    requires there { number < length core.old.setup.clients }
    requires is_client { IsClient (client_after (world_in R.digest_of core.old)
        number core.old.history) client.old }
    requires asks { client.old.log.asks ≡ asks_shown number core.old.history }
    requires idle { client.old.handed ≡ false }
    ensures did { IfOk result (λ stepped. Did (world_in R.digest_of core.old) number stepped
        core.old.history core.new.history client.old client.new) }
    ensures same { OnOk result (IsSameRun core.old core.new) }
{
    let was_gone = client.has_given_up();
    match client.step(alloc, &core.rule()) {
        ClientStep::Ask(server, ask) => {
            let (place, made) = core.ask(server, ask)?;
            client.asked(place, server, made);
            Ok(Stepped::Asked(Posting {
                place,
                number: server,
                client: number,
            }))
        }
        ClientStep::Waiting => Ok(rested(was_gone, client)),
        ClientStep::Finished => Ok(rested(was_gone, client)),
    }
}

fn rested(was_gone: bool, client: &Client) -> Stepped
    ensures { result ≡ rested was_gone client.now.gone }
{
    if !was_gone && client.has_given_up() {
        Stepped::GaveUp
    } else {
        Stepped::Rested
    }
}
