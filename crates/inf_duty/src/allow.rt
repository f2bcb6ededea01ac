//! Whether a client may send an ask, told from what it asked and was answered.

ghost use Rattle.std.specs.Prelude.{◌≡◌, ◌+◌, ◌<◌, ◌≤◌, ◌^◌, ◌↔◌, false, IfOk, IsTrue, OnOk};
ghost use Rattle.inf_base.specs.declared.limits.TheConstants.{MOST_CALLS};
ghost use Rattle.inf_base.specs.Setup.{call_count};
ghost use Rattle.inf_duty.specs.Duty.{Duty};
ghost use Rattle.inf_duty.specs.World.{world_by};
ghost use Rattle.inf_duty.specs.Own.{AreInOrder, after_own, client_of};

use crate::client_state::ClientState;
use crate::own::OwnAsk;
use inf_base::{NoMemory, Setup};
use inf_birth::IdRule;
use inf_message::Ask;
use std::alloc::Global;

/// The client makes one more of its Asks, and is answered if that Ask was.
fn follow<R: IdRule>(
    alloc: Global,
    rule: &R,
    state: &mut ClientState,
    own: &OwnAsk,
) -> Result<(), NoMemory>
    requires { state.old.counts.messages + 1 < 2 ^ 64 }
    ensures { OnOk result (state.new ≡ after_own (R.digest_of rule.now) state.old own.now) }
{
    state.asked(alloc, rule, own.ask_place, &own.ask)?;
    if let Some((serve_place, reply)) = &own.told {
        state.told(alloc, rule, own.ask_place, *serve_place, reply)?;
    }
    Ok(())
}

/// Whether the Asks stand in the order of asking, which their places tell.
pub fn are_in_order(own: &[OwnAsk]) -> bool
    ensures { IsTrue result ↔ AreInOrder own.now }
{
    let mut last = 0;
    for made in own {
        if made.ask_place <= last {
            return false;
        }
        last = made.ask_place;
    }
    true
}

/// Whether the client of this number may send an ask to the server of that number, once it has made these Asks, in
/// the order of asking, and was given their answers.
pub fn allowed<R: IdRule>(
    alloc: Global,
    rule: R,
    setup: &Setup,
    client: u32,
    own: &[OwnAsk],
    number: u32,
    ask: &Ask,
) -> Result<bool, NoMemory>
    requires some_servers { 1 ≤ setup.now.servers }
    requires few_calls { call_count setup.now.clients ≤ MOST_CALLS }
    requires order { AreInOrder own.now }
    ensures { IfOk result (λ yes. IsTrue yes
        ↔ Duty (R.digest_of rule) (client_of (world_by (R.digest_of rule) setup.now) client own.now) number ask.now) }
{
    let mut state = ClientState::start(alloc, &rule, setup, client)?;
    for made in own {
        follow(alloc, &rule, &mut state, made)?;
    }
    state.allows(alloc, &rule, number, ask)
}
