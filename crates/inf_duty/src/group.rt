//! What is asked about where a client stands.

ghost use Rattle.std.specs.Prelude.{◌≡◌};
ghost use Rattle.inf_duty.specs.Duty.{has_message};
ghost use Rattle.inf_duty.specs.Messages.{is_compose, is_winding};
ghost use Rattle.inf_duty.specs.Standing.{stage_of};
ghost use Rattle.inf_duty.specs.ClientState.{is_round};
ghost use Rattle.inf_message.specs.Who.{Who};

use crate::standing::Standing;

/// Whether nothing is settled yet.
pub fn is_compose(stands: &Standing) -> bool
    ensures { result ≡ is_compose (stage_of stands.now) }
{
    match stands {
        Standing::Compose => true,
        Standing::Round(_) => false,
        Standing::Act(_) => false,
        Standing::Winds(_, _, _) => false,
    }
}

/// Whether the group is a round of lookups.
pub fn is_round(stands: &Standing) -> bool
    ensures { result ≡ is_round (stage_of stands.now) }
{
    match stands {
        Standing::Compose => false,
        Standing::Round(_) => true,
        Standing::Act(_) => false,
        Standing::Winds(_, _, _) => false,
    }
}

/// Whether nothing is left of the call but what winds it up.
pub fn is_winding(stands: &Standing) -> bool
    ensures { result ≡ is_winding (stage_of stands.now) }
{
    match stands {
        Standing::Compose => false,
        Standing::Round(_) => false,
        Standing::Act(_) => false,
        Standing::Winds(_, _, _) => true,
    }
}

/// Whether what is settled has a message to send; what is not settled yet is still to get one.
#[tactic(auto, using(crate::proofs::StepFacts::keys_ask, crate::proofs::StepFacts::step_sized, crate::proofs::StepFacts::winds_sized))]
pub fn has_message(stands: &Standing) -> bool
    ensures { (who : Who) → has_message who (stage_of stands.now) ≡ result }
{
    match stands {
        Standing::Compose => true,
        Standing::Round(keys) => keys.len() > 0,
        Standing::Act(flow) => flow.group_size() > 0,
        Standing::Winds(_, first, _) => first.size() > 0,
    }
}
