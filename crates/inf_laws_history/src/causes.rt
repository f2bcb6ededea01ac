//! Why calls were answered Again and IdClash, as laws of legal histories.

ghost use Rattle.std.specs.Prelude.{◌≡◌, List, All};
ghost use Rattle.inf_base.specs.declared.answer.Answer.TheVariants as answer;
ghost use Rattle.inf_base.specs.declared.caller.CallRef.{CallRef};
ghost use Rattle.inf_base.specs.declared.triple.Triple.{Triple};
ghost use Rattle.inf_duty.specs.Outcome.{Outcome};
ghost use Rattle.inf_duty.specs.World.{World};
ghost use Rattle.inf_laws_history.specs.Causes.{IsAgainBecause, IsClashBecause};
ghost use Rattle.inf_laws_history.specs.Legal.{Legal};
ghost use Rattle.inf_message.specs.declared.call_result.CallResult.{CallResult};
ghost use Rattle.inf_message.specs.declared.event.Event.{Event};

use crate::laws::every_legal_history_keeps;

/// Whoever was answered Again met a change of another client's call that was in flight, where the server that replied
/// so had what was asked for. By its result, the other call was under way. Where a name was looked up, the reply is of
/// a directory that the same attempt was told of, by its identifier and birth.
pub fn again_names_a_change_in_flight()
    ensures { (world : World) (h : List Event) (results : List CallResult) → Legal world h → Outcome world h results
        → All (λ (result : CallResult). (by : CallRef) → result.answer ≡ answer.Again by
        → IsAgainBecause world h results result by) results }
{
    every_legal_history_keeps();
}

/// Whoever was answered IdClash was to make a directory whose birth has the identifier of another.
pub fn clashes_are_of_two_births()
    ensures { (world : World) (h : List Event) (results : List CallResult) → Legal world h → Outcome world h results
        → All (λ (result : CallResult). (own kept : Triple) → result.answer ≡ answer.IdClash own kept
        → IsClashBecause world h result own kept) results }
{}
