//! Whether an ask is one that a client may send.

ghost use Rattle.std.specs.Prelude.{◌≡◌, ◌↔◌, IfOk, IsTrue};
ghost use Rattle.inf_duty.specs.Duty.{Duty, asks, next_step};

use super::ClientState;
use inf_base::NoMemory;
use inf_birth::IdRule;
use inf_message::Ask;
use std::alloc::Global;

impl ClientState {
    /// Whether the ask is the next one.
    #[tactic(auto, using(crate::proofs::StepFacts::over_asks_nothing, crate::proofs::StepFacts::none_next, crate::proofs::StepFacts::other_server, crate::proofs::StepFacts::same_asks))]
    fn is_next(&self, alloc: Global, number: u32, ask: &Ask) -> Result<bool, NoMemory>
        ensures { IfOk result (λ yes. IsTrue yes
            ↔ (next_step self.now ≡ asks number ask.now)) }
    {
        if self.left.is_empty() {
            return Ok(false);
        }
        match self.stands.message(alloc, &self.who, self.sent.len())? {
            None => Ok(false),
            Some(message) => {
                let (server, next) = self.posted(message);
                if server != number {
                    return Ok(false);
                }
                Ok(next.is_same(ask))
            }
        }
    }

    /// Whether the client may send this ask to the server of this number.
    pub fn allows<R: IdRule>(
        self,
        alloc: Global,
        rule: &R,
        number: u32,
        ask: &Ask,
    ) -> Result<bool, NoMemory>
        ensures { IfOk result (λ yes. IsTrue yes ↔ Duty (R.digest_of rule.now) self number ask.now) }
    {
        let mut state = self;
        state.begin(alloc, rule, ask)?;
        state.is_next(alloc, number, ask)
    }
}
