//! Which calls of a source or a sink in memory are to fail, and how many failed.
ghost use Rattle.std.specs.Prelude.{◌≡◌};
ghost use Rattle.inf_io.specs.Faults.{count_after, is_planned, next_call};

/// The plan, and what came so far.
#[derive(Debug, Drop)]
pub struct FaultPlan {
    pub fails: Vec<u64>,
    pub calls: u64,
    pub faults: u64,
}

impl FaultPlan {
    pub fn new(fails: Vec<u64>) -> Self
        ensures fails { result.fails ≡ fails }
        ensures calls { result.calls ≡ 0 }
        ensures faults { result.faults ≡ 0 }
    {
        FaultPlan {
            fails,
            calls: 0,
            faults: 0,
        }
    }

    /// Counts a call, and tells whether it is to fail.
    pub fn next_is_planned(&mut self) -> bool
        ensures planned { result ≡ is_planned self.old.fails.items self.old.calls }
        ensures counted { self.new.calls ≡ next_call self.old.calls }
        ensures fails { self.new.fails ≡ self.old.fails }
        ensures faults { self.new.faults ≡ self.old.faults }
    {
        let planned = stands_next(self.fails.as_slice(), self.calls);
        self.calls = self.calls.saturating_add(1);
        planned
    }

    /// Counts a failure.
    pub fn count(&mut self, is_failure: bool)
        ensures faults { self.new.faults ≡ count_after is_failure self.old.faults }
        ensures calls { self.new.calls ≡ self.old.calls }
        ensures fails { self.new.fails ≡ self.old.fails }
    {
        if is_failure {
            self.faults = self.faults.saturating_add(1);
        }
    }
}

/// Whether the number of the call after so many stands in the plan.
fn stands_next(fails: &[u64], calls: u64) -> bool
    ensures { result ≡ is_planned fails.now calls }
{
    match calls.checked_add(1) {
        Some(number) => fails.contains(&number),
        None => false,
    }
}
