//! A slot as it stands under its name.

ghost use Rattle.std.specs.Prelude.{◌≡◌, None, Some};
ghost use Rattle.inf_content.specs.Slot.{filled, freed, held_slot, settled};

use crate::slot::Kept;
use inf_base::{CallRef, Caller, DirRef, Name};

/// What stands under a name. A copy of the name waits here while no call holds or reserves the slot, and stands among
/// the busy names while one does, so that a hold takes no memory.
#[derive(Debug, Drop)]
pub(crate) struct Named {
    pub(crate) kept: Kept,
    pub(crate) spare: Option<Name>,
}

impl Named {
    /// Lets a call hold it, and gives the copy of its name, if it was free.
    pub(crate) fn hold(&mut self, by: CallRef, mode: Option<u16>) -> Option<Name>
        ensures spare { result ≡ self.old.spare }
        ensures named { self.new ≡ record { kept = held_slot by mode self.old.kept; spare = None } }
    {
        self.kept.hold(by, mode);
        self.spare.take()
    }

    /// Gives it the mode that was kept, lifts its hold, and keeps the copy of its name.
    pub(crate) fn settle(&mut self, name: Name)
        ensures { self.new ≡ record { kept = settled self.old.kept; spare = Some name } }
    {
        self.kept.settle();
        self.spare = Some(name);
    }

    /// Makes a directory of what was reserved, and keeps the copy of its name.
    pub(crate) fn fill(&mut self, name: Name, link: Option<(DirRef, u16, Caller)>)
        ensures { self.new ≡ record { kept = filled link self.old.kept; spare = Some name } }
    {
        self.kept.fill(link);
        self.spare = Some(name);
    }

    /// Lifts the call's hold, and keeps the copy of its name.
    pub(crate) fn free(&mut self, name: Name, by: CallRef)
        ensures { self.new ≡ record { kept = freed by self.old.kept; spare = Some name } }
    {
        self.kept.free(by);
        self.spare = Some(name);
    }
}
