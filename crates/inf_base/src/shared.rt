//! A value that equal copies share, as long lists of values need it that stand in many messages.

ghost use Rattle.std.specs.Prelude.{◌≡◌, IfOk};

use crate::memory::{NoMemory, TryClone};
use std::alloc::Global;
use std::marker::Model;
use std::ops::Deref;
use std::sync::Arc;

/// A value that is never changed, so that its copies can share it: a copy counts one owner more. To contracts it is
/// the value itself.
#[derive(Debug, Drop)]
pub struct Shared<T> {
    held: Arc<T, Global>,
}

impl<T> Model for Shared<T> {
    ghost use Rattle.std.specs.Arc.{arc_value};

    ghost Value = { T };

    ghost coded = { T.code };

    ghost view = { λ s. arc_value s.held };
}

impl<T: Drop> Shared<T> {
    pub fn new(alloc: Global, value: T) -> Result<Self, NoMemory>
        ensures { IfOk result (λ shared. shared ≡ value) }
    {
        Ok(Shared {
            held: Arc::new(alloc, value)?,
        })
    }
}

impl<T> Deref for Shared<T> {
    type Target = T;

    ghost deref_gives = { λ s x. x ≡ s };

    fn deref(&self) -> &T {
        &self.held
    }
}

impl<T: PartialEq> PartialEq for Shared<T> {
    ghost eq = { T.eq };

    ghost laws = { T.laws };

    fn eq(&self, other: &Self) -> bool {
        **self == **other
    }
}

impl<T> TryClone for Shared<T> {
    /// Fails where the count of owners is full.
    fn try_clone(&self, _alloc: Global) -> Result<Self, NoMemory> {
        Ok(Shared {
            held: Arc::try_clone(&self.held)?,
        })
    }
}
