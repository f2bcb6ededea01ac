//! What the rounds of an attempt told.

ghost use Rattle.std.specs.Prelude.{◌≡◌, ◌+◌, ◌≤◌, ◌++◌, ℕ, List, true, is_some, length, vec_capacity};
ghost use Rattle.std.specs.List.{list_all};
ghost use Rattle.inf_base.specs.declared.id.Id.{Id};
ghost use Rattle.inf_duty.specs.declared.course.Course.{Course as Way};
ghost use Rattle.inf_duty.specs.Turn.{told_by};
ghost use Rattle.inf_resolve.specs.Resolved.{resolved, verdict_of};

use crate::course::Course;
use inf_base::LookKeys;
use inf_message::{Sending, take_first};
use inf_resolve::{Known, Verdict};

/// What the lookups of a round were told joins what is known, by key.
pub fn learn(known: &mut Vec<Known>, keys: LookKeys, sent: &mut Vec<Sending>)
    requires { length known.old.items + length keys ≤ vec_capacity known.old }
    ensures known { known.new.items ≡ known.old.items ++ told_by keys sent.old.items }
    ensures capacity { vec_capacity sent.new ≡ vec_capacity sent.old }
{
    for key in keys.into_vec() {
        let Some(sending) = take_first(sent) else {
            return;
        };
        if let Some(told) = sending.into_told() {
            let (place, reply) = told.into_parts();
            known.push_reserved(Known { key, reply, place });
        }
    }
}

/// Whether the attempt is over by what is known.
pub fn verdict(course: &Option<Course>, known: &[Known]) -> Verdict
    requires { is_some course.now ≡ true }
    ensures { (digest : List ℕ → Id) (root : Id) (way : Way) → course.now ≡ Some way
        → result ≡ verdict_of (resolved digest root way.looked known.now) }
{
    match course {
        Some(course) => course.looked.verdict(known),
        None => unreachable!(),
    }
}
