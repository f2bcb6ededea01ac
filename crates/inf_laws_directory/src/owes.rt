//! One law over all requests: whatever a server may do with a request that fits what its call has in hand, what stood
//! for a tree before stands for the tree after, and what decides the call decides it as the tree does.

ghost use Rattle.std.specs.Prelude.{◌≡◌};
ghost use Rattle.inf_base.specs.declared.access.Access.{Access};
ghost use Rattle.inf_base.specs.declared.call.Call.{Call};
ghost use Rattle.inf_laws_directory.specs.At.{At};
ghost use Rattle.inf_laws_directory.specs.Fits.{Fits, next_phase};
ghost use Rattle.inf_laws_directory.specs.Objects.{Objects, Service, site_in, with_state};
ghost use Rattle.inf_laws_directory.specs.Owes.{Aims, Owes};
ghost use Rattle.inf_laws_directory.specs.Phases.{Phases, with_phase};
ghost use Rattle.inf_laws_directory.specs.Standing.{IsStanding};
ghost use Rattle.inf_laws_directory.specs.Told.{IsUnborn};
ghost use Rattle.inf_message.specs.declared.ask.Ask.{Ask};
ghost use Rattle.inf_message.specs.declared.reply.Reply.{Reply};
ghost use Rattle.inf_server.specs.Machine.{Serves};
ghost use Rattle.inf_server.specs.State.{State};
ghost use Rattle.inf_tree.specs.Tree.{Node};

use crate::served::{
    served_clean_ups_stand, served_creations_stand, served_links_stand, served_looks_stand,
    served_makes_stand, served_reservations_stand, served_seals_stand, served_unlinks_stand,
};
use crate::stands::unseen_changes_stand;

/// What is served owes nothing.
pub fn what_is_served_stands()
    ensures { (service : Service) (objects : Objects) (at : At) (root : Access) (tree : Node) (phases : Phases)
        (ask : Ask) (asked : Call) (given : Reply) (new : State)
        → IsStanding service objects root tree phases → Fits at (phases ask.from) ask.request
        → Aims service objects root phases ask.caller asked ask.request → IsUnborn service objects at.ask_place
        → Serves (site_in service at.number) (objects at.number) at.ask_place ask given new
        → Owes (record {
          service = service;
          at = at;
          old = objects;
          new = with_state at.number new objects;
          root = root;
          tree = tree;
          before = phases;
          after = with_phase ask.from (next_phase service at (phases ask.from) ask.request given) phases;
        }) ask.caller asked ask.request given }
{
    unseen_changes_stand();
    served_looks_stand();
    served_creations_stand();
    served_reservations_stand();
    served_makes_stand();
    served_links_stand();
    served_seals_stand();
    served_unlinks_stand();
    served_clean_ups_stand();
}
