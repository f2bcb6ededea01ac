//! Each request that a call of these flows may make, from one moment to the next: what stood for a tree before stands
//! for the tree after, and what decides a call decides it as the tree does.

ghost use Rattle.std.specs.Prelude.{◌≡◌, ℕ, ◌≤◌, List, [], ◌∷◌, ◌++◌, Some, Ok, Err};
ghost use Rattle.inf_base.specs.declared.access.Access.{Access};
ghost use Rattle.inf_base.specs.declared.answer.Answer.TheVariants as answer;
ghost use Rattle.inf_base.specs.declared.call.Call.{Call};
ghost use Rattle.inf_base.specs.declared.call.Call.TheVariants as call;
ghost use Rattle.inf_base.specs.declared.caller.CallRef.{CallRef};
ghost use Rattle.inf_base.specs.declared.directory.DirRef.{DirRef};
ghost use Rattle.inf_base.specs.declared.entry.Entry.{Entry};
ghost use Rattle.inf_base.specs.declared.errno.Errno.{Errno};
ghost use Rattle.inf_base.specs.declared.file.FileMeta.{FileMeta};
ghost use Rattle.inf_base.specs.declared.id.Id.{Id};
ghost use Rattle.inf_base.specs.declared.item.Kind.{Kind};
ghost use Rattle.inf_base.specs.declared.triple.Triple.{Triple};
ghost use Rattle.inf_base.specs.declared.triple.Triple.TheVariants as triple;
ghost use Rattle.inf_base.specs.Identity.{identity};
ghost use Rattle.inf_base.specs.Path.{path_of};
ghost use Rattle.inf_base.specs.Same.{dir_of};
ghost use Rattle.inf_laws_directory.specs.Objects.{Objects, Service, site_in, with_state};
ghost use Rattle.inf_laws_directory.specs.Phases.{Phases, has_made, has_reserved, has_sealed, has_unlinked, idle, with_phase};
ghost use Rattle.inf_laws_directory.specs.Replays.{IsPathOf, IsRefused, MayWrite};
ghost use Rattle.inf_laws_directory.specs.At.{At};
ghost use Rattle.inf_laws_directory.specs.Answers.{IsCallOn};
ghost use Rattle.inf_laws_directory.specs.Told.{IsUnborn};
ghost use Rattle.inf_laws_directory.specs.Standing.{Decides, GoesOn, GoesOnOlder, IsStanding, IsToldAlong};
ghost use Rattle.inf_message.specs.declared.ask.Ask.{Ask};
ghost use Rattle.inf_message.specs.declared.reply.Reply.TheVariants as reply;
ghost use Rattle.inf_server.specs.Births.{cancel, link, make, reserve};
ghost use Rattle.inf_server.specs.Chains.{before_last, last_of};
ghost use Rattle.inf_server.specs.Files.{create, rmdir_name, stat, walk};
ghost use Rattle.inf_server.specs.Removals.{drop_dir, forget, seal, unlink, unseal};
ghost use Rattle.inf_server.specs.Response.{Response};
ghost use Rattle.inf_server.specs.State.{opening, root_access};
ghost use Rattle.inf_tree.specs.Tree.{Node, opening_tree};

use crate::phases::{
    chains_are_true, creating_keeps, ending_keeps, linking_keeps, making_keeps, opening_is_owned,
    reserving_keeps, sealing_keeps, undoing_keeps, unlinking_keeps,
};
use crate::replays::{
    births_replay, creates_replay, removals_of_no_directory_replay, removals_replay, stats_replay,
};
use crate::serves::{dropping_leaves_others, preparing_is_unseen};
use crate::stands::{opening_stands, unseen_changes_stand};

/// Before anything is served, with each call idle, what stands stands for the opening tree.
pub fn the_opening_stands()
    ensures { (service : Service) (phases : Phases) → ((call : CallRef) → phases call ≡ idle)
        → IsStanding service (λ number.
        opening (site_in service number)) (root_access (site_in service 0)) opening_tree phases }
{
    opening_stands();
    opening_is_owned();
}

/// The creation of a file decides its call.
pub fn served_creations_stand()
    ensures done { (service : Service) (objects : Objects) (number : ℕ) (root : Access) (tree : Node) (phases : Phases)
        (ask : Ask) (text : List ℕ) (path : List (List ℕ)) (name : List ℕ) (mode : ℕ) (chain : List Entry)
        (done : Response)
        → IsStanding service objects root tree phases → phases ask.from ≡ idle
        → IsToldAlong service objects root phases path chain → IsPathOf text path name
        → create (site_in service number) (objects number) ask chain name mode ≡ Ok done
        → Decides service objects (with_state number done.state objects) root tree phases phases
        ask.caller (call.Create text mode) answer.Done }
    ensures refused { (service : Service) (objects : Objects) (number : ℕ) (root : Access) (tree : Node)
        (phases : Phases)
        (ask : Ask) (text : List ℕ) (path : List (List ℕ)) (name : List ℕ) (mode : ℕ) (chain : List Entry)
        (error : Errno)
        → IsStanding service objects root tree phases → phases ask.from ≡ idle
        → IsToldAlong service objects root phases path chain → IsPathOf text path name
        → create (site_in service number) (objects number) ask chain name mode ≡ Err (reply.Refused error)
        → IsRefused tree ask.caller (call.Create text mode) error }
{
    creates_replay();
    creating_keeps();
}

/// A name that is kept for a directory to come is not seen; one that cannot be kept refuses the call.
pub fn served_reservations_stand()
    ensures done { (service : Service) (objects : Objects) (number version : ℕ) (root : Access) (tree : Node)
        (phases : Phases) (ask : Ask) (path : List (List ℕ)) (name : List ℕ) (chain : List Entry) (last : Entry)
        (done : Response)
        → IsStanding service objects root tree phases → phases ask.from ≡ idle
        → IsToldAlong service objects root phases path chain → last_of chain ≡ Some last
        → reserve (site_in service number) (objects number) ask chain name ≡ Ok done
        → done.reply ≡ reply.Reserved version
        → GoesOn service objects (with_state number done.state objects) root tree phases
        (with_phase ask.from (has_reserved (dir_of last.access) name (triple.Of last.access.id name version)) phases) }
    ensures refused { (service : Service) (objects : Objects) (number : ℕ) (root : Access) (tree : Node)
        (phases : Phases)
        (ask : Ask) (text : List ℕ) (path : List (List ℕ)) (name : List ℕ) (mode : ℕ) (chain : List Entry)
        (error : Errno)
        → IsStanding service objects root tree phases → phases ask.from ≡ idle
        → IsToldAlong service objects root phases path chain → IsPathOf text path name
        → reserve (site_in service number) (objects number) ask chain name ≡ Err (reply.Refused error)
        → IsRefused tree ask.caller (call.Mkdir text mode) error }
{
    births_replay();
    preparing_is_unseen();
    unseen_changes_stand();
    reserving_keeps();
}

/// The link decides the making of a directory.
pub fn served_links_stand()
    ensures { (service : Service) (objects : Objects) (number : ℕ) (root : Access) (tree : Node) (phases : Phases)
        (ask : Ask) (text : List ℕ) (path : List (List ℕ)) (name : List ℕ) (mode : ℕ) (chain : List Entry)
        (last : Entry)
        (birth : Triple) (made : DirRef) (done : Response)
        → IsStanding service objects root tree phases → last_of chain ≡ Some last
        → phases ask.from ≡ has_made (dir_of last.access) name birth made
        → IsToldAlong service objects root phases path chain → IsPathOf text path name → MayWrite ask.caller chain last
        → link (site_in service number) (objects number) ask chain made mode ≡ Ok done
        → Decides service objects (with_state number done.state objects) root tree phases
        (with_phase ask.from idle phases) ask.caller (call.Mkdir text mode) answer.Done }
{
    chains_are_true();
    births_replay();
    linking_keeps();
}

/// A seal is not seen; one that is refused refuses the removal.
pub fn served_seals_stand()
    ensures done { (service : Service) (objects : Objects) (number : ℕ) (root : Access) (tree : Node) (phases : Phases)
        (ask : Ask) (path : List (List ℕ)) (name : List ℕ) (chain : List Entry) (parent target : Entry)
        (done : Response)
        → IsStanding service objects root tree phases → phases ask.from ≡ idle
        → IsToldAlong service objects root phases (path ++ name ∷ []) chain
        → last_of chain ≡ Some target → last_of (before_last chain) ≡ Some parent
        → seal (site_in service number) (objects number) ask chain ≡ Ok done
        → GoesOn service objects (with_state number done.state objects) root tree phases
        (with_phase ask.from (has_sealed (dir_of parent.access) name (dir_of target.access)) phases) }
    ensures refused { (service : Service) (objects : Objects) (number : ℕ) (root : Access) (tree : Node)
        (phases : Phases)
        (ask : Ask) (text : List ℕ) (path : List (List ℕ)) (name : List ℕ) (chain : List Entry) (error : Errno)
        → IsStanding service objects root tree phases → phases ask.from ≡ idle
        → IsToldAlong service objects root phases (path ++ name ∷ []) chain → IsPathOf text path name
        → seal (site_in service number) (objects number) ask chain ≡ Err (reply.Refused error)
        → IsRefused tree ask.caller (call.Rmdir text) error }
{
    removals_replay();
    preparing_is_unseen();
    unseen_changes_stand();
    sealing_keeps();
}

/// The unlink decides the removal of a directory.
pub fn served_unlinks_stand()
    ensures { (service : Service) (objects : Objects) (number : ℕ) (root : Access) (tree : Node) (phases : Phases)
        (ask : Ask) (text : List ℕ) (path : List (List ℕ)) (name : List ℕ) (chain : List Entry) (parent target : Entry)
        (done : Response)
        → IsStanding service objects root tree phases
        → phases ask.from ≡ has_sealed (dir_of parent.access) name (dir_of target.access)
        → last_of chain ≡ Some target → last_of (before_last chain) ≡ Some parent
        → IsToldAlong service objects root phases (path ++ name ∷ []) chain → IsPathOf text path name
        → MayWrite ask.caller (before_last chain) parent
        → unlink (site_in service number) (objects number) ask chain ≡ Ok done
        → Decides service objects (with_state number done.state objects) root tree phases
        (with_phase ask.from (has_unlinked (dir_of target.access)) phases)
        ask.caller (call.Rmdir text) answer.Done }
{
    removals_replay();
    unlinking_keeps();
}

/// What only looks decides its call as the tree does: what is told of a file or a directory,
/// and why a path cannot go on.
pub fn served_looks_stand()
    ensures told { (service : Service) (objects : Objects) (number : ℕ) (root : Access) (tree : Node) (phases : Phases)
        (ask : Ask) (text : List ℕ) (path : List (List ℕ)) (name : List ℕ) (chain : List Entry) (done : Response)
        (kind : Kind) (meta : FileMeta)
        → IsStanding service objects root tree phases → phases ask.from ≡ idle
        → IsToldAlong service objects root phases path chain → IsPathOf text path name
        → stat (site_in service number) (objects number) ask chain name ≡ Ok done → done.reply ≡ reply.Stat kind meta
        → Decides service objects (with_state number done.state objects) root tree phases phases
        ask.caller (call.Stat text) (answer.Stat kind meta) }
    ensures not_told { (service : Service) (objects : Objects) (number : ℕ) (root : Access) (tree : Node)
        (phases : Phases)
        (ask : Ask) (text : List ℕ) (path : List (List ℕ)) (name : List ℕ) (chain : List Entry) (error : Errno)
        → IsStanding service objects root tree phases → phases ask.from ≡ idle
        → IsToldAlong service objects root phases path chain → IsPathOf text path name
        → stat (site_in service number) (objects number) ask chain name ≡ Err (reply.Refused error)
        → IsRefused tree ask.caller (call.Stat text) error }
    ensures stopped { (service : Service) (objects : Objects) (number : ℕ) (root : Access) (tree : Node)
        (phases : Phases)
        (ask : Ask) (asked : Call) (text : List ℕ) (path rest : List (List ℕ)) (name next : List ℕ) (chain : List Entry)
        (error : Errno)
        → IsStanding service objects root tree phases → phases ask.from ≡ idle
        → IsToldAlong service objects root phases path chain → IsCallOn text asked
        → path_of text ≡ Ok (path ++ name ∷ next ∷ rest)
        → walk (site_in service number) (objects number) ask chain name ≡ Err (reply.Refused error)
        → IsRefused tree ask.caller asked error }
    ensures no_directory { (service : Service) (objects : Objects) (number : ℕ) (root : Access) (tree : Node)
        (phases : Phases) (ask : Ask) (text : List ℕ) (path : List (List ℕ)) (name : List ℕ) (chain : List Entry)
        (error : Errno)
        → IsStanding service objects root tree phases → phases ask.from ≡ idle
        → IsToldAlong service objects root phases path chain → IsPathOf text path name
        → rmdir_name (site_in service number) (objects number) ask chain name ≡ Err (reply.Refused error)
        → IsRefused tree ask.caller (call.Rmdir text) error }
{
    stats_replay();
    removals_of_no_directory_replay();
    unseen_changes_stand();
}

/// A content object that is made is not seen.
pub fn served_makes_stand()
    ensures { (service : Service) (objects : Objects) (at : At) (root : Access) (tree : Node) (phases : Phases)
        (ask : Ask) (parent : DirRef) (name : List ℕ) (birth : Triple) (done : Response)
        → IsStanding service objects root tree phases → phases ask.from ≡ has_reserved parent name birth
        → IsUnborn service objects at.ask_place
        → make (site_in service at.number) (objects at.number) at.ask_place ask birth ≡ Ok done
        → GoesOnOlder service at.ask_place objects (with_state at.number done.state objects) root tree phases
        (with_phase ask.from
        (has_made parent name birth (record { id = identity service.digest birth; born = at.ask_place })) phases) }
{
    preparing_is_unseen();
    unseen_changes_stand();
    making_keeps();
}

/// What undoes the making of a directory, or ends its removal, is not seen.
pub fn served_clean_ups_stand()
    ensures made_dropped { (service : Service) (objects : Objects) (number : ℕ) (root : Access) (tree : Node)
        (phases : Phases) (ask : Ask) (parent made : DirRef) (name : List ℕ) (birth : Triple) (done : Response)
        → IsStanding service objects root tree phases → phases ask.from ≡ has_made parent name birth made
        → drop_dir (site_in service number) (objects number) ask made ≡ Ok done
        → GoesOn service objects (with_state number done.state objects) root tree phases
        (with_phase ask.from (has_reserved parent name birth) phases) }
    ensures cancelled { (service : Service) (objects : Objects) (number : ℕ) (root : Access) (tree : Node)
        (phases : Phases) (ask : Ask) (parent : DirRef) (name : List ℕ) (birth : Triple) (done : Response)
        → IsStanding service objects root tree phases → phases ask.from ≡ has_reserved parent name birth
        → cancel (site_in service number) (objects number) ask parent ≡ Ok done
        → GoesOn service objects (with_state number done.state objects) root tree phases
        (with_phase ask.from idle phases) }
    ensures dropped { (service : Service) (objects : Objects) (number : ℕ) (root : Access) (tree : Node)
        (phases : Phases)
        (ask : Ask) (target : DirRef) (done : Response)
        → IsStanding service objects root tree phases → phases ask.from ≡ has_unlinked target
        → drop_dir (site_in service number) (objects number) ask target ≡ Ok done
        → GoesOn service objects (with_state number done.state objects) root tree phases
        (with_phase ask.from idle phases) }
    ensures unsealed { (service : Service) (objects : Objects) (number : ℕ) (root : Access) (tree : Node)
        (phases : Phases) (ask : Ask) (parent target : DirRef) (name : List ℕ) (done : Response)
        → IsStanding service objects root tree phases → phases ask.from ≡ has_sealed parent name target
        → unseal (site_in service number) (objects number) ask target ≡ Ok done
        → GoesOn service objects (with_state number done.state objects) root tree phases
        (with_phase ask.from idle phases) }
    ensures forgotten { (service : Service) (objects : Objects) (number : ℕ) (root : Access) (tree : Node)
        (phases : Phases) (ask : Ask) (parent : Id) (target : DirRef) (done : Response)
        → IsStanding service objects root tree phases
        → forget (site_in service number) (objects number) parent target ≡ Ok done
        → GoesOn service objects (with_state number done.state objects) root tree phases phases }
{
    preparing_is_unseen();
    dropping_leaves_others();
    unseen_changes_stand();
    undoing_keeps();
    ending_keeps();
}
