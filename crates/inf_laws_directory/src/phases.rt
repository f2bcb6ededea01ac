//! The steps of calls that make and remove directories: what stands in the servers belongs to calls as their phases
//! say, before and after each, and the entries that clients were told stay true, or their directories are gone.

ghost use Rattle.std.specs.Prelude.{◌≡◌, ℕ, ◌≤◌, List, [], ◌∷◌, ◌++◌, Some, Ok};
ghost use Rattle.inf_base.specs.declared.access.Access.{Access};
ghost use Rattle.inf_base.specs.declared.caller.CallRef.{CallRef};
ghost use Rattle.inf_base.specs.declared.directory.DirRef.{DirRef};
ghost use Rattle.inf_base.specs.declared.entry.Entry.{Entry};
ghost use Rattle.inf_base.specs.declared.id.Id.{Id};
ghost use Rattle.inf_base.specs.declared.key.Key.TheVariants as key;
ghost use Rattle.inf_base.specs.declared.triple.Triple.{Triple};
ghost use Rattle.inf_base.specs.declared.triple.Triple.TheVariants as triple;
ghost use Rattle.inf_base.specs.Identity.{identity};
ghost use Rattle.inf_base.specs.Same.{dir_of};
ghost use Rattle.inf_laws_directory.specs.At.{At};
ghost use Rattle.inf_laws_directory.specs.Leads.{Leads};
ghost use Rattle.inf_laws_directory.specs.Objects.{Objects, Service, shown_of, site_in, with_state};
ghost use Rattle.inf_laws_directory.specs.Owned.{AreOwned};
ghost use Rattle.inf_laws_directory.specs.Phases.{Phases, has_made, has_reserved, has_sealed, has_unlinked, idle, with_phase};
ghost use Rattle.inf_laws_directory.specs.Steps.{Keeps, KeepsOlder};
ghost use Rattle.inf_laws_directory.specs.Told.{AreTold, IsUnborn, LinkAlong};
ghost use Rattle.inf_message.specs.declared.ask.Ask.{Ask};
ghost use Rattle.inf_message.specs.declared.reply.Reply.TheVariants as reply;
ghost use Rattle.inf_server.specs.Births.{cancel, link, make, reserve};
ghost use Rattle.inf_server.specs.Chains.{before_last, last_of};
ghost use Rattle.inf_server.specs.Checks.{asked_of};
ghost use Rattle.inf_server.specs.Files.{create};
ghost use Rattle.inf_server.specs.Removals.{drop_dir, forget, seal, unlink, unseal};
ghost use Rattle.inf_server.specs.Response.{Response};
ghost use Rattle.inf_server.specs.State.{opening, root_access};

/// Before anything is served, with each call idle, all is owned.
pub fn opening_is_owned()
    ensures { (service : Service) (phases : Phases) → ((call : CallRef) → phases call ≡ idle)
        → AreOwned service (λ number. opening (site_in service number)) (root_access (site_in service 0)) phases }
{}

/// Of a chain whose entries were told and link, where the directory asked is there and no call keeps others out of it,
/// each entry is true now.
pub fn chains_are_true()
    ensures { (service : Service) (objects : Objects) (number : ℕ) (root : Access) (phases : Phases) (by : CallRef)
        (path : List (List ℕ)) (chain : List Entry) (last : Entry)
        → AreOwned service objects root phases → AreTold service objects root phases chain → LinkAlong path chain
        → asked_of (site_in service number) (objects number) by (last_of chain) (chain ∷ []) ≡ Ok last
        → (phases by ≡ has_unlinked (dir_of last.access) → ⊥)
        → Leads (shown_of service objects phases) root path chain }
{}

/// A file is created by a call that has nothing in hand.
pub fn creating_keeps()
    ensures { (service : Service) (objects : Objects) (number : ℕ) (root : Access) (phases : Phases) (ask : Ask)
        (path : List (List ℕ)) (chain : List Entry) (name : List ℕ) (mode : ℕ) (done : Response)
        → AreOwned service objects root phases → phases ask.from ≡ idle
        → Leads (shown_of service objects phases) root path chain
        → create (site_in service number) (objects number) ask chain name mode ≡ Ok done
        → Keeps service objects (with_state number done.state objects) root phases phases }
{}

/// The name of a directory to come is kept.
pub fn reserving_keeps()
    ensures { (service : Service) (objects : Objects) (number version : ℕ) (root : Access) (phases : Phases) (ask : Ask)
        (path : List (List ℕ)) (chain : List Entry) (last : Entry) (name : List ℕ) (done : Response)
        → AreOwned service objects root phases → phases ask.from ≡ idle
        → Leads (shown_of service objects phases) root path chain → last_of chain ≡ Some last
        → reserve (site_in service number) (objects number) ask chain name ≡ Ok done
        → done.reply ≡ reply.Reserved version
        → Keeps service objects (with_state number done.state objects) root phases
        (with_phase ask.from (has_reserved (dir_of last.access) name (triple.Of last.access.id name version)) phases) }
{}

/// Its content object is made, with a birth that nothing has.
pub fn making_keeps()
    ensures { (service : Service) (objects : Objects) (at : At) (root : Access) (phases : Phases) (ask : Ask)
        (parent : DirRef) (name : List ℕ) (birth : Triple) (done : Response)
        → AreOwned service objects root phases → phases ask.from ≡ has_reserved parent name birth
        → IsUnborn service objects at.ask_place
        → make (site_in service at.number) (objects at.number) at.ask_place ask birth ≡ Ok done
        → KeepsOlder service at.ask_place objects (with_state at.number done.state objects) root phases
        (with_phase ask.from
        (has_made parent name birth (record { id = identity service.digest birth; born = at.ask_place })) phases) }
{}

/// It is linked under the name that was kept.
pub fn linking_keeps()
    ensures { (service : Service) (objects : Objects) (number mode : ℕ) (root : Access) (phases : Phases) (ask : Ask)
        (chain : List Entry) (last : Entry) (name : List ℕ) (birth : Triple) (made : DirRef) (done : Response)
        → AreOwned service objects root phases → last_of chain ≡ Some last
        → phases ask.from ≡ has_made (dir_of last.access) name birth made
        → link (site_in service number) (objects number) ask chain made mode ≡ Ok done
        → Keeps service objects (with_state number done.state objects) root phases (with_phase ask.from idle phases) }
{}

/// Or its content object is dropped again, and the name is no longer kept.
pub fn undoing_keeps()
    ensures dropped { (service : Service) (objects : Objects) (number : ℕ) (root : Access) (phases : Phases) (ask : Ask)
        (parent made : DirRef) (name : List ℕ) (birth : Triple) (done : Response)
        → AreOwned service objects root phases → phases ask.from ≡ has_made parent name birth made
        → drop_dir (site_in service number) (objects number) ask made ≡ Ok done
        → Keeps service objects (with_state number done.state objects) root phases
        (with_phase ask.from (has_reserved parent name birth) phases) }
    ensures cancelled { (service : Service) (objects : Objects) (number : ℕ) (root : Access)
        (phases : Phases) (ask : Ask)
        (parent : DirRef) (name : List ℕ) (birth : Triple) (done : Response)
        → AreOwned service objects root phases → phases ask.from ≡ has_reserved parent name birth
        → cancel (site_in service number) (objects number) ask parent ≡ Ok done
        → Keeps service objects (with_state number done.state objects) root phases (with_phase ask.from idle phases) }
{}

/// A directory is sealed.
pub fn sealing_keeps()
    ensures { (service : Service) (objects : Objects) (number : ℕ) (root : Access) (phases : Phases) (ask : Ask)
        (path : List (List ℕ)) (chain : List Entry) (parent target : Entry) (name : List ℕ) (done : Response)
        → AreOwned service objects root phases → phases ask.from ≡ idle
        → Leads (shown_of service objects phases) root (path ++ name ∷ []) chain
        → last_of chain ≡ Some target → last_of (before_last chain) ≡ Some parent
        → seal (site_in service number) (objects number) ask chain ≡ Ok done
        → Keeps service objects (with_state number done.state objects) root phases
        (with_phase ask.from (has_sealed (dir_of parent.access) name (dir_of target.access)) phases) }
{}

/// It is unlinked.
pub fn unlinking_keeps()
    ensures { (service : Service) (objects : Objects) (number : ℕ) (root : Access) (phases : Phases) (ask : Ask)
        (chain : List Entry) (parent target : Entry) (dir : DirRef) (name : List ℕ) (done : Response)
        → AreOwned service objects root phases
        → phases ask.from ≡ has_sealed (dir_of parent.access) name (dir_of target.access)
        → last_of chain ≡ Some target → target.key ≡ key.At dir name → last_of (before_last chain) ≡ Some parent
        → unlink (site_in service number) (objects number) ask chain ≡ Ok done
        → Keeps service objects (with_state number done.state objects) root phases
        (with_phase ask.from (has_unlinked (dir_of target.access)) phases) }
{}

/// Its content object is dropped; or it was not unlinked, and its seal is lifted.
pub fn ending_keeps()
    ensures dropped { (service : Service) (objects : Objects) (number : ℕ) (root : Access) (phases : Phases) (ask : Ask)
        (target : DirRef) (done : Response)
        → AreOwned service objects root phases → phases ask.from ≡ has_unlinked target
        → drop_dir (site_in service number) (objects number) ask target ≡ Ok done
        → Keeps service objects (with_state number done.state objects) root phases (with_phase ask.from idle phases) }
    ensures unsealed { (service : Service) (objects : Objects) (number : ℕ) (root : Access)
        (phases : Phases) (ask : Ask)
        (parent target : DirRef) (name : List ℕ) (done : Response)
        → AreOwned service objects root phases → phases ask.from ≡ has_sealed parent name target
        → unseal (site_in service number) (objects number) ask target ≡ Ok done
        → Keeps service objects (with_state number done.state objects) root phases (with_phase ask.from idle phases) }
    ensures forgotten { (service : Service) (objects : Objects) (number : ℕ) (root : Access)
        (phases : Phases) (ask : Ask)
        (parent : Id) (target : DirRef) (done : Response)
        → AreOwned service objects root phases
        → forget (site_in service number) (objects number) parent target ≡ Ok done
        → Keeps service objects (with_state number done.state objects) root phases phases }
{}
