//! What a request that is served does to what stands in the directories.

ghost use Rattle.std.specs.Prelude.{◌≡◌, ℕ, List, Some, Ok};
ghost use Rattle.inf_base.specs.declared.access.Access.{Access};
ghost use Rattle.inf_base.specs.declared.caller.CallRef.{CallRef};
ghost use Rattle.inf_base.specs.declared.directory.DirRef.{DirRef};
ghost use Rattle.inf_base.specs.declared.entry.Entry.{Entry};
ghost use Rattle.inf_base.specs.declared.key.Key.TheVariants as key;
ghost use Rattle.inf_base.specs.declared.triple.Triple.{Triple};
ghost use Rattle.inf_base.specs.Content.{reserved};
ghost use Rattle.inf_base.specs.Same.{dir_of};
ghost use Rattle.inf_content.specs.Order.{AreInOrder};
ghost use Rattle.inf_content.specs.Slot.{linked, reserves};
ghost use Rattle.inf_content.specs.Slots.{first};
ghost use Rattle.inf_laws_directory.specs.At.{At};
ghost use Rattle.inf_laws_directory.specs.Changes.{Puts, Takes};
ghost use Rattle.inf_laws_directory.specs.Objects.{Objects, Service, content_in, site_in, slots_kept};
ghost use Rattle.inf_laws_directory.specs.Serves.{IsUnseen, IsUnseenBeside, StandsAs, directories_after};
ghost use Rattle.inf_laws_directory.specs.Things.{a_dir, a_file, thing_under};
ghost use Rattle.inf_message.specs.declared.ask.Ask.{Ask};
ghost use Rattle.inf_server.specs.Births.{cancel, link, make, reserve};
ghost use Rattle.inf_server.specs.Chains.{before_last, last_of};
ghost use Rattle.inf_server.specs.Files.{create, new_file};
ghost use Rattle.inf_server.specs.Machine.{machine};
ghost use Rattle.inf_server.specs.Removals.{drop_dir, seal, unlink, unseal};
ghost use Rattle.inf_server.specs.Response.{Response};
ghost use Rattle.inf_server.specs.State.{Site, State, opening};

/// Each server keeps its objects in order, from the first on and whatever it serves.
pub fn objects_stay_in_order()
    ensures opening { (site : Site) → AreInOrder (opening site).contents }
    ensures next { (site : Site) (state : State) (place : ℕ) (ask : Ask) → AreInOrder state.contents
        → AreInOrder (machine site state place ask).state.contents }
{}

/// A file that is created comes under its name.
pub fn creating_puts_a_file()
    ensures { (service : Service) (objects : Objects) (number : ℕ) (ask : Ask) (chain : List Entry) (last : Entry)
        (name : List ℕ) (mode : ℕ) (done : Response)
        → create (site_in service number) (objects number) ask chain name mode ≡ Ok done → last_of chain ≡ Some last
        → Puts (content_in service objects) (directories_after service objects number done.state)
        (dir_of last.access) name (a_file (new_file ask.caller mode)) }
{}

/// The name of a directory to come, its content object, and seals are not seen.
pub fn preparing_is_unseen()
    ensures reserving { (service : Service) (objects : Objects) (number : ℕ) (ask : Ask) (chain : List Entry)
        (name : List ℕ) (done : Response)
        → reserve (site_in service number) (objects number) ask chain name ≡ Ok done
        → IsUnseen (content_in service objects) (directories_after service objects number done.state) }
    ensures making { (service : Service) (objects : Objects) (at : At) (ask : Ask) (birth : Triple) (done : Response)
        → make (site_in service at.number) (objects at.number) at.ask_place ask birth ≡ Ok done
        → IsUnseen (content_in service objects) (directories_after service objects at.number done.state) }
    ensures cancelling { (service : Service) (objects : Objects) (number : ℕ) (ask : Ask) (dir : DirRef)
        (done : Response)
        → AreInOrder (objects number).contents → cancel (site_in service number) (objects number) ask dir ≡ Ok done
        → IsUnseen (content_in service objects) (directories_after service objects number done.state) }
    ensures sealing { (service : Service) (objects : Objects) (number : ℕ) (ask : Ask) (chain : List Entry)
        (done : Response)
        → seal (site_in service number) (objects number) ask chain ≡ Ok done
        → IsUnseen (content_in service objects) (directories_after service objects number done.state) }
    ensures unsealing { (service : Service) (objects : Objects) (number : ℕ) (ask : Ask) (dir : DirRef)
        (done : Response)
        → unseal (site_in service number) (objects number) ask dir ≡ Ok done
        → IsUnseen (content_in service objects) (directories_after service objects number done.state) }
{}

/// A directory that is linked comes under the name that the call reserved first.
pub fn linking_puts_a_directory()
    ensures { (service : Service) (objects : Objects) (number : ℕ) (ask : Ask) (chain : List Entry) (last : Entry)
        (dir : DirRef) (mode : ℕ) (name : List ℕ) (by : CallRef) (access : Access) (done : Response)
        → AreInOrder (objects number).contents
        → link (site_in service number) (objects number) ask chain dir mode ≡ Ok done → last_of chain ≡ Some last
        → first (reserves ask.from) (slots_kept service objects (dir_of last.access)) ≡ Some (name, reserved by access)
        → Puts (content_in service objects) (directories_after service objects number done.state)
        (dir_of last.access) name (a_dir (linked (Some (dir, mode, ask.caller)) access)) }
{}

/// A directory that is unlinked goes from under its name, where it stood.
pub fn unlinking_takes_the_directory()
    ensures stood { (service : Service) (objects : Objects) (number : ℕ) (ask : Ask) (chain : List Entry)
        (target parent : Entry) (dir : DirRef) (name : List ℕ) (done : Response)
        → unlink (site_in service number) (objects number) ask chain ≡ Ok done → last_of chain ≡ Some target
        → target.key ≡ key.At dir name → last_of (before_last chain) ≡ Some parent
        → StandsAs (dir_of target.access) (thing_under name (dir_of parent.access) (content_in service objects)) }
    ensures takes { (service : Service) (objects : Objects) (number : ℕ) (ask : Ask) (chain : List Entry)
        (target parent : Entry) (dir : DirRef) (name : List ℕ) (done : Response)
        → AreInOrder (objects number).contents
        → unlink (site_in service number) (objects number) ask chain ≡ Ok done → last_of chain ≡ Some target
        → target.key ≡ key.At dir name → last_of (before_last chain) ≡ Some parent
        → Takes (content_in service objects) (directories_after service objects number done.state)
        (dir_of parent.access) name }
{}

/// A content object that is dropped leaves all other directories.
pub fn dropping_leaves_others()
    ensures { (service : Service) (objects : Objects) (number : ℕ) (ask : Ask) (dir : DirRef) (done : Response)
        → AreInOrder (objects number).contents → drop_dir (site_in service number) (objects number) ask dir ≡ Ok done
        → IsUnseenBeside dir (content_in service objects) (directories_after service objects number done.state) }
{}
