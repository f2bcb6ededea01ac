//! What lookups tell is true when it is told, and is what they asked for; and what reservations and seals rest on.

ghost use Rattle.std.specs.Prelude.{◌≡◌, ℕ, List, Some, Ok};
ghost use Rattle.inf_base.specs.declared.access.Access.{Access};
ghost use Rattle.inf_base.specs.declared.entry.Entry.{Entry};
ghost use Rattle.inf_base.specs.declared.id.Id.{Id};
ghost use Rattle.inf_base.specs.declared.item.Item.{Item};
ghost use Rattle.inf_base.specs.declared.key.Key.{Key};
ghost use Rattle.inf_base.specs.declared.key.Key.TheVariants as key;
ghost use Rattle.inf_base.specs.declared.key.LookKey.TheVariants as look;
ghost use Rattle.inf_laws_directory.specs.At.{At};
ghost use Rattle.inf_laws_directory.specs.Looked.{IsKeyIn, IsLookup};
ghost use Rattle.inf_laws_directory.specs.Objects.{Objects, Service, site_in, with_state};
ghost use Rattle.inf_laws_directory.specs.Owes.{MayWriteAt};
ghost use Rattle.inf_laws_directory.specs.Phases.{Phases};
ghost use Rattle.inf_laws_directory.specs.Replays.{MayWrite};
ghost use Rattle.inf_laws_directory.specs.Root.{NoOtherRoot, RootStands};
ghost use Rattle.inf_laws_directory.specs.Told.{IsToldAs};
ghost use Rattle.inf_message.specs.declared.ask.Ask.{Ask};
ghost use Rattle.inf_message.specs.declared.reply.Reply.{Reply};
ghost use Rattle.inf_message.specs.declared.reply.Reply.TheVariants as reply;
ghost use Rattle.inf_message.specs.declared.request.Request.TheVariants as request;
ghost use Rattle.inf_server.specs.Births.{reserve};
ghost use Rattle.inf_server.specs.Chains.{before_last, last_of};
ghost use Rattle.inf_server.specs.Lookups.{lookup_at, lookup_top};
ghost use Rattle.inf_server.specs.Removals.{seal};
ghost use Rattle.inf_server.specs.Response.{Response};
ghost use Rattle.inf_server.specs.Machine.{Serves, machine};
ghost use Rattle.inf_server.specs.State.{Site, State, opening, root_access};

/// A lookup tells the root's access object as the root's, and any other under the name where it stands.
pub fn lookups_tell_the_truth()
    ensures names { (service : Service) (objects : Objects) (number : ℕ) (root : Access) (phases : Phases) (id : Id)
        (name : List ℕ) (key : Key) (access : Access) (done : Response)
        → lookup_at (site_in service number) (objects number) id name ≡ Ok done → done.reply ≡ reply.Found key access
        → IsToldAs service objects root phases key access }
    ensures top { (service : Service) (objects : Objects) (number : ℕ) (root : Access) (phases : Phases) (key : Key)
        (access : Access) (done : Response)
        → NoOtherRoot service objects root
        → lookup_top (site_in service number) (objects number) ≡ Ok done → done.reply ≡ reply.Found key access
        → IsToldAs service objects root phases key access }
{}

/// A name that is kept, and a seal that is set, rest on permissions that the chain gives.
pub fn reservations_and_seals_ask_permission()
    ensures reservations { (service : Service) (objects : Objects) (number : ℕ) (ask : Ask) (chain : List Entry)
        (last : Entry) (name : List ℕ) (done : Response)
        → reserve (site_in service number) (objects number) ask chain name ≡ Ok done → last_of chain ≡ Some last
        → MayWrite ask.caller chain last }
    ensures seals { (service : Service) (objects : Objects) (number : ℕ) (ask : Ask) (chain : List Entry)
        (parent : Entry)
        (done : Response)
        → seal (site_in service number) (objects number) ask chain ≡ Ok done → last_of (before_last chain) ≡ Some parent
        → MayWrite ask.caller (before_last chain) parent }
{}

/// The root's access object stands at the root's server alone, whatever is served.
pub fn the_root_stays()
    ensures opening { (service : Service)
        → RootStands service (λ number. opening (site_in service number)) (root_access (site_in service 0)) }
    ensures next { (site : Site) (state : State) (place : ℕ) (ask : Ask)
        → (machine site state place ask).state.top ≡ state.top }
    ensures alone { (service : Service) (objects : Objects) (root : Access)
        → RootStands service objects root → NoOtherRoot service objects root }
{}

/// Only lookups are told of an access object, under the key that they asked for; listings are told to nobody yet.
pub fn lookups_answer_what_was_asked()
    ensures top { (service : Service) (at : At) (state new : State) (ask : Ask) (given : Reply) (k : Key)
        (access : Access)
        → Serves (site_in service at.number) state at.ask_place ask given new → ask.request ≡ request.Lookup look.Top
        → given ≡ reply.Found k access → k ≡ key.Top }
    ensures names { (service : Service) (at : At) (state new : State) (ask : Ask) (given : Reply) (id : Id)
        (name : List ℕ) (k : Key) (access : Access)
        → Serves (site_in service at.number) state at.ask_place ask given new
        → ask.request ≡ request.Lookup (look.At id name) → given ≡ reply.Found k access → IsKeyIn id name k }
    ensures lookups { (service : Service) (at : At) (state new : State) (ask : Ask) (given : Reply) (k : Key)
        (access : Access)
        → Serves (site_in service at.number) state at.ask_place ask given new → given ≡ reply.Found k access
        → IsLookup ask.request }
    ensures no_listing { (service : Service) (at : At) (state new : State) (ask : Ask) (items : List Item)
        → Serves (site_in service at.number) state at.ask_place ask (reply.Listing items) new → ⊥ }
{}

/// What a Serve tells of an access object is true.
pub fn what_is_told_is_true()
    ensures { (service : Service) (objects : Objects) (at : At) (root : Access) (phases : Phases) (ask : Ask)
        (k : Key) (access : Access) (new : State)
        → NoOtherRoot service objects root
        → Serves (site_in service at.number) (objects at.number) at.ask_place ask (reply.Found k access) new
        → IsToldAs service objects root phases k access }
{}

/// The root's access object stands after a Serve as it stood; where no server had another, none has.
pub fn the_root_is_kept()
    ensures root { (service : Service) (objects : Objects) (at : At) (root : Access) (ask : Ask) (given : Reply)
        (new : State)
        → RootStands service objects root
        → Serves (site_in service at.number) (objects at.number) at.ask_place ask given new
        → RootStands service (with_state at.number new objects) root }
    ensures alone { (service : Service) (objects : Objects) (at : At) (root : Access) (ask : Ask) (given : Reply)
        (new : State)
        → NoOtherRoot service objects root
        → Serves (site_in service at.number) (objects at.number) at.ask_place ask given new
        → NoOtherRoot service (with_state at.number new objects) root }
{}

/// A name is kept, and a directory sealed, for a caller that may write to the directory that this changes.
pub fn permissions_are_asked_first()
    ensures reservations { (service : Service) (at : At) (state new : State) (ask : Ask) (given : Reply)
        (chain : List Entry) (name : List ℕ) (version : ℕ)
        → Serves (site_in service at.number) state at.ask_place ask given new → ask.request ≡ request.Reserve chain name
        → given ≡ reply.Reserved version → MayWriteAt ask.caller chain }
    ensures seals { (service : Service) (at : At) (state new : State) (ask : Ask) (given : Reply)
        (chain : List Entry)
        → Serves (site_in service at.number) state at.ask_place ask given new → ask.request ≡ request.Seal chain
        → given ≡ reply.Fine → MayWriteAt ask.caller (before_last chain) }
{}
