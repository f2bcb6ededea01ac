//! Laws of servers as machines.

ghost use Rattle.std.specs.Prelude.{◌≡◌, ◌≤◌, ℕ, true, false, Option, Some, None, List, [], ◌∷◌, Err};
ghost use Rattle.std.specs.List.{list_all};
ghost use Rattle.inf_base.specs.declared.caller.CallRef.{CallRef};
ghost use Rattle.inf_base.specs.declared.entry.Entry.{Entry};
ghost use Rattle.inf_base.specs.declared.id.Id.{Id};
ghost use Rattle.inf_base.specs.declared.triple.Triple.{Triple};
ghost use Rattle.inf_base.specs.Identity.{identity};
ghost use Rattle.inf_message.specs.declared.ask.Ask.{Ask};
ghost use Rattle.inf_message.specs.declared.reply.Reply.{Reply};
ghost use Rattle.inf_message.specs.declared.reply.Reply.TheVariants as reply;
ghost use Rattle.inf_message.specs.History.{Served, served_ask};
ghost use Rattle.inf_server.specs.Chains.{has_entry};
ghost use Rattle.inf_server.specs.Births.{make};
ghost use Rattle.inf_server.specs.Checks.{asked_of};
ghost use Rattle.inf_server.specs.Lookups.{lookup_at, lookup_top};
ghost use Rattle.inf_server.specs.Machine.{Serves, state_after};
ghost use Rattle.inf_server.specs.Server.{site};
ghost use Rattle.inf_server.specs.State.{Site, State, is_here, opening, root_id};

/// A server that serves as it may is in the state that what it has served tells.
pub fn states_follow_serves()
    ensures first { (here : Site) → state_after here [] ≡ opening here }
    ensures next { (here : Site) (earlier : List Served) (place : ℕ) (ask : Ask) (reply : Reply) (new : State)
        → Serves here (state_after here earlier) place ask reply new
        → state_after here (served_ask ask place reply ∷ earlier) ≡ new }
{}

/// A request that asks a directory which another server keeps, or none, is turned away, and so is one that names such a
/// directory, or carries a chain without an entry.
pub fn others_are_turned_away()
    ensures lookups { (here : Site) (state : State) → is_here here (root_id here) ≡ false
        → lookup_top here state ≡ Err reply.Other }
    ensures asked { (here : Site) (state : State) (by : CallRef) (asked : Option Entry) (carried : List (List Entry))
        (entry : Entry) → asked ≡ Some entry → is_here here entry.access.id ≡ false
        → asked_of here state by asked carried ≡ Err reply.Other }
    ensures none_asked { (here : Site) (state : State) (by : CallRef) (carried : List (List Entry))
        → asked_of here state by None carried ≡ Err reply.Other }
    ensures empty_chains { (here : Site) (state : State) (by : CallRef) (entry : Entry) (carried : List (List Entry))
        → is_here here entry.access.id ≡ true → list_all has_entry carried ≡ false
        → asked_of here state by (Some entry) carried ≡ Err reply.Other }
    ensures names { (here : Site) (state : State) (id : Id) (name : List ℕ) → is_here here id ≡ false
        → lookup_at here state id name ≡ Err reply.Other }
    ensures births { (here : Site) (state : State) (place : ℕ) (ask : Ask) (birth : Triple)
        → is_here here (identity here.digest birth) ≡ false → make here state place ask birth ≡ Err reply.Other }
{}

/// The coordinator, whose number is that of the servers, keeps no directory.
pub fn coordinators_keep_nothing()
    ensures contents { (servers : ℕ) (digest : List ℕ → Id) → 1 ≤ servers
        → (opening (site servers servers digest)).contents ≡ [] }
    ensures top { (servers : ℕ) (digest : List ℕ → Id) → 1 ≤ servers
        → (opening (site servers servers digest)).top ≡ None }
{}
