//! Laws of clients: what they know is what they were told, and what they ask and send follows the path of their call.

ghost use Rattle.std.specs.Prelude.{◌≡◌, ℕ, List, ◌∷◌, All, Some};
ghost use Rattle.inf_base.specs.declared.access.Access.{Access};
ghost use Rattle.inf_base.specs.declared.call.Call.{Call};
ghost use Rattle.inf_base.specs.declared.entry.Entry.{Entry};
ghost use Rattle.inf_base.specs.declared.id.Id.{Id};
ghost use Rattle.inf_message.specs.declared.ask.Ask.{Ask};
ghost use Rattle.inf_message.specs.declared.reply.Reply.{Reply};
ghost use Rattle.inf_message.specs.declared.request.Request.{Request};
ghost use Rattle.inf_message.specs.History.{Told};
ghost use Rattle.inf_message.specs.Sent.{Sent};
ghost use Rattle.inf_server.specs.Chains.{chains_of};
ghost use Rattle.inf_laws_client.specs.Asked.{AnswersAsked, AsksItsGroup, Posting, WasAsked};
ghost use Rattle.inf_duty.specs.ClientState.{ClientState, idle, placed};
ghost use Rattle.inf_duty.specs.Flow.{after_act};
ghost use Rattle.inf_duty.specs.Group.{composed, stage_by};
ghost use Rattle.inf_duty.specs.declared.course.Course.{Course};
ghost use Rattle.inf_duty.specs.Course.{course_of};
ghost use Rattle.inf_duty.specs.Turn.{served};
ghost use Rattle.inf_duty.specs.declared.flow.Flow.{Flow};
ghost use Rattle.inf_message.specs.Who.{Who};
ghost use Rattle.inf_resolve.specs.declared.known.Known.{Known};
ghost use Rattle.inf_resolve.specs.Resolved.{resolved};
ghost use Rattle.inf_duty.specs.Duty.{asks, begun, given_up, next_step};
ghost use Rattle.inf_laws_client.specs.Paths.{Follows, KeepsToPath, StageFollows, TurnFollows, names_of};
ghost use Rattle.inf_laws_client.specs.Told.{AnswersLookup, AreKnownFor, CarriesOnly, IsAmong, IsChainOf, KnowsOnly, LinksUp, TellsOnly};
ghost use Rattle.inf_laws_directory.specs.Objects.{Objects, Service};
ghost use Rattle.inf_laws_directory.specs.Phases.{Phases};
ghost use Rattle.inf_laws_directory.specs.Standing.{IsToldAlong};
ghost use Rattle.inf_laws_directory.specs.Told.{IsToldAs};

/// A client knows what it was told, and links it into chains from the root on; `proofs/` says the same of whatever is
/// true of all that is told.
pub fn clients_know_what_they_were_told()
    ensures start { (told_so : List Entry) (who : Who) (calls : List Call)
        → KnowsOnly (IsAmong told_so) (idle who calls) }
    ensures composing { (digest : List ℕ → Id) (told_so : List Entry) (s : ClientState)
        → KnowsOnly (IsAmong told_so) s → KnowsOnly (IsAmong told_so) (composed digest s) }
    ensures giving_up { (told_so : List Entry) (s : ClientState)
        → KnowsOnly (IsAmong told_so) s → KnowsOnly (IsAmong told_so) (given_up s) }
    ensures beginning { (digest : List ℕ → Id) (told_so : List Entry) (s : ClientState) (ask : Ask)
        → KnowsOnly (IsAmong told_so) s → KnowsOnly (IsAmong told_so) (begun digest ask s.sent s) }
    ensures asking { (told_so : List Entry) (s : ClientState) (place number : ℕ) (ask : Ask)
        → KnowsOnly (IsAmong told_so) s → next_step s ≡ asks number ask
        → KnowsOnly (IsAmong told_so) (placed place s) }
    ensures telling { (digest : List ℕ → Id) (told_so : List Entry) (s : ClientState) (place : ℕ) (told : Told)
        → KnowsOnly (IsAmong told_so) s → TellsOnly (IsAmong told_so) told.serve_place told.reply
        → AnswersLookup s.stage s.sent place told.reply → KnowsOnly (IsAmong told_so) (served digest place told s) }
    ensures more { (told_so others : List Entry) (s : ClientState)
        → ((entry : Entry) → IsAmong told_so entry → IsAmong others entry)
        → KnowsOnly (IsAmong told_so) s → KnowsOnly (IsAmong others) s }
{}

/// Each chain that a client sends is of what it was told.
pub fn what_is_sent_was_told()
    ensures { (told_so : List Entry) (s : ClientState) (number : ℕ) (ask : Ask)
        → KnowsOnly (IsAmong told_so) s → next_step s ≡ asks number ask
        → All (λ (chain : List Entry). IsChainOf (IsAmong told_so) chain) (chains_of ask.request) }
{}

/// A flow begins on the path of its call, where each lookup of a name is told under that name, and stays on it.
pub fn flows_follow_paths()
    ensures begins { (digest : List ℕ → Id) (root : Id) (asked : Call) (course : Course) (known : List Known)
        → course_of asked ≡ Some course → AreKnownFor known
        → StageFollows asked (stage_by course.deed (resolved digest root course.looked known)) }
    ensures goes_on { (digest : List ℕ → Id) (who : Who) (asked : Call) (flow : Flow) (sent : List Sent)
        → Follows asked flow → TurnFollows asked (after_act digest who flow sent) }
{}

/// A client keeps to the path of the call under way, where each lookup of a name is told under that name.
pub fn clients_keep_to_paths()
    ensures start { (digest : List ℕ → Id) (who : Who) (calls : List Call) → KeepsToPath (idle who calls) }
    ensures composing { (digest : List ℕ → Id) (s : ClientState) → KeepsToPath s
        → KeepsToPath (composed digest s) }
    ensures giving_up { (digest : List ℕ → Id) (s : ClientState) → KeepsToPath s
        → KeepsToPath (given_up s) }
    ensures beginning { (digest : List ℕ → Id) (s : ClientState) (ask : Ask) → KeepsToPath s
        → KeepsToPath (begun digest ask s.sent s) }
    ensures asking { (digest : List ℕ → Id) (s : ClientState) (place number : ℕ) (ask : Ask)
        → KeepsToPath s → next_step s ≡ asks number ask → KeepsToPath (placed place s) }
    ensures telling { (digest : List ℕ → Id) (s : ClientState) (place : ℕ) (told : Told)
        → KeepsToPath s → AnswersLookup s.stage s.sent place told.reply
        → KeepsToPath (served digest place told s) }
{}

/// A client asks the messages of its group in their order, so that what answers what was asked at a place answers the
/// client's lookup there.
pub fn clients_ask_their_groups()
    ensures start { (postings : List Posting) (who : Who) (calls : List Call)
        → AsksItsGroup (WasAsked postings) (idle who calls) }
    ensures composing { (digest : List ℕ → Id) (postings : List Posting) (s : ClientState)
        → AsksItsGroup (WasAsked postings) s → AsksItsGroup (WasAsked postings) (composed digest s) }
    ensures giving_up { (postings : List Posting) (s : ClientState)
        → AsksItsGroup (WasAsked postings) s → AsksItsGroup (WasAsked postings) (given_up s) }
    ensures beginning { (digest : List ℕ → Id) (postings : List Posting) (s : ClientState) (ask : Ask)
        → AsksItsGroup (WasAsked postings) s → AsksItsGroup (WasAsked postings) (begun digest ask s.sent s) }
    ensures asking { (postings : List Posting) (s : ClientState) (place number : ℕ) (ask : Ask)
        → AsksItsGroup (WasAsked postings) s → next_step s ≡ asks number ask → WasAsked postings place ask.request
        → AsksItsGroup (WasAsked postings) (placed place s) }
    ensures telling { (digest : List ℕ → Id) (postings : List Posting) (s : ClientState) (place : ℕ) (told : Told)
        → AsksItsGroup (WasAsked postings) s → AsksItsGroup (WasAsked postings) (served digest place told s) }
    ensures more { (postings others : List Posting) (s : ClientState)
        → ((place : ℕ) (asked : Request) → WasAsked postings place asked → WasAsked others place asked)
        → AsksItsGroup (WasAsked postings) s → AsksItsGroup (WasAsked others) s }
    ensures lookups { (postings : List Posting) (s : ClientState) (place : ℕ) (reply : Reply)
        → AsksItsGroup (WasAsked postings) s → AnswersAsked (WasAsked postings) place reply
        → AnswersLookup s.stage s.sent place reply }
{}

/// A chain that carries only entries which are true now or whose directories are gone, and that links up, is one that
/// was told along its names: it is what the laws of directories ask of a request.
pub fn chains_are_told_along()
    ensures { (service : Service) (objects : Objects) (root : Access) (phases : Phases) (chain : List Entry)
        → CarriesOnly (λ (e : Entry). IsToldAs service objects root phases e.key e.access) chain → LinksUp chain
        → IsToldAlong service objects root phases (names_of chain) chain }
{}
