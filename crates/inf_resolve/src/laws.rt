//! Laws of what an attempt asks, and of where its paths lead.

ghost use Rattle.std.specs.Prelude.{◌≡◌, ℕ, ◌-◌, ◌<◌, false, List, length, drop, is_some};
ghost use Rattle.std.specs.List.{AllByRecursion, IsDistinct};
ghost use Rattle.inf_base.specs.declared.caller.CallRef.{CallRef};
ghost use Rattle.inf_base.specs.declared.entry.Entry.{Entry};
ghost use Rattle.inf_base.specs.declared.id.Id.{Id};
ghost use Rattle.inf_base.specs.declared.key.LookKey.{LookKey};
ghost use Rattle.inf_base.specs.declared.key.LookKey.TheVariants as look;
ghost use Rattle.inf_base.specs.Same.{dir_of};
ghost use Rattle.inf_resolve.specs.declared.known.Known.{Known};
ghost use Rattle.inf_resolve.specs.declared.looked.Looked.{Looked};
ghost use Rattle.inf_resolve.specs.declared.resolved.Resolved.TheVariants as comes;
ghost use Rattle.inf_resolve.specs.declared.walked.Walked.{Walked};
ghost use Rattle.inf_resolve.specs.Chain.{IsChain, IsTold};
ghost use Rattle.inf_resolve.specs.InTheWay.{IsInTheWay};
ghost use Rattle.inf_resolve.specs.Known.{is_same_key, told_under};
ghost use Rattle.inf_resolve.specs.Resolved.{resolved};
ghost use Rattle.inf_resolve.specs.Rounds.{IsAnswered, names_left};

/// Each path leads along a chain that begins with the root's entry. Each further one stands under the path's next name
/// in the directory of the one before. All were told, at the places of their stamps. The chain ends with the path, or
/// before a name whose reply leads nowhere.
pub fn chains_were_told()
    ensures old { (digest : List ℕ → Id) (root : Id) (looked : Looked) (known : List Known) (old new : Walked)
        → resolved digest root looked known ≡ comes.Leads old new → IsChain known looked.old old.chain }
    ensures new { (digest : List ℕ → Id) (root : Id) (looked : Looked) (known : List Known) (old new : Walked)
        → resolved digest root looked known ≡ comes.Leads old new → IsChain known looked.new new.chain }
{}

/// The names that are left of a path are those behind its chain.
pub fn names_are_left_behind_chains()
    ensures old { (digest : List ℕ → Id) (root : Id) (looked : Looked) (known : List Known) (old new : Walked)
        → resolved digest root looked known ≡ comes.Leads old new → old.left ≡ drop (length old.chain - 1) looked.old }
    ensures new { (digest : List ℕ → Id) (root : Id) (looked : Looked) (known : List Known) (old new : Walked)
        → resolved digest root looked known ≡ comes.Leads old new → new.left ≡ drop (length new.chain - 1) looked.new }
{}

/// A key is asked once, and not where it is known.
pub fn keys_are_asked_once()
    ensures differ { (digest : List ℕ → Id) (root : Id) (looked : Looked) (known : List Known) (keys : List LookKey)
        → resolved digest root looked known ≡ comes.Asks keys → IsDistinct is_same_key keys }
    ensures unknown { (digest : List ℕ → Id) (root : Id) (looked : Looked) (known : List Known) (keys : List LookKey)
        → resolved digest root looked known ≡ comes.Asks keys
        → AllByRecursion (λ (k : LookKey). is_some (told_under k known) ≡ false) keys }
{}

/// Once the root is told, each further round leads further along one of the paths, so that an attempt has at most one
/// round more than it looks up names.
pub fn rounds_lead_on()
    ensures { (digest : List ℕ → Id) (id : Id) (looked : Looked) (known later : List Known) (root : Entry)
        → (keys more : List LookKey) → IsTold known look.Top root → resolved digest id looked known ≡ comes.Asks keys
        → IsAnswered known keys later → resolved digest id looked later ≡ comes.Asks more
        → names_left (dir_of root.access) looked later < names_left (dir_of root.access) looked known }
{}

/// A round asks for something.
pub fn rounds_ask()
    ensures { (digest : List ℕ → Id) (root : Id) (looked : Looked) (known : List Known) (keys : List LookKey)
        → resolved digest root looked known ≡ comes.Asks keys → 0 < length keys }
{}

/// A change that is in the way was told: to the lookup of the root, or to one in a directory that was told, whose birth
/// it names.
pub fn changes_in_the_way_were_told()
    ensures { (digest : List ℕ → Id) (root : Id) (looked : Looked) (known : List Known) (by : CallRef) (place : ℕ)
        → resolved digest root looked known ≡ comes.IsBusy by place → IsInTheWay known by place }
{}
