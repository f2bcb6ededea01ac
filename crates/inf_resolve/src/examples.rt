//! What becomes of small attempts: each clause is computed.

ghost use Rattle.std.specs.Prelude.{◌≡◌, [], ◌∷◌};
ghost use Rattle.inf_base.specs.declared.key.LookKey.TheVariants as look;
ghost use Rattle.inf_message.specs.declared.reply.Reply.TheVariants as reply;
ghost use Rattle.inf_resolve.specs.declared.resolved.Resolved.TheVariants as comes;
ghost use Rattle.inf_resolve.specs.Examples.{a, b, busy, c, entry_in, first, later, leads, one_path, other_call, root};
ghost use Rattle.inf_resolve.specs.Examples.{second, told, told_dir, told_of_root, told_root, top, two_paths};

/// One name: the root and the name are asked together, and told in any order.
pub fn example_of_one_name()
    ensures asks { one_path (a ∷ []) [] ≡ comes.Asks (look.Top ∷ look.At root a ∷ []) }
    ensures goes { one_path (a ∷ []) (told_dir top a first 4 ∷ told_root 3 ∷ [])
        ≡ leads 3 (entry_in top a first 4 ∷ []) [] }
    ensures stops { one_path (a ∷ []) (told_root 3 ∷ told root a (reply.Absent 0) 4 ∷ []) ≡ leads 3 [] (a ∷ []) }
    ensures busy_root { one_path (a ∷ []) (told_of_root (busy 8) 3 ∷ []) ≡ comes.IsBusy other_call 3 }
    ensures lacks { one_path (a ∷ []) (told_of_root reply.Other 3 ∷ []) ≡ comes.Lacks }
{}

/// Two names that are told as they were predicted take one round.
pub fn example_of_two_names()
    ensures asks { one_path (a ∷ b ∷ []) [] ≡ comes.Asks (look.Top ∷ look.At root a ∷ look.At first.id b ∷ []) }
    ensures goes { one_path (a ∷ b ∷ []) (told_root 4 ∷ told_dir top a first 5 ∷ told_dir first b second 6 ∷ [])
        ≡ leads 4 (entry_in top a first 5 ∷ entry_in first b second 6 ∷ []) [] }
{}

/// The second of three names is told with another identifier: a further round looks up the third in it, whatever was
/// told of the third where it was predicted.
pub fn example_of_another_identifier()
    ensures asks { one_path (a ∷ b ∷ c ∷ []) (told_root 5 ∷ told_dir top a first 6 ∷ told_dir first b later 7
        ∷ told second.id c (busy later.born) 8 ∷ []) ≡ comes.Asks (look.At later.id c ∷ []) }
    ensures goes { one_path (a ∷ b ∷ c ∷ []) (told_root 5 ∷ told_dir top a first 6 ∷ told_dir first b later 7
        ∷ told second.id c reply.NoDir 8 ∷ told later.id c (reply.IsFile 11) 10 ∷ [])
        ≡ leads 5 (entry_in top a first 6 ∷ entry_in first b later 7 ∷ []) (c ∷ []) }
{}

/// Two paths that share their first name ask it once.
pub fn example_of_two_paths()
    ensures { two_paths (a ∷ b ∷ []) (a ∷ c ∷ []) []
        ≡ comes.Asks (look.Top ∷ look.At root a ∷ look.At first.id b ∷ look.At first.id c ∷ []) }
{}

/// A change that is in the way in the directory that the path comes to decides, the old path's first; one of another
/// birth does not.
pub fn example_of_changes_in_the_way()
    ensures behind_root { one_path (a ∷ []) (told_root 3 ∷ told root a (busy 0) 4 ∷ []) ≡ comes.IsBusy other_call 4 }
    ensures old_first { two_paths (a ∷ []) (b ∷ []) (told_root 3 ∷ told root b (busy 0) 4
        ∷ told root a (busy 0) 5 ∷ []) ≡ comes.IsBusy other_call 5 }
    ensures of_another_birth { one_path (a ∷ b ∷ [])
        (told_root 3 ∷ told_dir top a first 4 ∷ told first.id b (busy 6) 5 ∷ [])
        ≡ leads 3 (entry_in top a first 4 ∷ []) (b ∷ []) }
{}
