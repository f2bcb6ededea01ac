//! What small scripts come to by the definitions of clients and servers: each clause is computed.

ghost use Rattle.std.specs.Prelude.{◌≡◌, [], ◌∷◌, codes};
ghost use Rattle.inf_base.specs.declared.answer.Answer.TheVariants as answer;
ghost use Rattle.inf_base.specs.declared.call.Call.TheVariants as call;
ghost use Rattle.inf_base.specs.declared.errno.Errno.TheVariants as errno;
ghost use Rattle.inf_base.specs.declared.key.LookKey.TheVariants as look;
ghost use Rattle.inf_base.specs.declared.triple.Triple.TheVariants as triple;
ghost use Rattle.inf_duty.specs.Duty.{asks, begun, next_step};
ghost use Rattle.inf_flow_file.specs.declared.file_flow.FileFlow.TheVariants as file;
ghost use Rattle.inf_duty.specs.declared.flow.Flow.TheVariants as flow;
ghost use Rattle.inf_message.specs.declared.turn.Turn.TheVariants as turn;
ghost use Rattle.inf_duty.specs.ClientState.{act, compose, idle, round};
ghost use Rattle.inf_duty.specs.Flow.{clean_up};
ghost use Rattle.inf_flow_dir.specs.DirFlow.{after_unlink};
ghost use Rattle.inf_message.specs.Turn.{ends};
ghost use Rattle.inf_laws_client.specs.Examples.{a_told, after_round, another, answered, busy, cancel, chain_to_a, chain_to_a_from_b, drop_made, forget_moved, link_a, longer, longer_keys, make_a, making, moved, next_of, out_of_memory, root_told, stopped_at_a, the_client, the_maker, told_a, told_in_round, told_in_vain, told_moved, told_root, turn_of, unlink_a, unseal_a};
ghost use Rattle.inf_message.specs.declared.op.Op.TheVariants as op;
ghost use Rattle.inf_message.specs.declared.reply.Reply.TheVariants as reply;
ghost use Rattle.inf_laws_client.specs.Run.{alone, digest, ended_at, opening_run, results, crossing_run, shows, zero_id};

/// A directory is made, gets a file, and cannot be removed; an empty one is removed, and leaves nothing behind.
pub fn example_of_whole_lives()
    ensures full { shows 40 (call.Mkdir (codes "/a") 0o755 ∷ call.Create (codes "/a/f") 0o644
        ∷ call.Rmdir (codes "/a") ∷ [])
        ≡ ended_at answer.Done 8 1 8 4 ∷ ended_at answer.Done 14 9 14 3
        ∷ ended_at (answer.Refused errno.ENOTEMPTY) 20 15 20 3 ∷ [] }
    ensures empty { shows 40 (call.Mkdir (codes "/a") 0o755 ∷ call.Rmdir (codes "/a") ∷ [])
        ≡ ended_at answer.Done 8 1 8 4 ∷ ended_at answer.Done 16 9 18 5 ∷ [] }
    ensures nothing_left { (alone 40 (call.Mkdir (codes "/a") 0o755 ∷ call.Rmdir (codes "/a") ∷ [])).servers
        ≡ (opening_run 1 []).servers }
{}

/// A directory that one client has sealed is not used by another, and goes.
pub fn example_of_removals_and_creations()
    ensures made { results 1 crossing_run
        ≡ ended_at (answer.Again (record { client = 0; number = 2 })) 20 15 20 3 ∷ [] }
    ensures removed { results 0 crossing_run ≡ ended_at answer.Done 8 1 8 4 ∷ ended_at answer.Done 22 9 24 5 ∷ [] }
{}

/// A path stops at a name where nothing stands, or a file.
pub fn example_of_paths()
    ensures stops { shows 60 (call.Create (codes "/f") 0o644 ∷ call.Stat (codes "/f/b") ∷ call.Rmdir (codes "/f")
        ∷ call.Rmdir (codes "/x") ∷ call.Stat (codes "/x/y") ∷ [])
        ≡ ended_at answer.Done 4 1 4 2 ∷ ended_at (answer.Refused errno.ENOTDIR) 10 5 10 3
        ∷ ended_at (answer.Refused errno.ENOTDIR) 16 11 16 3 ∷ ended_at (answer.Refused errno.ENOENT) 22 17 22 3
        ∷ ended_at (answer.Refused errno.ENOENT) 28 23 28 3 ∷ [] }
{}

/// Two directories whose identifiers are equal: the second is not made, and its name is free again.
pub fn example_of_clashes()
    ensures clash { shows 40 (call.Mkdir (codes "/xa") 0o755 ∷ call.Mkdir (codes "/ya") 0o755
        ∷ call.Stat (codes "/ya") ∷ [])
        ≡ ended_at answer.Done 8 1 8 4
        ∷ ended_at (answer.IdClash (triple.Of zero_id (codes "ya") 0) (triple.Of zero_id (codes "xa") 0)) 14 9 16 4
        ∷ ended_at (answer.Refused errno.ENOENT) 20 17 20 2 ∷ [] }
{}

/// What is cleaned up behind each message of a flow, and what follows the unlinking.
pub fn example_of_clean_ups()
    ensures making { clean_up the_client make_a ≡ (cancel ∷ []) ∷ [] }
    ensures linking { clean_up the_client link_a ≡ (drop_made ∷ []) ∷ (cancel ∷ []) ∷ [] }
    ensures unlinking { clean_up the_client unlink_a ≡ (unseal_a ∷ []) ∷ [] }
    ensures unlinked { after_unlink the_client chain_to_a ≡ (drop_made ∷ []) ∷ [] }
    ensures moved { after_unlink the_client chain_to_a_from_b ≡ (drop_made ∷ []) ∷ (forget_moved ∷ []) ∷ [] }
{}

/// A client that wants memory before it makes the content object takes back the name instead.
pub fn example_of_wanting_memory()
    ensures { next_step (begun digest (making cancel.request) [] the_maker)
        ≡ asks cancel.number (making cancel.request) }
{}

/// What comes of the answers to a round of two lookups: a name is followed where it links to the directory before it; a
/// change in that directory is in the way; and a reply that memory is wanting ends the call, whatever the others say.
pub fn example_of_rounds()
    ensures linked { next_of (after_round (told_root ∷ told_a 0 ∷ []))
        ≡ act (flow.File (file.Finishes (root_told ∷ a_told ∷ []) (op.Stat (codes "f")))) }
    ensures of_another_birth { next_of (after_round (told_root ∷ told_a 7 ∷ [])) ≡ stopped_at_a }
    ensures busy { turn_of (after_round (told_root ∷ busy 2 4 0 ∷ [])) ≡ ends (answer.Again another) 4 }
    ensures busy_elsewhere { turn_of (after_round (told_root ∷ busy 2 4 7 ∷ [])) ≡ turn.GoesOn compose }
    ensures stopped { next_of (after_round (told_root ∷ busy 2 4 7 ∷ [])) ≡ stopped_at_a }
    ensures busy_at_top { turn_of (after_round (busy 1 3 7 ∷ told_a 0 ∷ [])) ≡ ends (answer.Again another) 3 }
    ensures wanting { turn_of (after_round (busy 1 3 7 ∷ answered 2 4 reply.NoMem ∷ [])) ≡ out_of_memory }
{}

/// The second of three directories has another identifier than the predicted one: a further round asks for the one
/// lookup in it, whatever was told where it was predicted.
pub fn example_of_a_further_round()
    ensures first { next_of (idle the_client (longer ∷ [])) ≡ round longer_keys }
    ensures goes_on { turn_of (told_in_round longer longer_keys
        (told_root ∷ told_a 0 ∷ told_moved ∷ told_in_vain ∷ [])) ≡ turn.GoesOn compose }
    ensures further { next_of (told_in_round longer longer_keys
        (told_root ∷ told_a 0 ∷ told_moved ∷ told_in_vain ∷ [])) ≡ round (look.At moved.id (codes "c") ∷ []) }
{}
