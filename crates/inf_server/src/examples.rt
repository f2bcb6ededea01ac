//! What servers reply in small states: each clause is computed.

ghost use Rattle.std.specs.Prelude.{◌≡◌, [], ◌∷◌, codes, Some, None};
ghost use Rattle.inf_base.specs.declared.errno.Errno.TheVariants as errno;
ghost use Rattle.inf_base.specs.declared.item.Kind.TheVariants as kind;
ghost use Rattle.inf_base.specs.declared.key.Key.TheVariants as key;
ghost use Rattle.inf_base.specs.declared.triple.Triple.TheVariants as triple;
ghost use Rattle.inf_base.specs.Content.{file};
ghost use Rattle.inf_content.specs.Contents.{access_found, content_at, empty_content, look};
ghost use Rattle.inf_content.specs.declared.seen.Seen.TheVariants as seen;
ghost use Rattle.inf_message.specs.declared.reply.Reply.TheVariants as reply;
ghost use Rattle.inf_message.specs.declared.reply.Spot.TheVariants as spot;
ghost use Rattle.inf_message.specs.declared.request.Request.TheVariants as request;
ghost use Rattle.inf_message.specs.History.{served_ask};
ghost use Rattle.inf_server.specs.Examples.{access_a, ask_as, ask_in, at_first, at_server_0, at_server_1, birth_a, call, create_a, dir_a, dir_held_by, drop_a, finish, held_by, holding_b, link_a, look_up, look_up_a, look_up_b, make_a, meta_of_a, odd_id, one_id, other_call, replied, reserve_a, reserved_by, rmdir_name_a, root, seal_a, sealed_by, served, server_0, server_1, stat_a, to_a, told_of, top, turned_away_by_0, turned_away_by_1, unlink_a, walk_a, with_a, with_content, with_dir_a, with_name, with_no_row, with_row_of, with_sealed_a, with_slot_a, with_unlinked_a};
ghost use Rattle.inf_server.specs.Machine.{machine, state_after};
ghost use Rattle.inf_server.specs.State.{opening};

/// A lookup is told an access object, a file's name, or that nothing is there.
pub fn example_of_lookups()
    ensures root { replied at_first look_up ≡ reply.Found key.Top root.access }
    ensures found { replied with_dir_a (ask_in other_call look_up_a) ≡ reply.Found (key.At top (codes "a")) access_a }
    ensures file { replied with_a (ask_in other_call look_up_a) ≡ reply.IsFile 0 }
    ensures absent { replied at_first (ask_in other_call look_up_a) ≡ reply.Absent 0 }
    ensures absent_below { replied with_dir_a (ask_in call look_up_b) ≡ reply.Absent 5 }
    ensures no_directory { replied at_first (ask_in call look_up_b) ≡ reply.NoDir }
{}

/// A lookup is told nothing of what is sealed, held or reserved, whoever does so: the asking call too.
pub fn example_of_lookups_in_flight()
    ensures sealed { replied with_sealed_a (ask_in other_call look_up_b) ≡ reply.Busy other_call spot.Sealed 5 }
    ensures reserved { replied with_name (ask_in call look_up_a) ≡ reply.Busy call spot.Slot 0 }
    ensures held { replied (with_slot_a (held_by call)) (ask_in call look_up_a) ≡ reply.Busy call spot.Slot 0 }
    ensures held_directory { replied (with_slot_a (dir_held_by call)) (ask_in call look_up_a)
        ≡ reply.Busy call spot.Slot 0 }
{}

/// A file that was created is there, as the caller's, and cannot be created again.
pub fn example_of_files()
    ensures created { replied at_first (finish 0 (root ∷ []) create_a) ≡ reply.Fine }
    ensures shown { replied with_a (finish 0 (root ∷ []) stat_a) ≡ reply.Stat kind.File meta_of_a }
    ensures again { replied with_a (finish 0 (root ∷ []) create_a) ≡ reply.Refused errno.EEXIST }
    ensures missing { replied at_first (finish 0 (root ∷ []) stat_a) ≡ reply.Refused errno.ENOENT }
{}

/// A chain must end in a directory that is kept here, and stands.
pub fn example_of_chains()
    ensures empty { replied at_first (finish 0 [] stat_a) ≡ reply.Other }
    ensures gone { replied at_first (finish 0 (told_of one_id 5 ∷ []) stat_a) ≡ reply.Gone }
    ensures elsewhere { (machine (server_0 2) at_first 5 (finish 0 (root ∷ told_of odd_id 5 ∷ []) stat_a)).reply
        ≡ reply.Other }
{}

/// Permission is asked before names are looked up: user 100 may search the root, and not write to it.
pub fn example_of_permissions()
    ensures no_write { replied with_a (finish 100 (root ∷ []) create_a) ≡ reply.Refused errno.EACCES }
    ensures search { replied with_a (finish 100 (root ∷ []) stat_a) ≡ reply.Stat kind.File meta_of_a }
{}

/// What another call seals, holds or reserves is in the way; what the asking call holds is what it is.
pub fn example_of_holds()
    ensures sealed { replied (sealed_by other_call) (finish 0 (root ∷ []) stat_a)
        ≡ reply.Busy other_call spot.Sealed 0 }
    ensures own_seal { replied (sealed_by call) (finish 0 (root ∷ []) stat_a) ≡ reply.Refused errno.ENOENT }
    ensures held { replied (with_slot_a (held_by other_call)) (finish 0 (root ∷ []) stat_a)
        ≡ reply.Busy other_call spot.Slot 0 }
    ensures own_hold { replied (with_slot_a (held_by call)) (finish 0 (root ∷ []) stat_a)
        ≡ reply.Stat kind.File meta_of_a }
    ensures reserved { replied (with_slot_a (reserved_by other_call)) (finish 0 (root ∷ []) create_a)
        ≡ reply.Busy other_call spot.Slot 0 }
    ensures own_reserved { replied (with_slot_a (reserved_by call)) (finish 0 (root ∷ []) create_a) ≡ reply.Other }
{}

/// Why a walk ends at a name: nothing is there, or a file; where a directory is, it could have gone on.
pub fn example_of_walks()
    ensures missing { replied at_first (finish 0 (root ∷ []) walk_a) ≡ reply.Refused errno.ENOENT }
    ensures file { replied with_a (finish 0 (root ∷ []) walk_a) ≡ reply.Refused errno.ENOTDIR }
    ensures found { replied with_dir_a (finish 0 (root ∷ []) walk_a) ≡ reply.Other }
    ensures reserved { replied (with_slot_a (reserved_by other_call)) (finish 0 (root ∷ []) walk_a)
        ≡ reply.Busy other_call spot.Slot 0 }
    ensures no_search { replied with_dir_a (finish 100 (to_a 5) walk_a) ≡ reply.Refused errno.EACCES }
    ensures stands { replied with_dir_a (finish 0 (root ∷ []) stat_a)
        ≡ reply.Stat kind.Dir (record { mode = 0o750; owner = 0; group = 0; length = 0 }) }
{}

/// The removal of what is no directory asks write permission before the name.
pub fn example_of_removed_names()
    ensures missing { replied at_first (finish 0 (root ∷ []) rmdir_name_a) ≡ reply.Refused errno.ENOENT }
    ensures file { replied with_a (finish 0 (root ∷ []) rmdir_name_a) ≡ reply.Refused errno.ENOTDIR }
    ensures found { replied with_dir_a (finish 0 (root ∷ []) rmdir_name_a) ≡ reply.Other }
    ensures no_write { replied at_first (finish 100 (root ∷ []) rmdir_name_a) ≡ reply.Refused errno.EACCES }
{}

/// A directory is made: its name is reserved, its content object made, born at the place of that Ask, and it is linked.
pub fn example_of_births()
    ensures reserved { replied at_first (ask_in call reserve_a) ≡ reply.Reserved 0 }
    ensures made { replied with_name (ask_in call make_a) ≡ reply.Fine }
    ensures born { content_at dir_a with_content.contents ≡ Some (empty_content odd_id 5 birth_a call) }
    ensures linked { replied with_content (ask_in call link_a) ≡ reply.Fine }
    ensures stands { look top (codes "a") with_dir_a.contents ≡ seen.Dir dir_a 0o750 0 0 None }
    // the slot keeps the birth, which the request does not tell
    ensures birth { access_found (codes "a") (content_at top with_dir_a.contents) ≡ Some access_a }
{}

/// When a name is not reserved. The version is the least that no directory took which lives elsewhere.
pub fn example_of_reservations()
    ensures next_version { replied (with_row_of 5) (ask_in call reserve_a) ≡ reply.Reserved 1 }
    ensures present { replied with_a (ask_in call reserve_a) ≡ reply.Refused errno.EEXIST }
    ensures no_write { replied with_a (ask_as 100 reserve_a) ≡ reply.Refused errno.EACCES }
    ensures by_another { replied with_name (ask_in other_call reserve_a) ≡ reply.Busy call spot.Slot 0 }
    ensures again { replied with_name (ask_in call reserve_a) ≡ reply.Other }
    ensures sealed { replied (sealed_by other_call) (ask_in call reserve_a) ≡ reply.Busy other_call spot.Sealed 0 }
{}

/// A directory that is there already is not made again: the call that bears it is told, or the triple that it has.
pub fn example_of_bearers()
    ensures maker { replied with_content (ask_in other_call make_a) ≡ reply.Busy call spot.Bearer 0 }
    ensures sealer { replied with_sealed_a (ask_in call make_a) ≡ reply.Busy other_call spot.Bearer 0 }
    ensures clash { replied with_content (ask_in call (request.Make (triple.Of one_id (codes "b") 0)))
        ≡ reply.Clash birth_a }
    ensures at_home { (machine server_1 (opening server_1) 5 (ask_in call make_a)).reply ≡ reply.Fine }
{}

/// Only what the call itself reserved is linked, or lifted; a call that has nothing to lift is replied Fine.
pub fn example_of_reserved_names()
    ensures nothing_reserved { replied at_first (ask_in call link_a) ≡ reply.Other }
    ensures not_its_own { replied with_content (ask_in other_call link_a) ≡ reply.Other }
    ensures lifted { served with_name 9 (ask_in call (request.Cancel top)) ≡ at_first }
    ensures stays { served with_name 9 (ask_in other_call (request.Cancel top)) ≡ with_name }
    ensures nothing_lifted { replied with_name (ask_in other_call (request.Cancel top)) ≡ reply.Fine }
{}

/// A directory is removed: it is sealed, unlinked and dropped, and nothing is left of it. A seal can be lifted.
pub fn example_of_removals()
    ensures sealed { replied with_dir_a (ask_in other_call seal_a) ≡ reply.Fine }
    ensures unlinked { replied with_sealed_a (ask_in other_call unlink_a) ≡ reply.Fine }
    ensures dropped { replied with_unlinked_a (ask_in other_call drop_a) ≡ reply.Fine }
    ensures gone { served with_unlinked_a 15 (ask_in other_call drop_a) ≡ at_first }
    ensures unsealed { served with_sealed_a 13 (ask_in other_call (request.Unseal dir_a)) ≡ with_dir_a }
{}

/// When a directory is not sealed: the chain has no way to it, it is not empty, or it is not the caller's to remove.
pub fn example_of_seals()
    ensures no_way { replied at_first (ask_in call (request.Seal (root ∷ []))) ≡ reply.Other }
    ensures full { replied (holding_b (file meta_of_a None)) (ask_in call seal_a) ≡ reply.Refused errno.ENOTEMPTY }
    ensures reserved { replied (holding_b (reserved_by other_call)) (ask_in call seal_a)
        ≡ reply.Busy other_call spot.Inside 5 }
    ensures own { replied (holding_b (held_by call)) (ask_in call seal_a) ≡ reply.Busy call spot.Inside 5 }
    ensures no_write { replied with_dir_a (ask_as 100 seal_a) ≡ reply.Refused errno.EACCES }
    ensures sealed { replied with_sealed_a (ask_in call seal_a) ≡ reply.Busy other_call spot.Sealed 5 }
    ensures another_birth { replied with_dir_a (ask_in call (request.Seal (to_a 6))) ≡ reply.Gone }
{}

/// Only the directory of this birth is unlinked, from where it stands.
pub fn example_of_unlinks()
    ensures root { replied at_first (ask_in call (request.Unlink (root ∷ []))) ≡ reply.Other }
    ensures missing { replied at_first (ask_in call unlink_a) ≡ reply.Other }
    ensures file { replied with_a (ask_in call unlink_a) ≡ reply.Other }
    ensures another_birth { replied with_dir_a (ask_in call (request.Unlink (to_a 6))) ≡ reply.Other }
    ensures reserved { replied with_name (ask_in other_call unlink_a) ≡ reply.Busy call spot.Slot 0 }
{}

/// What a call has no part in stays, and the reply is Fine. A row goes by the directory that left it.
pub fn example_of_strangers()
    ensures seal_stays { served with_sealed_a 13 (ask_in call (request.Unseal dir_a)) ≡ with_sealed_a }
    ensures directory_stays { served with_dir_a 9 (ask_in other_call drop_a) ≡ with_dir_a }
    ensures fine { replied with_dir_a (ask_in other_call drop_a) ≡ reply.Fine }
    ensures row_goes { served (with_row_of 5) 9 (ask_in call (request.Forget one_id dir_a)) ≡ with_no_row }
    ensures row_stays { served (with_row_of 6) 9 (ask_in call (request.Forget one_id dir_a)) ≡ with_row_of 6 }
{}

/// A server that does not keep the directory asked turns a request away, and is as before.
pub fn example_of_other_servers()
    ensures lookup_top { at_server_1 look_up ≡ turned_away_by_1 }
    ensures lookup { at_server_1 (ask_in call look_up_a) ≡ turned_away_by_1 }
    ensures reserve { at_server_1 (ask_in call reserve_a) ≡ turned_away_by_1 }
    ensures link { at_server_1 (ask_in call link_a) ≡ turned_away_by_1 }
    ensures cancel { at_server_1 (ask_in call (request.Cancel top)) ≡ turned_away_by_1 }
    ensures unlink { at_server_1 (ask_in call unlink_a) ≡ turned_away_by_1 }
    ensures forget { at_server_1 (ask_in call (request.Forget one_id dir_a)) ≡ turned_away_by_1 }
    ensures make { at_server_0 (ask_in call make_a) ≡ turned_away_by_0 }
    ensures make_at_home { (at_server_1 (ask_in call make_a)).reply ≡ reply.Fine }
    ensures seal { at_server_0 (ask_in call seal_a) ≡ turned_away_by_0 }
    ensures unseal { at_server_0 (ask_in call (request.Unseal dir_a)) ≡ turned_away_by_0 }
    ensures drop { at_server_0 (ask_in call drop_a) ≡ turned_away_by_0 }
{}

/// A server's state comes from what it served; want of memory changes nothing.
pub fn example_of_states()
    ensures first { state_after (server_0 1) [] ≡ at_first }
    ensures created { state_after (server_0 1) (served_ask (finish 0 (root ∷ []) create_a) 3 reply.Fine ∷ []) ≡ with_a }
    ensures no_memory { state_after (server_0 1) (served_ask (finish 0 (root ∷ []) create_a) 3 reply.NoMem ∷ [])
        ≡ at_first }
{}
