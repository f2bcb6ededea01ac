//! What calls come to in small directories: each clause is computed.

ghost use Rattle.std.specs.Prelude.{◌≡◌, true, [], ◌∷◌, Some, None};
ghost use Rattle.inf_base.specs.Content.{directory, file, reserved};
ghost use Rattle.inf_base.specs.declared.triple.Triple.TheVariants as triple;
ghost use Rattle.inf_content.specs.declared.inside.Inside.TheVariants as inside;
ghost use Rattle.inf_content.specs.declared.made.Made.TheVariants as made;
ghost use Rattle.inf_content.specs.declared.seen.Seen.TheVariants as seen;
ghost use Rattle.inf_content.specs.BusyNames.{busy_names, with_name, without_name};
ghost use Rattle.inf_content.specs.Contents.{content_of_id, dropped_at, empty_content, erased_at, filled_at, held_at, lifted_at, look, made_at, made_of, reserved_at, sealed_at, settled_at, slots_at, unsealed_at, with_file_at};
ghost use Rattle.inf_content.specs.Examples.{a, access, b, c, call, changing_file, dir, empty, held_file, high_id, holding, later_dir, low_id, meta, moved, other_call, owner};
ghost use Rattle.inf_content.specs.Order.{NamesRise};
ghost use Rattle.inf_content.specs.Slot.{reserves};
ghost use Rattle.inf_content.specs.Slots.{first, inside_of, told_of_filled};

/// Directories stand in the order of their identifiers; one whose identifier is there is not made again.
pub fn example_of_making()
    ensures new { made_at low_id 3 triple.Root call [] ≡ empty }
    ensures in_order { made_at low_id 3 triple.Root call (made_at high_id 4 triple.Root call [])
        ≡ empty_content low_id 3 triple.Root call ∷ empty_content high_id 4 triple.Root call ∷ [] }
    ensures bearer { made_of triple.Root (content_of_id low_id empty) ≡ made.Bearer call }
    ensures sealer { made_of triple.Root (content_of_id low_id (sealed_at dir other_call empty))
        ≡ made.Bearer other_call }
    ensures clash { made_of access.birth (content_of_id low_id empty) ≡ made.Clash triple.Root }
    ensures kept { made_at low_id 8 access.birth other_call empty ≡ empty }
{}

/// A name is seen in the directory of this birth alone.
pub fn example_of_looks()
    ensures missing { look dir a empty ≡ seen.Missing }
    ensures gone { look later_dir a empty ≡ seen.Gone }
    ensures placed { slots_at dir (with_file_at dir a meta (holding ((b, file meta None) ∷ [])))
        ≡ (a, file meta None) ∷ (b, file meta None) ∷ [] }
    ensures held { look dir a (holding ((a, held_file call) ∷ [])) ≡ seen.File meta (Some call) }
{}

/// What was reserved becomes a directory, that of the link if there is one; its place of birth stays.
pub fn example_of_filling()
    ensures reserved { look dir a (reserved_at dir a call access empty) ≡ seen.Reserved call }
    ensures filled { filled_at dir call None (reserved_at dir a call access empty)
        ≡ holding ((a, directory access None) ∷ []) }
    ensures at_home { told_of_filled low_id None
        (first (reserves call) (slots_at dir (reserved_at dir a call access empty)))
        ≡ Some (record { id = high_id; born = 5 }, true) }
    ensures linked { look dir b (filled_at dir call (Some (moved, 0o700, owner)) (reserved_at dir b call access empty))
        ≡ seen.Dir moved 0o700 1 2 None }
    ensures of_another { filled_at dir other_call None (reserved_at dir a call access empty)
        ≡ reserved_at dir a call access empty }
{}

/// A hold ends with the mode that was kept, is lifted, or ends with the slot.
pub fn example_of_holds()
    ensures held { held_at dir a call (Some 0o600) (holding ((a, file meta None) ∷ []))
        ≡ holding ((a, changing_file call 0o600) ∷ []) }
    ensures settled { settled_at dir call (holding ((a, changing_file call 0o600) ∷ []))
        ≡ holding ((a, file (record meta { mode = 0o600 }) None) ∷ []) }
    ensures lifted { lifted_at dir call (holding ((a, held_file call) ∷ (b, reserved call access) ∷ []))
        ≡ holding ((a, file meta None) ∷ []) }
    ensures erased { erased_at dir call (holding ((a, changing_file call 0o600) ∷ (b, held_file call) ∷ []))
        ≡ holding ((a, changing_file call 0o600) ∷ []) }
{}

/// A directory is full where something stays there, and else in the way of the first call by name.
pub fn example_of_insides()
    ensures empty { inside_of [] ≡ inside.Empty }
    ensures full { inside_of ((a, held_file call) ∷ (b, file meta None) ∷ []) ≡ inside.Full }
    ensures busy { inside_of ((a, held_file call) ∷ (b, reserved other_call access) ∷ []) ≡ inside.Busy call }
{}

/// A seal is lifted by its own call; a directory is dropped by the call that sealed or made it.
pub fn example_of_seals()
    ensures of_another { unsealed_at dir other_call (sealed_at dir call empty) ≡ sealed_at dir call empty }
    ensures own { unsealed_at dir call (sealed_at dir call empty) ≡ empty }
    ensures stranger { dropped_at dir other_call empty ≡ empty }
    ensures sealer { dropped_at dir other_call (sealed_at dir other_call empty) ≡ [] }
    ensures maker { dropped_at dir call empty ≡ [] }
{}

/// What calls hold or reserve is listed by name; a name is listed once, in its place.
pub fn example_of_busy_names()
    ensures listed { busy_names ((a, held_file call) ∷ (b, file meta None) ∷ (c, reserved call access) ∷ [])
        ≡ a ∷ c ∷ [] }
    ensures added { with_name b (a ∷ c ∷ []) ≡ a ∷ b ∷ c ∷ [] }
    ensures once { with_name c (a ∷ c ∷ []) ≡ a ∷ c ∷ [] }
    ensures removed { without_name a (a ∷ c ∷ []) ≡ c ∷ [] }
{}

/// Names rise by their bytes, and none stands twice.
pub fn example_of_order()
    ensures rise { NamesRise ((a, file meta None) ∷ (b, file meta None) ∷ []) }
    ensures fall { ¬ NamesRise ((b, file meta None) ∷ (a, file meta None) ∷ []) }
    ensures twice { ¬ NamesRise ((a, file meta None) ∷ (a, held_file call) ∷ []) }
{}
