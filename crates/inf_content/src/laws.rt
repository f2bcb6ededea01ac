//! Laws of content objects.

ghost use Rattle.std.specs.Prelude.{ℕ, List, [], Option};
ghost use Rattle.inf_base.specs.declared.access.Access.{Access};
ghost use Rattle.inf_base.specs.declared.caller.CallRef.{CallRef};
ghost use Rattle.inf_base.specs.declared.caller.Caller.{Caller};
ghost use Rattle.inf_base.specs.declared.directory.DirRef.{DirRef};
ghost use Rattle.inf_base.specs.declared.file.FileMeta.{FileMeta};
ghost use Rattle.inf_base.specs.declared.id.Id.{Id};
ghost use Rattle.inf_base.specs.declared.triple.Triple.{Triple};
ghost use Rattle.inf_base.specs.Content.{Content};
ghost use Rattle.inf_content.specs.Contents.{dropped_at, erased_at, filled_at, held_at, lifted_at, made_at, reserved_at, sealed_at, settled_at, unsealed_at, with_file_at, with_meta_at, without_slot_at};
ghost use Rattle.inf_content.specs.Order.{AreInOrder};

/// Each call keeps content objects in the order of their identifiers, and their slots in the order of their names.
pub fn calls_keep_the_order()
    ensures start { AreInOrder [] }
    ensures made { (id : Id) (born : ℕ) (triple : Triple) (by : CallRef) (contents : List Content)
        → AreInOrder contents → AreInOrder (made_at id born triple by contents) }
    ensures dropped { (dir : DirRef) (by : CallRef) (contents : List Content)
        → AreInOrder contents → AreInOrder (dropped_at dir by contents) }
    ensures sealed { (dir : DirRef) (by : CallRef) (contents : List Content)
        → AreInOrder contents → AreInOrder (sealed_at dir by contents) }
    ensures unsealed { (dir : DirRef) (by : CallRef) (contents : List Content)
        → AreInOrder contents → AreInOrder (unsealed_at dir by contents) }
    ensures reserved { (dir : DirRef) (name : List ℕ) (by : CallRef) (access : Access) (contents : List Content)
        → AreInOrder contents → AreInOrder (reserved_at dir name by access contents) }
    ensures filed { (dir : DirRef) (name : List ℕ) (meta : FileMeta) (contents : List Content)
        → AreInOrder contents → AreInOrder (with_file_at dir name meta contents) }
    ensures changed { (dir : DirRef) (name : List ℕ) (meta : FileMeta) (contents : List Content)
        → AreInOrder contents → AreInOrder (with_meta_at dir name meta contents) }
    ensures removed { (dir : DirRef) (name : List ℕ) (contents : List Content)
        → AreInOrder contents → AreInOrder (without_slot_at dir name contents) }
    ensures held { (dir : DirRef) (name : List ℕ) (by : CallRef) (mode : Option ℕ) (contents : List Content)
        → AreInOrder contents → AreInOrder (held_at dir name by mode contents) }
    ensures settled { (dir : DirRef) (by : CallRef) (contents : List Content)
        → AreInOrder contents → AreInOrder (settled_at dir by contents) }
    ensures filled { (dir : DirRef) (by : CallRef) (link : Option (DirRef × ℕ × Caller)) (contents : List Content)
        → AreInOrder contents → AreInOrder (filled_at dir by link contents) }
    ensures lifted { (dir : DirRef) (by : CallRef) (contents : List Content)
        → AreInOrder contents → AreInOrder (lifted_at dir by contents) }
    ensures erased { (dir : DirRef) (by : CallRef) (contents : List Content)
        → AreInOrder contents → AreInOrder (erased_at dir by contents) }
{}
