//! The class rule on examples, which are computed when they are proved.

ghost use Rattle.std.specs.Prelude.{◌≡◌, true, false, [], ◌∷◌};
ghost use Rattle.inf_perm.specs.Examples.{answers};

/// One class counts, and no other stands in for it: an owner without the bit is refused what the others may.
pub fn one_class_counts()
    ensures { answers ≡ false ∷ false ∷ false ∷ true ∷ true ∷ true ∷ true ∷ [] }
{}
