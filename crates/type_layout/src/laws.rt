//! The laws of the preferred bounds, for every type.

ghost use Rattle.std.specs.Prelude.{◌≡◌, ℕ, ◌<◌, ◌≤◌, Some, MatchOption};
ghost use Rattle.c_types.specs.Shapes.{Shape};
ghost use Rattle.type_layout.specs.declared.preference.Match.{Match};
ghost use Rattle.type_layout.specs.declared.preference.Bounds.{Bounds};
ghost use Rattle.type_layout.specs.Matches.{IsCandidate};
ghost use Rattle.type_layout.specs.Preferred.{ArePreferred, HasNoCandidate, IsPreferred, bounds_of, ends_at, pref, span};

/// `pref` gives the bounds of a preferred candidate, and none exactly where there is no candidate.
pub fn law_preferred()
    ensures found { (elem want : Shape) (bytes k : ℕ) → MatchOption (pref elem bytes k want) (HasNoCandidate elem bytes k want) (λ bounds. ArePreferred elem bytes k want bounds) }
    ensures only { (elem want : Shape) (bytes k : ℕ) (bounds : Bounds) → ArePreferred elem bytes k want bounds → pref elem bytes k want ≡ Some bounds }
{}

/// Candidates that agree in all four keys have the same bounds.
pub fn law_well_defined()
    ensures { (elem want : Shape) (bytes k : ℕ) (a b : Match) → IsCandidate elem bytes k want a → IsCandidate elem bytes k want b → ends_at k a ≡ ends_at k b → a.tier ≡ b.tier → span a ≡ span b → a.lo ≡ b.lo → bounds_of a ≡ bounds_of b }
{}

/// The offset is within the preferred bounds.
pub fn law_offset_within()
    ensures { (elem want : Shape) (bytes k : ℕ) (bounds : Bounds) → pref elem bytes k want ≡ Some bounds → (bounds.lo ≤ k) × (k ≤ bounds.hi) }
{}

/// An offset before the end of some candidate is before the end of the preferred bounds.
pub fn law_strictly_inside()
    ensures { (elem want : Shape) (bytes k : ℕ) (bounds : Bounds) (m : Match) → pref elem bytes k want ≡ Some bounds → IsCandidate elem bytes k want m → k < m.hi → k < bounds.hi }
{}

/// The preferred bounds are inside the object.
pub fn law_inside()
    ensures { (elem want : Shape) (bytes k : ℕ) (bounds : Bounds) → pref elem bytes k want ≡ Some bounds → (bounds.lo ≤ bounds.hi) × (bounds.hi ≤ bytes) }
{}
