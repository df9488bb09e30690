//! What holds of each format.

ghost use Rattle.std.specs.Prelude.{◌≡◌, ℕ, ◌⊎◌, List};
ghost use Rattle.c_print.specs.Formats.{Parts, BreaksAt, HasParts, Breaks};
ghost use Rattle.c_print.specs.declared.parts.Part.{Part as Piece};

/// Each format has parts, and no others, or there is one longest beginning of it that some format has too.
pub fn law_formats()
    ensures one_list { (format : List ℕ) (a b : List Piece) → Parts format a → Parts format b → a ≡ b }
    ensures not_both { (format : List ℕ) → HasParts format → Breaks format → ⊥ }
    ensures one_place { (format : List ℕ) (a b : ℕ) → BreaksAt format a → BreaksAt format b → a ≡ b }
    ensures one_of_both { (format : List ℕ) → HasParts format ⊎ Breaks format }
{}
