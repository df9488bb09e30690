//! Trees are no larger than their texts, and nest no deeper than the grammar allows.

ghost use Rattle.tree_sizes.specs.Bounds.{
  UnitsAreSmall,
  TypeNamesAreSmall,
  UnitsAreShallow,
  TypeNamesAreShallow,
};

/// Of `n` tokens a unit has at most `2 n + 1` nodes, the name of a type at most `2 n + 2`.
pub fn law_sizes()
    ensures unit { UnitsAreSmall }
    ensures type_name { TypeNamesAreSmall }
{}

/// A unit and the name of a type nest at most 200 deep.
pub fn law_depths()
    ensures unit { UnitsAreShallow }
    ensures type_name { TypeNamesAreShallow }
{}
