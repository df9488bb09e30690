//! What holds of what is well typed.

ghost use Rattle.well_typed.specs.Growth.{
  Extends,
  Grows,
  KeepsBlocks,
  KeepsInitials,
  KeepsPlaces,
  KeepsStatements,
  KeepsValues,
  PositionGrows,
};
ghost use Rattle.well_typed.specs.Statements.{Position};
ghost use Rattle.well_typed.specs.Surroundings.{Surroundings};

/// What is well typed stays so when more may be named, so that no tree is gone through again when a table grows.
pub fn law_grows()
    ensures places { (old new : Surroundings) → Grows old new → KeepsPlaces old new }
    ensures values { (old new : Surroundings) → Grows old new → KeepsValues old new }
    ensures initials { (old new : Surroundings) → Extends old new → KeepsInitials old new }
    ensures statements { (old new : Position) → PositionGrows old new → KeepsStatements old new }
    ensures blocks { (old new : Position) → PositionGrows old new → KeepsBlocks old new }
{}
