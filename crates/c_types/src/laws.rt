//! What holds of each table, and of a table that has become another.

ghost use Rattle.std.specs.Prelude.{◌≡◌, ℕ, Bool, List, Ok, IsFalse};
ghost use Rattle.c_types.specs.declared.kinds.CType.{CType};
ghost use Rattle.c_types.specs.declared.kinds.Field.{Field};
ghost use Rattle.c_types.specs.Shapes.{is_unknown};
ghost use Rattle.c_types.specs.Table.{Types, IsNumber, shape_of};
ghost use Rattle.c_types.specs.Adding.{added, added_tag, completed};
ghost use Rattle.c_types.specs.Holds.{IsTable, IsLater};

use crate::table::TypeTable;

/// What holds of each table: equal types have one number, and a type is made of types that are known before it.
pub fn law_table(types: &TypeTable)
    ensures { IsTable types.now }
{
    types.law();
}

/// Each call that adds a type or completes a tag leaves a later table. A type keeps its tree in every later table, but for
/// an incomplete struct or union, which may be completed.
pub fn law_later()
    ensures added { (types : Types) (kind : CType) → IsLater types (added kind types).1 }
    ensures tag { (types : Types) (union_tag : Bool) (name : List ℕ) → IsLater types (added_tag union_tag name types).1 }
    ensures completed { (types new : Types) (union_tag : Bool) (n : ℕ) (fields : List Field) → completed types union_tag n fields ≡ Ok new → IsLater types new }
    ensures chain { (a b c : Types) → IsLater a b → IsLater b c → IsLater a c }
    ensures trees { (old new : Types) (n : ℕ) → IsTable old → IsTable new → IsLater old new → IsNumber old n → IsFalse (is_unknown (shape_of old n)) → shape_of new n ≡ shape_of old n }
{}
