//! `sizeof` (C11 6.5.3.4).

ghost use Rattle.std.specs.Prelude.{◌≡◌, Some, None, if◌then◌else◌};
ghost use Rattle.c_types.specs.Shapes as shapes;
ghost use Rattle.c_types.specs.Table.{shape_of};
ghost use Rattle.rule_answers.specs.Gives.{Gives};
ghost use Rattle.static_rules.specs.Operators as spec;
ghost use Rattle.well_typed.specs.Kinds.{has_size};

use c_types::{TypeNo, TypeTable};
use operand_plans::UNSIGNED_LONG;
use rule_answers::fault;
use static_rules::{CheckError, CheckKind, Judged, State};
use tree_building::constant;

/// The size of a type, if it is one of the table and has one.
#[tactic(auto, unfolding(well_typed::specs::Kinds::has_size))]
fn size(types: &TypeTable, kind: TypeNo) -> Option<u32>
    ensures { result ≡ (if has_size types.now kind then Some (shapes.size (shape_of types.now kind)) else None) }
{
    if types.find(kind).is_none() {
        return None;
    }
    types.size_of(kind)
}

/// `sizeof` of something of a type.
pub fn sized(state: &State, line: u32, here: u32, kind: TypeNo) -> Result<Judged, CheckError>
    ensures { Gives (spec.sized line here state.now kind) result state.now }
{
    match size(&state.types, kind) {
        Some(bytes) => Ok(constant(line, UNSIGNED_LONG, bytes as i128)),
        None => Err(fault(CheckKind::TypeMismatch, here)),
    }
}
