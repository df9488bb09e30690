//! The end of a list of members, which completes a tag (C11 6.7.2.3).

ghost use Rattle.std.specs.Prelude.{◌≡◌, Ok, OnOk, IsTrue};
ghost use Rattle.c_types.specs.Adding as adding;
ghost use Rattle.c_types.specs.Calls.{AreFields, IsTagOf, Refuses};
ghost use Rattle.c_types.specs.Table.{IsNumber, fields_of, shape_of};
ghost use Rattle.declaration_rules.specs.Specifiers as spec;
ghost use Rattle.rule_answers.specs.Gives.{Gives, GivesState};
ghost use Rattle.static_rules.specs.Answers.{or_bad_type};
ghost use Rattle.static_rules.specs.Source.{Source};

use crate::fields::Fields;
use c_types::{CType, Field, TypeError, TypeNo, TypeTable};
use declaration_rules::Opened;
use operand_plans::has_size;
use rule_answers::{fault, out_of_memory, refused};
use static_rules::{CheckError, CheckKind, State};

/// Whether a number is one of a type of the table.
fn is_number(types: &TypeTable, kind: TypeNo) -> bool
    ensures { IsTrue result → IsNumber types.now kind }
{
    0 < kind && kind as usize <= types.len()
}

/// Whether each field is of a type of the table.
fn are_fields(types: &TypeTable, fields: &[Field]) -> bool
    ensures { IsTrue result → AreFields types.now fields.now }
{
    for field in fields {
        if !is_number(types, field.kind) {
            return false;
        }
    }
    true
}

/// Whether a type is a union, or a struct where that is asked for.
fn is_tag_of(types: &TypeTable, union_tag: bool, kind: TypeNo) -> bool
    ensures { IsTrue result → IsTagOf types.now union_tag kind }
{
    match types.find(kind) {
        Some(CType::Struct(_)) => !union_tag,
        Some(CType::Union(_)) => union_tag,
        _ => false,
    }
}

/// Completes a struct or a union.
fn complete(
    types: &mut TypeTable,
    union_tag: bool,
    kind: TypeNo,
    fields: &[Field],
) -> Result<(), TypeError>
    requires number { IsNumber types.old kind }
    requires tag { IsTagOf types.old union_tag kind }
    requires fields { AreFields types.old fields.now }
    ensures completed { OnOk result (Ok types.new ≡ adding.completed types.old union_tag kind fields.now) }
    ensures fault { Refuses result (adding.fault_beside (fields_of types.old.tags (adding.tag_of types.old kind)) (adding.members_fault (shape_of types.old) union_tag kind fields.now)) }
{
    if union_tag {
        types.add_union(kind, fields)
    } else {
        types.add_struct(kind, fields)
    }
}

/// Completes a tag that its makers opened, where its members may do so.
#[tactic(auto, using(crate::proofs::Tellings::completed_tells))]
fn completed(
    here: u32,
    types: &mut TypeTable,
    union_tag: bool,
    kind: TypeNo,
    fields: &[Field],
) -> Result<(), CheckError>
    ensures { GivesState (or_bad_type here (adding.completed types.old union_tag kind fields.now)) result types.new }
{
    if !is_number(types, kind) || !is_tag_of(types, union_tag, kind) || !are_fields(types, fields) {
        return Err(out_of_memory());
    }
    match complete(types, union_tag, kind, fields) {
        Ok(()) => Ok(()),
        Err(reason) => Err(refused(here, reason)),
    }
}

/// `.. }`: the tag is complete behind its members, if it was not before or inside them.
#[tactic(auto, using(crate::proofs::Tellings::bound_tells), unfolding(declaration_rules::specs::Specifiers::close_tag))]
pub fn close_tag(
    state: &mut State,
    here: u32,
    union_tag: bool,
    tag: Opened,
    fields: Fields,
) -> Result<TypeNo, CheckError>
    ensures { (source : Source) → Gives (spec.close_tag source here union_tag tag (fields, state.old)) result state.new }
{
    if !tag.completes || has_size(&state.types, tag.kind) {
        return Err(fault(CheckKind::Redefined, here));
    }
    match completed(
        here,
        &mut state.types,
        union_tag,
        tag.kind,
        fields.as_slice(),
    ) {
        Ok(()) => Ok(tag.kind),
        Err(error) => Err(error),
    }
}
