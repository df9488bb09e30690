//! The parts of an object that have initialisers of their own in braces (C11 6.7.9p16 and p17).

ghost use Rattle.std.specs.Prelude.{◌≡◌, Some, slice_get};
ghost use Rattle.c_types.specs.Table.{Types, IsNumber, kind_of, members};
ghost use Rattle.declaration_rules.specs.Initialisers as spec;
ghost use Rattle.declaration_rules.specs.Stores as stores;

use c_types::{CType, TypeNo, TypeTable};
use declaration_rules::Step;
use sqlite_items::at;

/// The type of the part to which a step leads.
pub fn kind_behind(step: Step) -> TypeNo
    ensures { result ≡ stores.kind_behind step }
{
    match step {
        Step::Member(kind, _) | Step::Element(kind, _) => kind,
    }
}

/// To the member of this number of a struct or a union.
fn member_of(types: &TypeTable, kind: TypeNo, n: u32) -> Option<Step>
    requires { IsNumber types.now kind }
    ensures { result ≡ spec.to_member (slice_get (members types.now kind) n) }
{
    match at(types.members(kind), n as usize) {
        Some(member) => Some(Step::Member(member.kind, member.offset)),
        None => None,
    }
}

/// The step to a part of an object of a type, by its number, counted from 0: an element, a member of a struct, or the
/// first member of a union. It takes constant time.
#[tactic(auto, unfolding(declaration_rules::specs::Initialisers::part_of))]
pub fn part_of(types: &TypeTable, kind: TypeNo, n: u32) -> Option<Step>
    ensures { result ≡ spec.part_of kind types.now n }
{
    match types.find(kind) {
        Some(CType::Array(of, count)) => (n < count).then_some(Step::Element(of, n)),
        Some(CType::Struct(_)) => member_of(types, kind, n),
        Some(CType::Union(_)) => {
            if n == 0 {
                member_of(types, kind, n)
            } else {
                None
            }
        }
        _ => None,
    }
}

/// The step to an element, by its number, of an array without a size.
pub fn element_of(of: TypeNo, n: u32) -> Step
    ensures { (types : Types) → spec.element_of of types n ≡ Some result }
{
    Step::Element(of, n)
}

/// Whether an object of a type takes an initialiser in braces.
pub fn takes_braces(types: &TypeTable, kind: TypeNo) -> bool
    ensures { result ≡ spec.takes_braces_by (kind_of types.now kind) }
{
    matches!(
        types.find(kind),
        Some(CType::Array(..) | CType::Struct(_) | CType::Union(_))
    )
}
