//! Declarations of one function or one object agree (C11 6.2.7).

ghost use Rattle.std.specs.Prelude.{◌≡◌, ◌||◌, not};
ghost use Rattle.declaration_rules.specs.Agreement as spec;
ghost use Rattle.object_rules.specs.Types as types;
ghost use Rattle.static_rules.specs.States.{symbol_here};

use c_types::{TypeNo, TypeTable};
use declarator_rules::is_open;
use operand_plans::element;
use rule_answers::{fault, out_of_memory};
use static_rules::{CheckError, CheckKind, State, Symbol, Where};
use well_typed::Signature;

/// Whether a name may not be declared as a function's in the innermost scope: it means something else there, or, as `given`
/// says, a function that each text has.
pub fn is_no_function(place: Where, state: &State, given: bool, name: u32) -> bool
    ensures { result ≡ (given || not (spec.only_function (symbol_here place state.now name))) }
{
    if given {
        return true;
    }
    match state.symbols.meaning_here(place.names_before, name) {
        None | Some(Symbol::Function(_)) => false,
        Some(_) => true,
    }
}

/// Whether a name may not be declared as that of an object of the whole text in the innermost scope.
pub fn is_no_global(place: Where, state: &State, given: bool, name: u32) -> bool
    ensures { result ≡ (given || not (spec.only_global (symbol_here place state.now name))) }
{
    if given {
        return true;
    }
    match state.symbols.meaning_here(place.names_before, name) {
        None | Some(Symbol::Global(_)) => false,
        Some(_) => true,
    }
}

/// Why a declaration is refused whose type has a fault, where an earlier one declares the name.
pub fn disagreement(here: u32, error: CheckError) -> CheckError
    ensures { result ≡ types.disagreement here error }
{
    match error.kind {
        CheckKind::Memory(_) => out_of_memory(),
        _ => fault(CheckKind::Redefined, here),
    }
}

#[tactic(auto, using(crate::proofs::FunctionLemmas::same_kinds_is))]
fn same_kinds(kinds: &[TypeNo], others: &[TypeNo]) -> bool
    ensures { result ≡ spec.same_kinds kinds.now others.now }
{
    kinds == others
}

/// Whether two types of functions are one (C11 6.7.6.3p15).
pub fn same_signature(first: &Signature, second: &Signature) -> bool
    ensures { result ≡ spec.same_signature first.now second.now }
{
    first.result == second.result
        && same_kinds(first.parameters.as_slice(), second.parameters.as_slice())
}

/// Whether two arrays have elements of one type.
pub fn same_element(of: Option<TypeNo>, other: Option<TypeNo>) -> bool
    ensures { result ≡ spec.same_element of other }
{
    match (of, other) {
        (Some(of), Some(other)) => of == other,
        _ => false,
    }
}

/// Whether two types are those of one object: arrays of one element type agree where one lacks its size (C11 6.7.6.2p6).
#[tactic(auto, unfolding(declaration_rules::specs::Agreement::same_object))]
pub fn same_object(types: &TypeTable, kind: TypeNo, other: TypeNo) -> bool
    ensures { result ≡ spec.same_object types.now kind other }
{
    kind == other
        || (is_open(types, kind) || is_open(types, other))
            && same_element(element(types, kind), element(types, other))
}

/// The type of an object that two declarations give these types, which agree (C11 6.2.7p3).
pub fn composite(types: &TypeTable, kind: TypeNo, other: TypeNo) -> TypeNo
    ensures { result ≡ spec.composite types.now kind other }
{
    if is_open(types, kind) { other } else { kind }
}
