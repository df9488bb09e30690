//! Objects of the whole text (C11 6.9.2), which several declarations may declare and one at most defines.

ghost use Rattle.std.specs.Prelude.{◌≡◌, Some, is_some, IfSome};
ghost use Rattle.declaration_rules.specs.Agreement as spec;
ghost use Rattle.declaration_rules.specs.Objects as objects;
ghost use Rattle.rule_answers.specs.Gives.{Makes};
ghost use Rattle.scoped_meanings.specs.Meanings.{declared_at};
ghost use Rattle.static_rules.specs.declared.states.GlobalSoFar.{GlobalSoFar as Earlier};
ghost use Rattle.static_rules.specs.declared.states.State.{State as Whole};

use c_tree::Initial;
use c_types::{TypeNo, TypeTable};
use declaration_rules::Introduced;
use operand_plans::{VOID, has_size};
use rule_answers::out_of_memory;
use sqlite_items::Items;
use static_rules::{CheckError, GlobalSoFar, State, Symbol, Where};
use std::alloc::Global;

/// Whether a function of the whole text has this name, in any scope.
pub fn is_function_named(state: &State, name: u32) -> bool
    ensures { result ≡ is_some (spec.function_named state.now name) }
{
    match state.functions.find(name) {
        Some(place) => state.functions.get(place).is_some(),
        None => false,
    }
}

/// Whether an object lacks the size that it needs there: one that is defined has one, and `void` never gets it.
pub fn lacks_needed_size(types: &TypeTable, defines: bool, kind: TypeNo) -> bool
    ensures { result ≡ objects.lacks_needed_size types.now defines kind }
{
    if defines {
        !has_size(types, kind)
    } else {
        kind == VOID
    }
}

/// Its place in the order of definition.
fn order_of(defines: bool, next: u32, before: Option<u32>) -> Option<u32>
    ensures { result ≡ spec.order_of defines next before }
{
    if defines { Some(next) } else { before }
}

fn line_if(defines: bool, line: u32, before: u32) -> u32
    ensures { result ≡ spec.line_if defines line before }
{
    if defines { line } else { before }
}

/// How many objects are defined, where there may be one more.
fn more_defined(defines: bool, before: u32) -> Option<u32>
    ensures { IfSome result (λ more. more ≡ spec.more_defined defines before) }
{
    if defines {
        before.checked_add(1)
    } else {
        Some(before)
    }
}

/// A name means an object of the whole text in the innermost scope from now on.
fn mean_global(state: &mut State, name: u32, number: usize) -> Result<u32, CheckError>
    ensures { Makes (spec.with_meaning state.old name number) result state.new }
{
    let Ok(number) = u32::try_from(number) else {
        return Err(out_of_memory());
    };
    match state.symbols.declare(name, Symbol::Global(number)) {
        Ok(()) => Ok(number),
        Err(_) => Err(out_of_memory()),
    }
}

/// An object that is declared once more, as one of a type: what its initialiser stores stays.
fn declared_again(
    place: Where,
    defines: bool,
    next: u32,
    earlier: GlobalSoFar,
    kind: TypeNo,
) -> GlobalSoFar
    ensures { (s : Whole) → s.defined ≡ next → result ≡ spec.declared_again place s defines kind earlier }
{
    GlobalSoFar {
        kind,
        line: line_if(defines, place.line, earlier.line),
        named_at: earlier.named_at,
        order: order_of(defines, next, earlier.order),
        initial: earlier.initial,
    }
}

/// Declares an object of this number once more, as one of a type, and defines it where `defines` says so.
pub fn repeated_global(
    alloc: Global,
    state: &mut State,
    place: Where,
    defines: bool,
    introduced: Introduced,
    number: u32,
    kind: TypeNo,
) -> Result<u32, CheckError>
    ensures { (earlier : Earlier) → declared_at state.old.globals number ≡ Some earlier → Makes (spec.repeated_global place defines introduced number earlier kind state.old) result state.new }
{
    let at = number as usize;
    if at >= state.globals.len() {
        return Err(out_of_memory());
    }
    let Some(defined) = more_defined(defines, state.defined) else {
        return Err(out_of_memory());
    };
    let meanwhile = GlobalSoFar {
        kind,
        line: 0,
        named_at: 0,
        order: None,
        initial: Items::new(alloc),
    };
    let earlier = state.globals.replace(at, meanwhile);
    let later = declared_again(place, defines, state.defined, earlier, kind);
    state.globals.set(at, later);
    state.defined = defined;
    mean_global(state, introduced.name, at)
}

/// Declares an object for the first time, as one of a type, and defines it where `defines` says so: its number in the order
/// of first declarations.
pub fn first_global(
    alloc: Global,
    state: &mut State,
    place: Where,
    defines: bool,
    introduced: Introduced,
    kind: TypeNo,
) -> Result<u32, CheckError>
    ensures { Makes (spec.first_global place defines introduced kind state.old) result state.new }
{
    let at = state.globals.len();
    let Some(defined) = more_defined(defines, state.defined) else {
        return Err(out_of_memory());
    };
    let global = GlobalSoFar {
        kind,
        line: place.line,
        named_at: introduced.here,
        order: order_of(defines, state.defined, None),
        initial: Items::new(alloc),
    };
    match state.globals.declare(introduced.name, global) {
        Ok(()) => {}
        Err(_) => return Err(out_of_memory()),
    }
    state.defined = defined;
    mean_global(state, introduced.name, at)
}

/// The type of an object of this number, and what its initialiser stores.
pub fn with_initial(state: &mut State, number: u32, kind: TypeNo, initial: Items<Initial>)
    ensures { state.new ≡ objects.with_initial number kind initial state.old }
{
    let at = number as usize;
    let Some(earlier) = state.globals.get(at) else {
        return;
    };
    let global = GlobalSoFar {
        kind,
        line: earlier.line,
        named_at: earlier.named_at,
        order: earlier.order,
        initial,
    };
    state.globals.set(at, global);
}
