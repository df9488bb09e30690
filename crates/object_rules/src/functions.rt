//! Declarations of functions (C11 6.7.6.3, 6.2.2p5).

ghost use Rattle.std.specs.Prelude.{◌≡◌, ℕ, List, None, IfOk, is_some};
ghost use Rattle.std.specs.Option.{option_map};
ghost use Rattle.declaration_rules.specs.Agreement as spec;
ghost use Rattle.object_rules.specs.Types as types;
ghost use Rattle.rule_answers.specs.Gives.{Gives, Makes};
ghost use Rattle.static_rules.specs.Answers.{Answer};
ghost use Rattle.static_rules.specs.Source.{Source, spelled};
ghost use Rattle.static_rules.specs.States.{with_symbol};
ghost use Rattle.static_rules.specs.declared.states.State.{State as Whole};
ghost use Rattle.static_rules.specs.declared.states.Symbol.TheVariants as means;
ghost use Rattle.well_typed.specs.declared.signatures.Signature.{Signature as Kinds};

use crate::agreement::{disagreement, is_no_function, same_signature};
use crate::numbered::DefinedNames;
use declaration_rules::{Introduced, Part};
use declarator_rules::{declares_function, is_given, made_of};
use rule_answers::{fault, out_of_memory};
use sqlite_items::Items;
use static_rules::{CheckError, CheckKind, DeclaredFunction, Made, State, Symbol, Where};
use std::alloc::{AllocError, Global};
use well_typed::Signature;

/// The type of a function, where a declarator declares one.
pub fn signature_of(here: u32, whole: Made) -> Result<Signature, CheckError>
    ensures { (s : Whole) → Gives (spec.signature_of here (whole, s)) result s }
{
    match whole {
        Made::Function(signature) => Ok(signature),
        Made::Known(_) | Made::Array(..) | Made::Open(_) => {
            Err(fault(CheckKind::TypeMismatch, here))
        }
    }
}

/// The type of a function that the parts of a declarator declare.
#[tactic(auto, using(crate::proofs::Tellings::bound_tells))]
pub fn own_type(
    alloc: Global,
    state: &mut State,
    here: u32,
    parts: &[Part],
    base: &Made,
) -> Result<Signature, CheckError>
    ensures { Gives (types.own_type here parts.now base.now state.old) result state.new }
{
    if !declares_function(parts, base) {
        return Err(fault(CheckKind::TypeMismatch, here));
    }
    match made_of(alloc, state, parts, base) {
        Ok(whole) => signature_of(here, whole),
        Err(error) => Err(error),
    }
}

/// Another one that equals it.
fn copy_of(alloc: Global, signature: &Signature) -> Result<Signature, AllocError>
    ensures { IfOk result (λ copy. copy ≡ signature.now) }
{
    match Items::from_slice(alloc, signature.parameters.as_slice()) {
        Ok(parameters) => Ok(Signature {
            result: signature.result,
            parameters,
        }),
        Err(error) => Err(error),
    }
}

/// The type of the function that a name was declared as, in any scope, and its number.
fn signature_named(
    alloc: Global,
    state: &State,
    name: u32,
) -> Result<Option<(usize, Signature)>, AllocError>
    ensures { IfOk result (λ found. found ≡ option_map (λ f. (f.0, f.1.signature)) (spec.function_named state.now name)) }
{
    let Some(place) = state.functions.find(name) else {
        return Ok(None);
    };
    let Some(found) = state.functions.get(place) else {
        return Ok(None);
    };
    match copy_of(alloc, &found.signature) {
        Ok(signature) => Ok(Some((place, signature))),
        Err(error) => Err(error),
    }
}

/// Whether a name was declared as that of an object of the whole text, in any scope.
pub fn is_global_named(state: &State, name: u32) -> bool
    ensures { result ≡ is_some (spec.global_named state.now name) }
{
    match state.globals.find(name) {
        Some(place) => state.globals.get(place).is_some(),
        None => false,
    }
}

/// A name means a function in the innermost scope from now on.
fn mean_function(
    state: &mut State,
    introduced: Introduced,
    number: usize,
) -> Result<u32, CheckError>
    ensures { Makes (number, with_symbol state.old introduced.name (means.Function number)) result state.new }
{
    let Ok(number) = u32::try_from(number) else {
        return Err(out_of_memory());
    };
    match state
        .symbols
        .declare(introduced.name, Symbol::Function(number))
    {
        Ok(()) => Ok(number),
        Err(_) => Err(out_of_memory()),
    }
}

/// Declares a function once more, whose types agree.
fn repeated_function(
    state: &mut State,
    introduced: Introduced,
    number: usize,
    earlier: &Signature,
    signature: &Signature,
) -> Result<u32, CheckError>
    ensures { (source : Source) (defined : List ℕ) → Gives (spec.repeated_function source defined introduced number earlier.now (signature.now, state.old)) result state.new }
{
    if !same_signature(signature, earlier) {
        return Err(fault(CheckKind::Redefined, introduced.here));
    }
    match mean_function(state, introduced, number) {
        Ok(number) => Ok(number),
        Err(_) => Err(out_of_memory()),
    }
}

/// Declares a function for the first time.
fn first_function(
    state: &mut State,
    introduced: Introduced,
    defined: &DefinedNames,
    signature: Signature,
) -> Result<u32, CheckError>
    ensures { (source : Source) → Makes (spec.first_function source defined.now introduced (signature, state.old)) result state.new }
{
    let place = state.functions.len();
    let function = DeclaredFunction {
        signature,
        number: defined.number_of(introduced.name),
        defined: false,
    };
    match state.functions.declare(introduced.name, function) {
        Ok(()) => {}
        Err(_) => return Err(out_of_memory()),
    }
    match mean_function(state, introduced, place) {
        Ok(number) => Ok(number),
        Err(_) => Err(out_of_memory()),
    }
}

/// Declares a function that was declared before.
#[tactic(auto, using(crate::proofs::Tellings::disagreement_tells))]
fn function_again(
    alloc: Global,
    state: &mut State,
    introduced: Introduced,
    number: usize,
    earlier: &Signature,
    parts: &[Part],
    base: &Made,
) -> Result<u32, CheckError>
    ensures { (source : Source) (defined : List ℕ) → Gives (types.again source defined introduced number earlier.now (types.own_type introduced.here parts.now base.now state.old)) result state.new }
{
    match own_type(alloc, state, introduced.here, parts, base) {
        Ok(signature) => repeated_function(state, introduced, number, earlier, &signature),
        Err(error) => Err(disagreement(introduced.here, error)),
    }
}

/// Declares a function that no declaration before names.
#[tactic(auto, using(crate::proofs::Tellings::bound_tells))]
fn function_anew(
    alloc: Global,
    state: &mut State,
    introduced: Introduced,
    defined: &DefinedNames,
    parts: &[Part],
    base: &Made,
) -> Result<u32, CheckError>
    ensures { (source : Source) → Gives (spec.function_by source defined.now state.old introduced (types.own_type introduced.here parts.now base.now state.old) None) result state.new }
{
    if is_global_named(state, introduced.name) {
        return Err(fault(CheckKind::Redefined, introduced.here));
    }
    match own_type(alloc, state, introduced.here, parts, base) {
        Ok(signature) => match first_function(state, introduced, defined, signature) {
            Ok(number) => Ok(number),
            Err(_) => Err(out_of_memory()),
        },
        Err(error) => Err(error),
    }
}

/// Declares a function, whose spelling is that of its name, once more where the types agree: its number in the order of
/// first declarations. Its type is that of the parts of a declarator.
pub fn function(
    alloc: Global,
    state: &mut State,
    place: Where,
    introduced: Introduced,
    spelling: &[u8],
    defined: &DefinedNames,
    parts: &[Part],
    base: &Made,
) -> Result<u32, CheckError>
    ensures { (source : Source) (answer : Answer (Kinds × Whole)) → spelled source introduced.name ≡ spelling.now → types.own_type introduced.here parts.now base.now state.old ≡ answer → Gives (spec.function source defined.now place state.old introduced answer) result state.new }
{
    if is_no_function(place, state, is_given(spelling), introduced.name) {
        return Err(fault(CheckKind::Redefined, introduced.here));
    }
    match signature_named(alloc, state, introduced.name) {
        Err(_) => Err(out_of_memory()),
        Ok(None) => function_anew(alloc, state, introduced, defined, parts, base),
        Ok(Some((number, earlier))) => {
            function_again(alloc, state, introduced, number, &earlier, parts, base)
        }
    }
}
