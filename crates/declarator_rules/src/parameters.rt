//! Parameters (C11 6.7.6.3), and lists of them.

ghost use Rattle.std.specs.Prelude.{◌≡◌, MatchResult};
ghost use Rattle.std.specs.Option.{option_copied};
ghost use Rattle.declaration_rules.specs.Declarators as declarators;
ghost use Rattle.declaration_rules.specs.Parts as spec;
ghost use Rattle.declarator_rules.specs.Names.{spelling_of};
ghost use Rattle.rule_answers.specs.Faults.{want_of_memory};
ghost use Rattle.rule_answers.specs.Gives.{GivesState};
ghost use Rattle.static_rules.specs.Source.{Source};

use crate::kinds::adjusted;
use crate::making::made_of;
use crate::names::{is_given, is_taken};
use c_tree::Variable;
use c_types::TypeNo;
use declaration_rules::{Around, DeclaredName, ParameterList, Part};
use rule_answers::{fault, out_of_memory};
use static_rules::{CheckError, CheckKind, Made, State, Symbol, Where};
use std::alloc::Global;

/// The list of parameters directly behind the name.
pub fn own_list(parts: &[Part]) -> Option<&ParameterList>
    ensures { option_copied result ≡ spec.own_list parts.now }
{
    match parts {
        [Part::Function(_, list), ..] => Some(list),
        _ => None,
    }
}

/// Whether the parts declare a function, or are none around a function type.
pub fn declares_function(parts: &[Part], base: &Made) -> bool
    ensures { result ≡ spec.declares_function parts.now base.now }
{
    match parts {
        [] => matches!(base, Made::Function(_)),
        [first, ..] => matches!(first, Part::Function(..)),
    }
}

/// A parameter is the next variable as long as its list is read, and its name means it.
pub fn parameter_named(
    state: &mut State,
    name: Option<DeclaredName>,
    kind: TypeNo,
) -> Result<(), CheckError>
    ensures { (source : Source) → MatchResult result (λ x. declarators.parameter_named source name (kind, state.old) ≡ state.new) (λ e. e ≡ want_of_memory) }
{
    let number = state.variables.len();
    if number > 4_294_967_295 {
        return Err(out_of_memory());
    }
    let variable = Variable {
        kind,
        line: 0,
        addressed: false,
    };
    match state.variables.push(variable) {
        Ok(()) => {}
        Err(_) => return Err(out_of_memory()),
    }
    match name {
        None => Ok(()),
        Some(name) => {
            match state
                .symbols
                .declare(name.number, Symbol::Variable(number as u32))
            {
                Ok(()) => Ok(()),
                Err(_) => Err(out_of_memory()),
            }
        }
    }
}

/// Whether the name of a parameter is one that may not be declared.
#[tactic(auto, unfolding(declaration_rules::specs::Declarators::is_taken))]
fn is_taken_by(place: Where, state: &State, name: Option<DeclaredName>, spelling: &[u8]) -> bool
    ensures { (source : Source) → spelling_of source name ≡ spelling.now → result ≡ declarators.is_taken_by source place state.now name }
{
    match name {
        Some(name) => is_taken(place, state, is_given(spelling), name.number),
        None => false,
    }
}

/// A parameter's declarator: the spelling is that of its name.
#[tactic(auto, using(crate::proofs::Tellings::bound_tells))]
pub fn parameter_made(
    alloc: Global,
    state: &mut State,
    place: Where,
    here: u32,
    base: &Made,
    declared: &Around,
    spelling: &[u8],
) -> Result<(), CheckError>
    ensures { (source : Source) → spelling_of source declared.now.name ≡ spelling.now → GivesState (declarators.parameter_made source place here base.now (declared.now, state.old)) result state.new }
{
    if is_taken_by(place, state, declared.name, spelling) {
        return Err(fault(CheckKind::Redefined, here));
    }
    let whole = match made_of(alloc, state, declared.parts.as_slice(), base) {
        Ok(whole) => whole,
        Err(error) => return Err(error),
    };
    let kind = match adjusted(here, state, &whole) {
        Ok(kind) => kind,
        Err(error) => return Err(error),
    };
    match parameter_named(state, declared.name, kind) {
        Ok(()) => Ok(()),
        Err(_) => Err(out_of_memory()),
    }
}
