//! Definitions of functions (C11 6.9.1): where they begin and end.

ghost use Rattle.std.specs.Prelude.{◌≡◌, MatchResult, IfOk, map};
ghost use Rattle.declaration_rules.specs.Definitions as spec;
ghost use Rattle.declaration_rules.specs.Parts.{own_list};
ghost use Rattle.object_rules.specs.Definitions as own;
ghost use Rattle.rule_answers.specs.Faults.{want_of_memory};
ghost use Rattle.rule_answers.specs.Gives.{Gives};

use c_tree::Variable;
use c_types::TypeNo;
use declaration_rules::{Around, ParameterList, Part};
use rule_answers::{fault, out_of_memory};
use sqlite_items::Items;
use static_rules::{CheckError, CheckKind, DeclaredFunction, State};
use std::alloc::{AllocError, Global};
use std::mem;
use well_typed::Signature;

/// Begins the body of a function of this number, which has none yet: the type of its result.
pub fn begin_definition(
    alloc: Global,
    state: &mut State,
    here: u32,
    number: u32,
) -> Result<TypeNo, CheckError>
    ensures { Gives (own.begun here number state.old) result state.new }
{
    let at = number as usize;
    let Some(earlier) = state.functions.get(at) else {
        return Err(fault(CheckKind::TypeMismatch, here));
    };
    if earlier.defined {
        return Err(fault(CheckKind::Redefined, here));
    }
    let result_kind = earlier.signature.result;
    let place = earlier.number;
    let Ok(parameters) = Items::from_slice(alloc, earlier.signature.parameters.as_slice()) else {
        return Err(out_of_memory());
    };
    let function = DeclaredFunction {
        signature: Signature {
            result: result_kind,
            parameters,
        },
        number: place,
        defined: true,
    };
    state.functions.set(at, function);
    Ok(result_kind)
}

/// The list of parameters directly behind the name of a declarator.
pub fn into_own_list(mut declared: Around) -> Option<ParameterList>
    ensures { result ≡ own_list declared.parts }
{
    if declared.parts.is_empty() {
        return None;
    }
    match declared.parts.remove(0) {
        Part::Function(_, list) => Some(list),
        Part::Pointer(_) | Part::Array(..) | Part::OpenArray(_) => None,
    }
}

/// Parameters on the line of their function's name.
fn named_at(
    alloc: Global,
    line: u32,
    parameters: &[Variable],
) -> Result<Items<Variable>, AllocError>
    ensures { IfOk result (λ named. named ≡ map (spec.named_at line) parameters.now) }
{
    let mut named = Items::new(alloc);
    for parameter in parameters {
        named.push(Variable {
            kind: parameter.kind,
            line,
            addressed: parameter.addressed,
        })?;
    }
    Ok(named)
}

/// Declares what a list of parameters declared again, in the body of a function whose name stands on a line.
#[tactic(auto, unfolding(declaration_rules::specs::Definitions::with_parameters))]
pub fn with_parameters(
    alloc: Global,
    state: &mut State,
    line: u32,
    list: ParameterList,
) -> Result<(), CheckError>
    ensures { MatchResult result (λ _. spec.with_parameters line list state.old ≡ state.new) (λ e. e ≡ want_of_memory) }
{
    let ParameterList {
        variables,
        names,
        tags,
    } = list;
    match named_at(alloc, line, variables.as_slice()) {
        Ok(variables) => state.variables = variables,
        Err(_) => return Err(out_of_memory()),
    }
    state.block = Items::new(alloc);
    match state.symbols.extend(alloc, names) {
        Ok(()) => {}
        Err(_) => return Err(out_of_memory()),
    }
    match state.tags.extend(alloc, tags) {
        Ok(()) => Ok(()),
        Err(_) => Err(out_of_memory()),
    }
}

/// Ends the body of a function, which so many names and tags stood before: its variables.
pub fn end_definition(
    alloc: Global,
    state: &mut State,
    names_before: usize,
    tags_before: usize,
) -> Items<Variable>
    ensures variables { result ≡ state.old.variables }
    ensures after { state.new ≡ own.ended names_before tags_before state.old }
{
    state.symbols.close(names_before);
    state.tags.close(tags_before);
    state.block = Items::new(alloc);
    mem::replace(&mut state.variables, Items::new(alloc))
}
