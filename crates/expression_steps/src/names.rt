//! Names (C11 6.5.1p2).

ghost use Rattle.std.specs.Prelude.{◌≡◌, Ok, slice_get};
ghost use Rattle.scoped_meanings.specs.Meanings.{declared_at};
ghost use Rattle.rule_answers.specs.Gives.{Gives};
ghost use Rattle.static_rules.specs.Operands as operands;
ghost use Rattle.static_rules.specs.Primaries as spec;

use crate::adding::kind_by_now;
use c_tree::Variable;
use operand_plans::{INT, VOID};
use rule_answers::{fault, out_of_memory, pointer_to};
use static_rules::{CheckError, CheckKind, Feature, Judged, State, Symbol};
use tree_building::{constant, global, null, variable};

fn variable_at(variables: &[Variable], at: usize) -> Option<Variable>
    ensures { result ≡ slice_get variables.now at }
{
    variables.get(at).copied()
}

/// A variable of the function that is read, by its number.
fn named_variable(
    state: &mut State,
    line: u32,
    here: u32,
    number: u32,
) -> Result<Judged, CheckError>
    ensures { Gives (spec.variable_by line here number state.old (slice_get state.old.variables number))
        result state.new }
{
    let Some(found) = variable_at(state.variables.as_slice(), number as usize) else {
        return Err(fault(CheckKind::Unknown, here));
    };
    match kind_by_now(state, found.kind) {
        Ok(kind) => Ok(variable(line, kind, number)),
        Err(_) => Err(out_of_memory()),
    }
}

/// An object of the whole text, by its number.
fn named_global(state: &mut State, line: u32, here: u32, number: u32) -> Result<Judged, CheckError>
    ensures { Gives (spec.global_by line here number state.old (declared_at state.old.globals number))
        result state.new }
{
    let kind = match state.globals.get(number as usize) {
        Some(found) => found.kind,
        None => return Err(fault(CheckKind::Unknown, here)),
    };
    match kind_by_now(state, kind) {
        Ok(kind) => Ok(global(line, kind, number)),
        Err(_) => Err(out_of_memory()),
    }
}

/// `NULL` (C11 7.19p3).
fn named_null(state: &mut State, line: u32) -> Result<Judged, CheckError>
    ensures { Gives (Ok (spec.null line (operands.pointer_to state.old 1))) result state.new }
{
    match pointer_to(state, VOID) {
        Ok(kind) => Ok(null(line, kind)),
        Err(_) => Err(out_of_memory()),
    }
}

/// What a name is: a variable, an object of the whole text, an enumeration constant or `NULL` (C11 6.4.4.3, 6.5.1p2).
#[tactic(auto, unfolding(static_rules::specs::Primaries::named))]
pub fn named(state: &mut State, line: u32, here: u32, name: u32) -> Result<Judged, CheckError>
    ensures { Gives (spec.named line here state.old name) result state.new }
{
    match state.symbols.meaning(name) {
        Some(Symbol::Variable(number)) => {
            let number = *number;
            named_variable(state, line, here, number)
        }
        Some(Symbol::Global(number)) => {
            let number = *number;
            named_global(state, line, here, number)
        }
        Some(Symbol::Function(_) | Symbol::Given(_)) => {
            Err(fault(CheckKind::LeftOut(Feature::FunctionPointer), here))
        }
        Some(Symbol::Null) => named_null(state, line),
        Some(Symbol::Constant(value)) => Ok(constant(line, INT, *value as i128)),
        Some(Symbol::Typedef(_)) => Err(fault(CheckKind::TypeMismatch, here)),
        None => Err(fault(CheckKind::Unknown, here)),
    }
}
