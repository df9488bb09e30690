//! Variables of a function (C11 6.2.4p5), and arrays that take their size from an initialiser (6.7.9p22).

ghost use Rattle.std.specs.Prelude.{◌≡◌, length};
ghost use Rattle.c_types.specs.Adding as adding;
ghost use Rattle.declaration_rules.specs.Objects as spec;
ghost use Rattle.rule_answers.specs.Gives.{Gives, Makes};
ghost use Rattle.static_rules.specs.Answers.{or_bad_type};

use c_tree::Variable;
use c_types::{TypeNo, TypeTable};
use declaration_rules::Introduced;
use rule_answers::{has_room_beside, open_array_type, out_of_memory, refused};
use static_rules::{CheckError, State, Symbol, Where};

/// The array type of so many elements, where there may be one.
#[tactic(auto, using(crate::proofs::Tellings::array_tells), unfolding(c_types::specs::Adding::with_array))]
fn sized_array(
    here: u32,
    types: &mut TypeTable,
    of: TypeNo,
    count: u32,
) -> Result<TypeNo, CheckError>
    ensures { Gives (or_bad_type here (adding.with_array types.old of count)) result types.new }
{
    if !has_room_beside(types, of) {
        return Err(out_of_memory());
    }
    match types.add_array(of, count) {
        Ok(number) => Ok(number),
        Err(reason) => Err(refused(here, reason)),
    }
}

/// The type of an array without a size behind its initialiser, from which it takes one or not.
#[tactic(auto, using(crate::proofs::Tellings::bound_tells), unfolding(declaration_rules::specs::Objects::completed_array))]
pub fn completed_array(
    state: &mut State,
    here: u32,
    of: TypeNo,
    count: Option<u32>,
) -> Result<TypeNo, CheckError>
    ensures { Gives (spec.completed_array here of state.old count) result state.new }
{
    match count {
        Some(count) => match sized_array(here, &mut state.types, of, count) {
            Ok(number) => Ok(number),
            Err(error) => Err(error),
        },
        None => match open_array_type(&mut state.types, of) {
            Ok(number) => Ok(number),
            Err(_) => Err(out_of_memory()),
        },
    }
}

/// A variable is of another type from now on.
pub fn with_variable_kind(state: &mut State, number: u32, kind: TypeNo)
    ensures { state.new ≡ spec.with_variable_kind number kind state.old }
{
    let at = number as usize;
    let Some(variable) = state.variables.get(at) else {
        return;
    };
    let changed = Variable {
        kind,
        line: variable.line,
        addressed: variable.addressed,
    };
    state.variables.set(at, changed);
}

/// A new variable of the function and of its innermost block, whose name is known from now on: its number.
#[tactic(auto, unfolding(declaration_rules::specs::Objects::new_variable))]
pub fn new_variable(
    state: &mut State,
    place: Where,
    introduced: Introduced,
    kind: TypeNo,
) -> Result<u32, CheckError>
    ensures { Makes (length state.old.variables, spec.new_variable place introduced kind state.old) result state.new }
{
    let Ok(number) = u32::try_from(state.variables.len()) else {
        return Err(out_of_memory());
    };
    let variable = Variable {
        kind,
        line: place.line,
        addressed: false,
    };
    match state.variables.push(variable) {
        Ok(()) => {}
        Err(_) => return Err(out_of_memory()),
    }
    match state.block.push(number) {
        Ok(()) => {}
        Err(_) => return Err(out_of_memory()),
    }
    match state
        .symbols
        .declare(introduced.name, Symbol::Variable(number))
    {
        Ok(()) => Ok(number),
        Err(_) => Err(out_of_memory()),
    }
}
