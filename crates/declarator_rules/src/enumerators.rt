//! Enumeration constants (C11 6.7.2.2).

ghost use Rattle.std.specs.Prelude.{◌≡◌, ◌+ℤ◌, pos};
ghost use Rattle.declarator_rules.specs.Enumerators.{enumerator_declared};
ghost use Rattle.rule_answers.specs.Gives.{Gives};
ghost use Rattle.static_rules.specs.Source.{Source, spelled};
ghost use Rattle.well_typed.specs.Kinds as kinds;

use crate::names::{declared, is_given};
use operand_plans::{INT, wrapped};
use static_rules::{CheckError, State, Symbol, Where};

/// The value of an enumeration constant, which is an `int` (C11 6.7.2.2p3).
pub fn enumerator_value(value: i128) -> i32
    ensures { result ≡ kinds.wrapped 6 value }
{
    wrapped(INT, value) as i32
}

/// The value of an enumeration constant behind another.
pub fn next_value(value: i32) -> i32
    ensures { result ≡ kinds.wrapped 6 (value +ℤ pos 1) }
{
    enumerator_value(i128::from(value) + 1)
}

/// Declares an enumeration constant, and gives the value of one behind it.
#[tactic(auto, using(crate::proofs::Tellings::bound_tells), unfolding(static_rules::specs::Predefined::declared))]
pub fn enumerator_made(
    state: &mut State,
    place: Where,
    here: u32,
    name: u32,
    spelling: &[u8],
    value: i32,
) -> Result<i32, CheckError>
    ensures { (source : Source) → spelled source name ≡ spelling.now → Gives (enumerator_declared source place here state.old name value) result state.new }
{
    let given = is_given(spelling);
    match declared(place, here, state, given, name, Symbol::Constant(value)) {
        Ok(()) => Ok(next_value(value)),
        Err(error) => Err(error),
    }
}
