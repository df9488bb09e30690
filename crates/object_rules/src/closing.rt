//! The end of a declaration: what does not fit, and how many bytes it initialises.

ghost use Rattle.declaration_rules.specs.Declarations as spec;
ghost use Rattle.object_rules.specs.Closing.{closed_by};
ghost use Rattle.rule_answers.specs.Gives.{GivesState};

use c_tree::MAX_INITIALISED_BYTES;
use rule_answers::fault;
use static_rules::{CheckError, CheckKind, State};

/// Counts the bytes of objects of the whole text that are initialised, and of string literals.
#[tactic(auto, unfolding(declaration_rules::specs::Declarations::with_bytes))]
pub fn with_bytes(state: &mut State, here: u32, bytes: u64) -> Result<(), CheckError>
    ensures { GivesState (spec.with_bytes here state.old bytes) result state.new }
{
    if bytes > MAX_INITIALISED_BYTES {
        return Err(fault(CheckKind::Limit, here));
    }
    let total = u64::from(state.bytes) + bytes;
    if total > MAX_INITIALISED_BYTES {
        return Err(fault(CheckKind::Limit, here));
    }
    state.bytes = total as u32;
    Ok(())
}

/// Ends a declaration whose objects of the whole text have so many bytes, where a value outside braces did not fit or not.
pub fn close_declaration(
    state: &mut State,
    here: u32,
    mismatch: bool,
    bytes: u64,
) -> Result<(), CheckError>
    ensures { GivesState (closed_by here mismatch bytes state.old) result state.new }
{
    if mismatch {
        return Err(fault(CheckKind::TypeMismatch, here));
    }
    match with_bytes(state, here, bytes) {
        Ok(()) => Ok(()),
        Err(error) => Err(error),
    }
}
