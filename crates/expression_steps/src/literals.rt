//! String literals (C11 6.4.5).

ghost use Rattle.std.specs.Prelude.{◌≡◌, ◌≤◌, ◌+◌, length, IfOk};
ghost use Rattle.c_types.specs.Adding.{with_array};
ghost use Rattle.rule_answers.specs.Gives.{Gives};
ghost use Rattle.static_rules.specs.Answers.{or_bad_type};
ghost use Rattle.static_rules.specs.Primaries as spec;
ghost use Rattle.static_rules.specs.declared.faults.CheckKind.TheVariants as why;

use byte_texts::Text;
use c_tree::{Literal, MAX_INITIALISED_BYTES};
use c_types::{TypeError, TypeNo, TypeTable};
use operand_plans::CHAR;
use rule_answers::{fault, has_room_beside, out_of_memory};
use static_rules::{CheckError, CheckKind, Judged, State, Where};
use std::alloc::{AllocError, Global};
use tree_building::literal;

fn refused(reason: TypeError, here: u32) -> CheckError
    ensures { result ≡ record { kind = why.BadType reason; line = here } }
{
    fault(CheckKind::BadType(reason), here)
}

/// The number of the type of the characters of a literal and of the zero byte behind them.
#[tactic(auto, unfolding(c_types::specs::Adding::with_array))]
fn characters(types: &mut TypeTable, here: u32, bytes: &[u8]) -> Result<TypeNo, CheckError>
    ensures { Gives (or_bad_type here (with_array types.old 2 (length bytes.now + 1))) result types.new }
{
    if !has_room_beside(types, CHAR) || bytes.len() >= u32::MAX as usize {
        return Err(out_of_memory());
    }
    match types.add_array(CHAR, bytes.len() as u32 + 1) {
        Ok(number) => Ok(number),
        Err(TypeError::Memory(_)) => Err(out_of_memory()),
        Err(TypeError::Incomplete) => Err(refused(TypeError::Incomplete, here)),
        Err(TypeError::Empty) => Err(refused(TypeError::Empty, here)),
        Err(TypeError::BadFlexible) => Err(refused(TypeError::BadFlexible, here)),
        Err(TypeError::TooLarge) => Err(refused(TypeError::TooLarge, here)),
        Err(TypeError::Duplicate) => Err(refused(TypeError::Duplicate, here)),
    }
}

/// The type `char[n]` of a literal of these bytes, with a zero byte behind them.
#[tactic(auto, unfolding(static_rules::specs::Primaries::string_type))]
pub fn string_type(state: &mut State, here: u32, bytes: &[u8]) -> Result<TypeNo, CheckError>
    ensures { Gives (spec.string_type here state.old bytes.now) result state.new }
{
    match characters(&mut state.types, here, bytes) {
        Ok(kind) => Ok(kind),
        Err(error) => Err(error),
    }
}

/// Whether a literal that makes an object finds no room among the bytes of all that are initialised.
fn has_no_room(state: &State, at: Where, bytes: &[u8]) -> bool
    ensures { result ≡ spec.has_no_room at state.now bytes.now }
{
    !at.unevaluated && MAX_INITIALISED_BYTES < state.bytes as u64 + (bytes.len() as u64 + 1)
}

/// Makes the object of a literal, of this type.
fn made(
    alloc: Global,
    state: &mut State,
    line: u32,
    kind: TypeNo,
    bytes: &[u8],
) -> Result<Judged, AllocError>
    requires { state.old.bytes + (length bytes.now + 1) ≤ 1048576 }
    ensures { IfOk result (λ made. (made, state.new) ≡ spec.literal_made line bytes.now (kind, state.old)) }
{
    if state.literals.len() >= u32::MAX as usize {
        return Err(AllocError);
    }
    let number = state.literals.len() as u32;
    let mut text = Text::new(alloc);
    text.append(bytes)?;
    text.push(0)?;
    state.literals.push(Literal {
        kind,
        line,
        bytes: text,
    })?;
    state.bytes += bytes.len() as u32 + 1;
    Ok(literal(line, kind, number))
}

/// A string literal, which makes an object but under `sizeof`.
#[tactic(auto, unfolding(static_rules::specs::Primaries::string, static_rules::specs::Primaries::string_type))]
pub fn string(
    alloc: Global,
    state: &mut State,
    at: Where,
    here: u32,
    bytes: &[u8],
) -> Result<Judged, CheckError>
    ensures { Gives (spec.string at here state.old bytes.now) result state.new }
{
    if has_no_room(state, at, bytes) {
        return Err(fault(CheckKind::Limit, here));
    }
    match characters(&mut state.types, here, bytes) {
        Ok(kind) => {
            if at.unevaluated {
                return Ok(literal(at.line, kind, 0));
            }
            match made(alloc, state, at.line, kind, bytes) {
                Ok(judged) => Ok(judged),
                Err(_) => Err(out_of_memory()),
            }
        }
        Err(error) => Err(error),
    }
}
