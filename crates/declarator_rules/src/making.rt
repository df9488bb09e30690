//! The type that a declarator makes (C11 6.7.6), from the outside to the name.

ghost use Rattle.std.specs.Prelude.{◌≡◌};
ghost use Rattle.declaration_rules.specs.Parts as spec;
ghost use Rattle.rule_answers.specs.Gives.{Gives};

use crate::arrays::{array_of, open_array_of};
use crate::parts::{copy_of, function_of, pointed};
use declaration_rules::Part;
use rule_answers::{fault, out_of_memory};
use static_rules::{CheckError, CheckKind, Feature, Made, State};
use std::alloc::Global;

/// What a part makes around what the parts outside it make.
#[tactic(auto, unfolding(declaration_rules::specs::Parts::made_by))]
pub fn made_by(
    alloc: Global,
    state: &mut State,
    part: &Part,
    base: &Made,
) -> Result<Made, CheckError>
    ensures { Gives (spec.made_by state.old part.now base.now) result state.new }
{
    match part {
        Part::Pointer(here) => match base {
            Made::Function(_) => { Err(fault(CheckKind::LeftOut(Feature::FunctionPointer), *here)) }
            Made::Known(_) | Made::Array(..) | Made::Open(_) => pointed(state, base),
        },
        Part::Array(here, count) => match base {
            Made::Function(_) => Err(fault(CheckKind::TypeMismatch, *here)),
            Made::Known(_) | Made::Array(..) | Made::Open(_) => {
                array_of(*here, state, base, *count)
            }
        },
        Part::OpenArray(here) => match base {
            Made::Function(_) => Err(fault(CheckKind::TypeMismatch, *here)),
            Made::Known(_) | Made::Array(..) | Made::Open(_) => open_array_of(*here, state, base),
        },
        Part::Function(here, list) => match base {
            Made::Known(kind) => function_of(alloc, *here, list, state, *kind),
            Made::Array(..) | Made::Open(_) | Made::Function(_) => {
                Err(fault(CheckKind::TypeMismatch, *here))
            }
        },
    }
}

/// The type that parts make around the type of specifiers. The outermost type is in no table yet where it is an array.
#[tactic(auto, unfolding(declaration_rules::specs::Parts::made))]
pub fn made(
    alloc: Global,
    state: &mut State,
    parts: &[Part],
    base: Made,
) -> Result<Made, CheckError>
    ensures { Gives (spec.made state.old parts.now base) result state.new }
{
    let mut kind = base;
    let mut left = parts.len();
    while left > 0 {
        left -= 1;
        match made_by(alloc, state, &parts[left], &kind) {
            Ok(next) => kind = next,
            Err(error) => return Err(error),
        }
    }
    Ok(kind)
}

/// The same around the type of specifiers that more declarators follow.
pub fn made_of(
    alloc: Global,
    state: &mut State,
    parts: &[Part],
    base: &Made,
) -> Result<Made, CheckError>
    ensures { Gives (spec.made state.old parts.now base.now) result state.new }
{
    match copy_of(alloc, base) {
        Ok(base) => made(alloc, state, parts, base),
        Err(_) => Err(out_of_memory()),
    }
}
