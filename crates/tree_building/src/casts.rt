//! Casts (C11 6.5.4).

ghost use Rattle.std.specs.Prelude.{◌≡◌, IfOk};
ghost use Rattle.static_rules.specs.Casts as spec;
ghost use Rattle.static_rules.specs.Operands.{operand};

use crate::operands::{allocation, at, seen};
use c_tree::{Value, Written};
use c_types::{TypeNo, TypeTable};
use operand_plans::known_cast;
use sqlite_items::Boxed;
use static_rules::{Casting, Known, Operand};
use std::alloc::{AllocError, Global};

fn cast_value(
    alloc: Global,
    line: u32,
    to: TypeNo,
    how: Casting,
    x: Value,
) -> Result<Value, AllocError>
    ensures { IfOk result (λ made. made ≡ spec.cast_value line to how x) }
{
    let at = at(line, to);
    match how {
        Casting::Discard => Ok(Value::Discard(at, Boxed::new(alloc, x)?)),
        Casting::Whole => Ok(Value::Convert(at, Written::Cast, Boxed::new(alloc, x)?)),
        Casting::Null => Ok(Value::NullPointer(at, Written::Cast, Boxed::new(alloc, x)?)),
        Casting::Keep => Ok(Value::KeepPointer(at, Written::Cast, Boxed::new(alloc, x)?)),
        Casting::Allocate(element) => {
            let call = allocation(to, element, x);
            Ok(Value::Allocated(at, Boxed::new(alloc, call)?))
        }
        Casting::Check => Ok(Value::CheckPointer(at, Written::Cast, Boxed::new(alloc, x)?)),
    }
}

/// What is known of the result.
fn known(types: &TypeTable, to: TypeNo, how: Casting, x: &Operand) -> Known
    ensures { result ≡ spec.known_cast types.now to how x.now }
{
    known_cast(types, to, how, seen(x))
}

/// `(type)value`, as was decided.
pub fn cast(
    alloc: Global,
    types: &TypeTable,
    line: u32,
    to: TypeNo,
    how: Casting,
    x: Operand,
) -> Result<Operand, AllocError>
    ensures { let known = spec.known_cast types.now to how x in
        IfOk result (λ made. made ≡ operand (spec.cast_value line to how x.value) to known) }
{
    let known = known(types, to, how, &x);
    let value = cast_value(alloc, line, to, how, x.value)?;
    Ok(Operand {
        value,
        kind: to,
        known,
    })
}
