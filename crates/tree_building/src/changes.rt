//! What changes a place: assignments (C11 6.5.16), `++` and `--` (6.5.2.4, 6.5.3.1). The type is that of the place.

ghost use Rattle.std.specs.Prelude.{◌≡◌, IfOk};
ghost use Rattle.static_rules.specs.Changes as spec;
ghost use Rattle.static_rules.specs.Operands as operands;
ghost use Rattle.well_typed.specs.Surroundings as tree;

use crate::boxes::{beside, pair};
use crate::operands::{at, changed_box, unknown};
use c_tree::{Fixity, Operator, Place, Step, Value};
use c_types::TypeNo;
use sqlite_items::Boxed;
use static_rules::{Change, Operand, Stepping, Updating};
use std::alloc::{AllocError, Global};

/// A place that changes, in a box, and a value as a plan converts it.
fn place_and_changed(
    alloc: Global,
    line: u32,
    to: Place,
    how: Change,
    x: Operand,
) -> Result<(Boxed<Place>, Boxed<Value>), AllocError>
    ensures { IfOk result (λ made. made ≡ (to, (operands.changed line how x).value)) }
{
    let (x, to) = beside(changed_box(alloc, line, how, x), to)?;
    let (to, x) = beside(Boxed::new(alloc, to), x)?;
    Ok((to, x))
}

/// A struct or a union from a place of its own type.
pub fn copied(
    alloc: Global,
    line: u32,
    kind: TypeNo,
    to: Place,
    from: Place,
) -> Result<Operand, AllocError>
    ensures { IfOk result (λ made. made ≡ operands.unknown (Value.Copy (tree.at line kind) to from) kind) }
{
    let (to, from) = pair(alloc, to, from)?;
    Ok(unknown(Value::Copy(at(line, kind), to, from), kind))
}

/// `place = value` of a scalar; the value is converted as was decided.
pub fn stored(
    alloc: Global,
    line: u32,
    kind: TypeNo,
    to: Place,
    how: Change,
    x: Operand,
) -> Result<Operand, AllocError>
    ensures { let value = Value.Assign (tree.at line kind) to (operands.changed line how x).value in
        IfOk result (λ made. made ≡ operands.unknown value kind) }
{
    let (to, x) = place_and_changed(alloc, line, to, how, x)?;
    Ok(unknown(Value::Assign(at(line, kind), to, x), kind))
}

/// `place op= value`.
pub fn updated(
    alloc: Global,
    line: u32,
    kind: TypeNo,
    how: Updating,
    x: Operand,
    to: Place,
) -> Result<Operand, AllocError>
    ensures { IfOk result (λ made. made ≡ operands.unknown (spec.updated_value line kind how x to) kind) }
{
    let at = at(line, kind);
    match how {
        Updating::Number(operator, computing, right) => {
            let (to, x) = place_and_changed(alloc, line, to, right, x)?;
            Ok(unknown(Value::Update(at, operator, computing, to, x), kind))
        }
        Updating::Pointer(step) => {
            let (to, x) = pair(alloc, to, x.value)?;
            Ok(unknown(Value::UpdatePointer(at, step, to, x), kind))
        }
    }
}

/// `++` and `--`, before and behind a place.
pub fn stepped(
    alloc: Global,
    line: u32,
    kind: TypeNo,
    step: Step,
    fixity: Fixity,
    how: Stepping,
    to: Place,
) -> Result<Operand, AllocError>
    ensures { IfOk result (λ made. made ≡ operands.unknown (spec.stepped_value line kind step fixity how to) kind) }
{
    let at = at(line, kind);
    let to = Boxed::new(alloc, to)?;
    match how {
        Stepping::Number(computing) => {
            Ok(unknown(Value::Step(at, step, fixity, computing, to), kind))
        }
        Stepping::Pointer => Ok(unknown(Value::StepPointer(at, step, fixity, to), kind)),
    }
}
