//! Operands, and how a plan converts them (C11 6.3).

ghost use Rattle.std.specs.Prelude.{◌≡◌, IfOk};
ghost use Rattle.c_tree.specs.declared.values.Value.{out-Value};
ghost use Rattle.static_rules.specs.Operands as spec;
ghost use Rattle.static_rules.specs.declared.plans.Change.TheVariants as change;
ghost use Rattle.well_typed.specs.Kinds as kinds;
ghost use Rattle.well_typed.specs.Surroundings as tree;

use crate::boxes::beside;
use c_tree::{At, Place, Value, Written};
use c_types::TypeNo;
use operand_plans::{known_as, promoted, to_whole};
use sqlite_items::Boxed;
use static_rules::{Change, Judged, Known, Operand, Seen, Tree};
use std::alloc::{AllocError, Global};

/// Where a node stands: the line of its statement, and its type.
pub(crate) fn at(line: u32, kind: TypeNo) -> At
    ensures { result ≡ tree.at line kind }
{
    At { kind, line }
}

/// An operand of which nothing is known.
pub(crate) fn unknown(value: Value, kind: TypeNo) -> Operand
    ensures { result ≡ spec.unknown value kind }
{
    Operand {
        value,
        kind,
        known: Known::Nothing,
    }
}

/// A value as an expression.
pub fn value(x: Operand) -> Judged
    ensures { result ≡ spec.value x }
{
    Judged {
        tree: Tree::Value(x.value),
        kind: x.kind,
        known: x.known,
    }
}

/// A place as an expression.
pub(crate) fn place(place: Place, kind: TypeNo) -> Judged
    ensures { result ≡ spec.place place kind }
{
    Judged {
        tree: Tree::Place(place),
        kind,
        known: Known::Nothing,
    }
}

// ---- what a rule sees

fn allocates(x: &Value) -> bool
    ensures { result ≡ spec.allocates_at (out-Value x.now) }
{
    matches!(x, Value::Allocate(..) | Value::AllocateMany(..))
}

/// What a rule sees of an operand.
pub fn seen(x: &Operand) -> Seen
    ensures { result ≡ spec.seen x.now }
{
    Seen {
        kind: x.kind,
        known: x.known,
        allocates: allocates(&x.value),
    }
}

// ---- what a place gives

/// An array as the address of its first element, of this pointer type (C11 6.3.2.1p3).
pub fn decayed(alloc: Global, line: u32, array: Place, kind: TypeNo) -> Result<Operand, AllocError>
    ensures { IfOk result (λ made. made ≡ spec.unknown (Value.Decay (tree.at line kind) array) kind) }
{
    let array = Boxed::new(alloc, array)?;
    Ok(unknown(Value::Decay(at(line, kind), array), kind))
}

/// What a place of a type that is no array gives: a scalar is loaded (C11 6.3.2.1p2), of a struct or a union the place
/// is evaluated.
pub fn read(
    alloc: Global,
    is_scalar: bool,
    line: u32,
    from: Place,
    kind: TypeNo,
) -> Result<Operand, AllocError>
    ensures { IfOk result (λ made. made ≡ spec.read is_scalar line from kind) }
{
    let from = Boxed::new(alloc, from)?;
    if is_scalar {
        Ok(unknown(Value::Load(at(line, kind), from), kind))
    } else {
        Ok(unknown(Value::Mention(at(line, kind), from), kind))
    }
}

// ---- conversions

/// A call of `malloc` or `calloc` that makes elements of a type, as a pointer of another type. Other values stay.
pub(crate) fn allocation(to: TypeNo, element: TypeNo, x: Value) -> Value
    ensures { result ≡ spec.allocation to element x }
{
    match x {
        Value::Allocate(call, _, size) => Value::Allocate(at(call.line, to), element, size),
        Value::AllocateMany(call, _, count, size) => {
            Value::AllocateMany(at(call.line, to), element, count, size)
        }
        other => other,
    }
}

#[tactic(auto, unfolding(static_rules::specs::Operands::changed))]
fn whole(alloc: Global, line: u32, to: TypeNo, x: Operand) -> Result<Operand, AllocError>
    ensures { IfOk result (λ made. made ≡ spec.changed line (change.Whole to) x) }
{
    let inner = Boxed::new(alloc, x.value)?;
    Ok(Operand {
        value: Value::Convert(at(line, to), Written::Implicit, inner),
        kind: to,
        known: known_as(to, x.known),
    })
}

#[tactic(auto, unfolding(static_rules::specs::Operands::changed))]
fn null(alloc: Global, line: u32, to: TypeNo, x: Operand) -> Result<Operand, AllocError>
    ensures { IfOk result (λ made. made ≡ spec.changed line (change.Null to) x) }
{
    let inner = Boxed::new(alloc, x.value)?;
    Ok(unknown(
        Value::NullPointer(at(line, to), Written::Implicit, inner),
        to,
    ))
}

#[tactic(auto, unfolding(static_rules::specs::Operands::changed))]
fn kept(alloc: Global, line: u32, to: TypeNo, x: Operand) -> Result<Operand, AllocError>
    ensures { IfOk result (λ made. made ≡ spec.changed line (change.Keep to) x) }
{
    let inner = Boxed::new(alloc, x.value)?;
    Ok(unknown(
        Value::KeepPointer(at(line, to), Written::Implicit, inner),
        to,
    ))
}

#[tactic(auto, unfolding(static_rules::specs::Operands::changed))]
fn checked(alloc: Global, line: u32, to: TypeNo, x: Operand) -> Result<Operand, AllocError>
    ensures { IfOk result (λ made. made ≡ spec.changed line (change.Check to) x) }
{
    let inner = Boxed::new(alloc, x.value)?;
    Ok(unknown(
        Value::CheckPointer(at(line, to), Written::Implicit, inner),
        to,
    ))
}

/// An operand as a plan converts it.
#[tactic(auto, unfolding(static_rules::specs::Operands::changed))]
pub fn changed(alloc: Global, line: u32, how: Change, x: Operand) -> Result<Operand, AllocError>
    ensures { IfOk result (λ made. made ≡ spec.changed line how x) }
{
    match how {
        Change::Stay => Ok(x),
        Change::Whole(to) => whole(alloc, line, to, x),
        Change::Null(to) => null(alloc, line, to, x),
        Change::Keep(to) => kept(alloc, line, to, x),
        Change::Check(to) => checked(alloc, line, to, x),
        Change::Allocate(to, element) => Ok(unknown(allocation(to, element, x.value), to)),
    }
}

/// A whole number as one of its promoted type (C11 6.3.1.1p2).
pub(crate) fn promoted_number(alloc: Global, line: u32, x: Operand) -> Result<Operand, AllocError>
    ensures { let how = spec.to_whole (kinds.promoted x.kind) (spec.seen x) in
        IfOk result (λ made. made ≡ spec.changed line how x) }
{
    let how = to_whole(promoted(x.kind), seen(&x));
    changed(alloc, line, how, x)
}

/// The value of a converted operand in a box.
pub(crate) fn changed_box(
    alloc: Global,
    line: u32,
    how: Change,
    x: Operand,
) -> Result<Boxed<Value>, AllocError>
    ensures { IfOk result (λ made. made ≡ (spec.changed line how x).value) }
{
    let x = changed(alloc, line, how, x)?;
    Boxed::new(alloc, x.value)
}

/// The values of two operands in boxes, as a plan converts them.
pub(crate) fn changed_pair(
    alloc: Global,
    line: u32,
    left: Change,
    right: Change,
    x: Operand,
    y: Operand,
) -> Result<(Boxed<Value>, Boxed<Value>), AllocError>
    ensures { IfOk result (λ made. made ≡ ((spec.changed line left x).value, (spec.changed line right y).value)) }
{
    let (x, y) = beside(changed_box(alloc, line, left, x), y)?;
    let (y, x) = beside(changed_box(alloc, line, right, y), x)?;
    Ok((x, y))
}
