//! Operators before one operand (C11 6.5.3.3), and `?:` (6.5.15).

ghost use Rattle.std.specs.Prelude.{◌≡◌, IfOk};
ghost use Rattle.static_rules.specs.Constants as constants;
ghost use Rattle.static_rules.specs.Operands as operands;
ghost use Rattle.static_rules.specs.Operators as spec;
ghost use Rattle.well_typed.specs.Kinds as kinds;
ghost use Rattle.well_typed.specs.Surroundings as tree;

use crate::boxes::beside;
use crate::operands::{at, changed_pair, promoted_number};
use c_tree::{UnaryOperator, Value};
use c_types::TypeNo;
use operand_plans::{INT, known_not, known_unary, promoted};
use sqlite_items::Boxed;
use static_rules::{Choice, Operand};
use std::alloc::{AllocError, Global};

fn unary_node(
    alloc: Global,
    line: u32,
    operator: UnaryOperator,
    kind: TypeNo,
    x: Operand,
) -> Result<Operand, AllocError>
    ensures { IfOk result (λ made. made ≡ spec.unary_node line operator kind x) }
{
    let known = known_unary(operator, kind, x.known);
    let inner = Boxed::new(alloc, x.value)?;
    Ok(Operand {
        value: Value::Unary(at(line, kind), operator, inner),
        kind,
        known,
    })
}

/// `+`, `-` and `~` before a whole number, which is promoted.
pub fn unary(
    alloc: Global,
    line: u32,
    operator: UnaryOperator,
    x: Operand,
) -> Result<Operand, AllocError>
    ensures { let kind = kinds.promoted x.kind in
        let promoted = operands.changed line (operands.to_whole kind (operands.seen x)) x in
        IfOk result (λ made. made ≡ spec.unary_node line operator kind promoted) }
{
    let kind = promoted(x.kind);
    let x = promoted_number(alloc, line, x)?;
    unary_node(alloc, line, operator, kind, x)
}

/// `!` before a number or a pointer.
pub fn negated(alloc: Global, line: u32, x: Operand) -> Result<Operand, AllocError>
    ensures { let value = Value.Not (tree.at line 6) x.value in
        IfOk result (λ made. made ≡ operands.operand value 6 (constants.known_not x.known)) }
{
    let known = known_not(x.known);
    let inner = Boxed::new(alloc, x.value)?;
    Ok(Operand {
        value: Value::Not(at(line, INT), inner),
        kind: INT,
        known,
    })
}

/// `test ? a : b`, of which the last two are converted as was decided.
pub fn chosen(
    alloc: Global,
    line: u32,
    choice: Choice,
    test: Operand,
    a: Operand,
    b: Operand,
) -> Result<Operand, AllocError>
    ensures { IfOk result (λ made. made ≡ spec.chosen line choice test a b) }
{
    let both = changed_pair(alloc, line, choice.left, choice.right, a, b);
    let ((a, b), test) = beside(both, test.value)?;
    let (test, (a, b)) = beside(Boxed::new(alloc, test), (a, b))?;
    Ok(Operand {
        value: Value::Conditional(at(line, choice.kind), test, a, b),
        kind: choice.kind,
        known: choice.known,
    })
}
