//! Primary expressions (C11 6.5.1). None of them takes memory.

ghost use Rattle.std.specs.Prelude.{◌≡◌};
ghost use Rattle.static_rules.specs.Operands as operands;
ghost use Rattle.static_rules.specs.Primaries as spec;
ghost use Rattle.static_rules.specs.declared.judged.Known.TheVariants as known;
ghost use Rattle.well_typed.specs.Surroundings as tree;

use crate::operands::{at, place, value};
use c_tree::{Place, Value};
use c_types::TypeNo;
use static_rules::{Judged, Known, Operand};

/// A whole-number constant of a type.
pub fn constant(line: u32, kind: TypeNo, number: i128) -> Judged
    ensures { result ≡ spec.constant line kind number }
{
    value(Operand {
        value: Value::Number(at(line, kind), number),
        kind,
        known: Known::Number(number),
    })
}

/// `NULL` (C11 7.19p3), of the type `void *`, whose number is given.
pub fn null(line: u32, kind: TypeNo) -> Judged
    ensures { result ≡ operands.value (operands.operand (Value.Null (tree.at line kind)) kind known.NullPointer) }
{
    value(Operand {
        value: Value::Null(at(line, kind)),
        kind,
        known: Known::NullPointer,
    })
}

/// The place of a variable or a parameter, by its number in the function.
pub fn variable(line: u32, kind: TypeNo, number: u32) -> Judged
    ensures { result ≡ operands.place (Place.Variable (tree.at line kind) number) kind }
{
    place(Place::Variable(at(line, kind), number), kind)
}

/// The place of an object of the whole text, by its number.
pub fn global(line: u32, kind: TypeNo, number: u32) -> Judged
    ensures { result ≡ operands.place (Place.Global (tree.at line kind) number) kind }
{
    place(Place::Global(at(line, kind), number), kind)
}

/// The place of a string literal, by its number: under `sizeof` any, since it makes no object there (C11 6.4.5p6).
pub fn literal(line: u32, kind: TypeNo, number: u32) -> Judged
    ensures { result ≡ operands.place (Place.Literal (tree.at line kind) number) kind }
{
    place(Place::Literal(at(line, kind), number), kind)
}
