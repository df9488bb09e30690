//! Types of constants, of the parameters of the functions that each text has, and of what `printf` prints.

ghost use Rattle.std.specs.Prelude.{◌≡◌, List, map};
ghost use Rattle.operand_plans.specs.Formats as formats;
ghost use Rattle.operand_plans.specs.Parameters.{taken};
ghost use Rattle.static_rules.specs.Calls as spec;
ghost use Rattle.static_rules.specs.declared.judged.Operand.{Operand};
ghost use Rattle.static_rules.specs.Primaries as primaries;

use crate::kinds::{
    CHAR, INT, LONG, UNSIGNED_CHAR, UNSIGNED_INT, UNSIGNED_LONG, VOID, is_whole, target,
};
use c_print::Part;
use c_tokens::NumType;
use c_types::{TypeNo, TypeTable};
use static_rules::BuiltIn;

/// The type of a whole-number constant (C11 6.4.4.1).
pub fn constant_type(kind: NumType) -> TypeNo
    ensures { result ≡ primaries.constant_type kind }
{
    match kind {
        NumType::Int => INT,
        NumType::UInt => UNSIGNED_INT,
        NumType::Long => LONG,
        NumType::ULong => UNSIGNED_LONG,
    }
}

/// What a parameter takes: a type of the table, or a pointer to a type, which the table may not have yet.
#[derive(Clone, Copy, Debug, PartialEq, Eq)]
pub enum Parameter {
    Kind(TypeNo),
    PointerTo(TypeNo),
}

/// The parameters of a function that each text has (C11 7.21.7.8, 7.21.7.9, 7.22.3, 7.24); none of `printf` and
/// `atomic_fetch_add`, which have rules of their own.
pub fn taken_by(which: BuiltIn) -> &'static [Parameter]
    ensures { map taken result.now ≡ spec.taken_by which }
{
    match which {
        BuiltIn::Malloc => &[Parameter::Kind(UNSIGNED_LONG)],
        BuiltIn::Calloc => &[
            Parameter::Kind(UNSIGNED_LONG),
            Parameter::Kind(UNSIGNED_LONG),
        ],
        BuiltIn::Free => &[Parameter::PointerTo(VOID)],
        BuiltIn::Memcpy => &[
            Parameter::PointerTo(VOID),
            Parameter::PointerTo(VOID),
            Parameter::Kind(UNSIGNED_LONG),
        ],
        BuiltIn::Memset => &[
            Parameter::PointerTo(VOID),
            Parameter::Kind(INT),
            Parameter::Kind(UNSIGNED_LONG),
        ],
        BuiltIn::Strlen | BuiltIn::Puts => &[Parameter::PointerTo(CHAR)],
        BuiltIn::Putchar => &[Parameter::Kind(INT)],
        BuiltIn::Printf | BuiltIn::AtomicFetchAdd => &[],
    }
}

/// Whether a part of a format prints an argument of a type: a number of the width that `l` says, or a pointer to
/// characters (C11 7.21.6.1p7 and p8).
pub fn prints(types: &TypeTable, part: &Part, kind: TypeNo) -> bool
    ensures { result ≡ spec.prints types.now part.now kind }
{
    match part {
        Part::Plain(_) => false,
        Part::Number { long: true, .. } => kind == LONG || kind == UNSIGNED_LONG,
        Part::Number { long: false, .. } => kind == INT || kind == UNSIGNED_INT,
        Part::Str { .. } => matches!(target(types, kind), Some(CHAR | UNSIGNED_CHAR)),
    }
}

fn is_plain(part: &Part) -> bool
    ensures { result ≡ formats.is_plain part.now }
{
    matches!(part, Part::Plain(_))
}

/// Whether each part of a format that is not plain prints the next of the arguments, which are of these types, and none
/// is left (C11 7.21.6.1p2).
pub fn fit(types: &TypeTable, parts: &[Part], kinds: &[TypeNo]) -> bool
    ensures { (xs : List Operand) → map (λ x. x.kind) xs ≡ kinds.now → result ≡ spec.fit types.now parts.now xs }
{
    let mut used = 0;
    for part in parts {
        if is_plain(part) {
            continue;
        }
        if used == kinds.len() || !prints(types, part, kinds[used]) {
            return false;
        }
        used += 1;
    }
    used == kinds.len()
}

/// The whole number to which a pointer points (C11 7.17.7.5).
pub fn whole_target(types: &TypeTable, kind: TypeNo) -> Option<TypeNo>
    ensures { result ≡ spec.whole_target types.now kind }
{
    let to = target(types, kind)?;
    is_whole(to).then_some(to)
}
