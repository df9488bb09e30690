//! Calls of functions of the text and of those that each text has (C11 6.5.2.2), and what stands between commas (6.5.17).

ghost use Rattle.std.specs.Prelude.{◌≡◌, List, [], ◌∷◌, IfOk, Some};
ghost use Rattle.static_rules.specs.Calls as spec;
ghost use Rattle.static_rules.specs.Expressions as expressions;
ghost use Rattle.static_rules.specs.Operands as operands;
ghost use Rattle.static_rules.specs.declared.judged.Operand.{Operand};
ghost use Rattle.well_typed.specs.Surroundings as tree;

use crate::boxes::{pair, triple};
use crate::lists::{one, three, two};
use crate::operands::{at, changed_pair, promoted_number, unknown};
use c_print::Part;
use c_tree::Value;
use c_types::TypeNo;
use operand_plans::{CHAR, INT, UNSIGNED_LONG, VOID, is_whole};
use sqlite_items::{Boxed, Items};
use static_rules::{BuiltIn, Change, Operand};
use std::alloc::{AllocError, Global};

/// A call of a function of the text by its number: the type of its result, and the converted arguments.
pub fn call(line: u32, kind: TypeNo, number: u32, values: Items<Value>) -> Operand
    ensures { result ≡ operands.unknown (Value.Call (tree.at line kind) number values) kind }
{
    unknown(Value::Call(at(line, kind), number, values), kind)
}

// ---- the functions that each text has, but for `printf` and `atomic_fetch_add`

/// The node of one that takes this argument alone.
fn given_one(
    alloc: Global,
    line: u32,
    any: TypeNo,
    which: BuiltIn,
    x: Value,
) -> Result<Option<Operand>, AllocError>
    ensures { IfOk result (λ made. made ≡ spec.node_of line any which (x ∷ [])) }
{
    let x = Boxed::new(alloc, x)?;
    let (value, kind) = match which {
        BuiltIn::Malloc => (Value::Allocate(at(line, any), CHAR, x), any),
        BuiltIn::Free => (Value::Free(at(line, VOID), x), VOID),
        BuiltIn::Strlen => (
            Value::StringLength(at(line, UNSIGNED_LONG), x),
            UNSIGNED_LONG,
        ),
        BuiltIn::Puts => (Value::PrintLine(at(line, INT), x), INT),
        BuiltIn::Putchar => (Value::PrintByte(at(line, INT), x), INT),
        _ => return Ok(None),
    };
    Ok(Some(unknown(value, kind)))
}

/// The node of `calloc`.
fn given_two(
    alloc: Global,
    line: u32,
    any: TypeNo,
    count: Value,
    size: Value,
) -> Result<Operand, AllocError>
    ensures { IfOk result (λ made. made ≡ operands.unknown (Value.AllocateMany (tree.at line any) 2 count size) any) }
{
    let (count, size) = pair(alloc, count, size)?;
    Ok(unknown(Value::AllocateMany(at(line, any), CHAR, count, size), any))
}

/// The node of one that takes these three arguments.
fn given_three(
    alloc: Global,
    line: u32,
    any: TypeNo,
    which: BuiltIn,
    arguments: (Value, Value, Value),
) -> Result<Option<Operand>, AllocError>
    ensures { let values = arguments.0 ∷ arguments.1 ∷ arguments.2 ∷ [] in
        IfOk result (λ made. made ≡ spec.node_of line any which values) }
{
    let (to, x, size) = arguments;
    let (to, x, size) = triple(alloc, to, x, size)?;
    match which {
        BuiltIn::Memcpy => Ok(Some(unknown(Value::CopyBytes(at(line, any), to, x, size), any))),
        BuiltIn::Memset => Ok(Some(unknown(Value::FillBytes(at(line, any), to, x, size), any))),
        _ => Ok(None),
    }
}

/// The call of a function that each text has, with its converted arguments; `any` is the type `void *`, where it gives
/// one. Nothing is answered where it takes another number of them.
#[tactic(auto, using(crate::proofs::Arities::no_malloc, crate::proofs::Arities::no_free, crate::proofs::Arities::no_strlen, crate::proofs::Arities::no_puts, crate::proofs::Arities::no_putchar, crate::proofs::Arities::no_calloc, crate::proofs::Arities::no_memcpy, crate::proofs::Arities::no_memset))]
pub fn given_node(
    alloc: Global,
    line: u32,
    any: TypeNo,
    which: BuiltIn,
    values: Items<Value>,
) -> Result<Option<Operand>, AllocError>
    ensures { IfOk result (λ made. made ≡ spec.node_of line any which values) }
{
    match which {
        BuiltIn::Malloc | BuiltIn::Free | BuiltIn::Strlen | BuiltIn::Puts | BuiltIn::Putchar =>
            match one(values) {
                Some(x) => given_one(alloc, line, any, which, x),
                None => Ok(None),
            },
        BuiltIn::Calloc => match two(values) {
            Some((count, size)) => Ok(Some(given_two(alloc, line, any, count, size)?)),
            None => Ok(None),
        },
        BuiltIn::Memcpy | BuiltIn::Memset => match three(values) {
            Some(arguments) => given_three(alloc, line, any, which, arguments),
            None => Ok(None),
        },
        BuiltIn::Printf | BuiltIn::AtomicFetchAdd => Ok(None),
    }
}

// ---- `printf` (C11 7.21.6.3)

/// An argument of `printf`: a whole number is promoted, a pointer stays.
pub fn promoted_argument(alloc: Global, line: u32, x: Operand) -> Result<Operand, AllocError>
    ensures { IfOk result (λ made. made ≡ spec.promoted_argument line x) }
{
    if is_whole(x.kind) {
        promoted_number(alloc, line, x)
    } else {
        Ok(x)
    }
}

/// `printf(format, ..)`: the parts of the format, and the promoted arguments.
pub fn print(line: u32, parts: Items<Part>, values: Items<Value>) -> Operand
    ensures { result ≡ operands.unknown (Value.Print (tree.at line 6) parts values) 6 }
{
    unknown(Value::Print(at(line, INT), parts, values), INT)
}

// ---- `atomic_fetch_add` (C11 7.17.7.5)

/// `atomic_fetch_add(x, y)`: the type of the number, and how the second argument becomes one of it.
#[tactic(auto, unfolding(static_rules::specs::Operands::changed))]
pub fn fetch_added(
    alloc: Global,
    line: u32,
    kind: TypeNo,
    x: Operand,
    how: Change,
    y: Operand,
) -> Result<Operand, AllocError>
    ensures { IfOk result (λ made. Some made ≡ spec.added_by line kind x (Some (operands.changed line how y))) }
{
    let (x, y) = changed_pair(alloc, line, Change::Stay, how, x, y)?;
    Ok(unknown(Value::FetchAdd(at(line, kind), x, y), kind))
}

// ---- `first, .., last`

/// The values between commas, of which the last has this type.
pub fn comma(line: u32, kind: TypeNo, values: Items<Value>) -> Operand
    ensures { (xs : List Operand) → expressions.all_values xs ≡ values → expressions.last_type 1 xs ≡ kind →
        result ≡ expressions.comma line xs }
{
    unknown(Value::Comma(at(line, kind), values), kind)
}
