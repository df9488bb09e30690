//! `printf` (C11 7.21.6.1, 7.21.6.3).

ghost use Rattle.std.specs.Prelude.{◌≡◌, ℕ, [], List, Option, Some, IfOk, OnOk};
ghost use Rattle.c_print.specs.declared.parts.Part.{Part as Piece};
ghost use Rattle.call_steps.specs.Printing as reading;
ghost use Rattle.rule_answers.specs.Gives.{Gives};
ghost use Rattle.static_rules.specs.Calls as spec;
ghost use Rattle.static_rules.specs.Expressions as expressions;
ghost use Rattle.static_rules.specs.Formats.{IsReading};
ghost use Rattle.static_rules.specs.declared.judged.Operand.{Operand as Read};

use c_print::{FormatError, Part};
use c_tree::Value;
use c_types::{TypeNo, TypeTable};
use operand_plans::fit;
use rule_answers::{fault, out_of_memory};
use sqlite_items::Items;
use static_rules::{CheckError, CheckKind, Operand, State, Where};
use std::alloc::{AllocError, Global};
use tree_building::promoted_argument;

/// The arguments of `printf` that were read behind its format, each promoted: their values, and their types.
#[derive(Drop)]
pub struct PrintArguments {
    pub values: Items<Value>,
    pub kinds: Items<TypeNo>,
}

/// No arguments, before the first is read.
#[tactic(auto, unfolding(crate::specs::Printing::print_arguments))]
pub fn no_print_arguments(alloc: Global) -> PrintArguments
    ensures { (line : ℕ) → reading.print_arguments line [] ≡ result }
{
    PrintArguments {
        values: Items::new(alloc),
        kinds: Items::new(alloc),
    }
}

/// One more argument, which is promoted.
pub fn add_printed(
    alloc: Global,
    line: u32,
    x: Operand,
    arguments: &mut PrintArguments,
) -> Result<(), AllocError>
    ensures { let made = spec.promoted_argument line x in
        OnOk result (arguments.new ≡ reading.with_printed arguments.old made) }
{
    let x = promoted_argument(alloc, line, x)?;
    arguments.kinds.push(x.kind)?;
    arguments.values.push(x.value)?;
    Ok(())
}

/// The parts of a format, nothing where it is none.
#[tactic(auto, using(crate::proofs::Promotions::only_parts, crate::proofs::Promotions::no_parts))]
pub fn parts_of(alloc: Global, format: &[u8]) -> Result<Option<Items<Part>>, AllocError>
    ensures { (parts : Option (List Piece)) → IsReading format.now parts → IfOk result (λ made. made ≡ parts) }
{
    match c_print::parts_of(alloc, format) {
        Ok(parts) => Ok(Some(Items::from_vec(parts))),
        Err(FormatError::BadFormat(_)) => Ok(None),
        Err(FormatError::Memory(error)) => Err(error),
    }
}

/// Whether the parts print the arguments, one after another.
pub fn fits(types: &TypeTable, parts: &[Part], arguments: &PrintArguments) -> bool
    ensures { (line : ℕ) (xs : List Read) → reading.print_arguments line xs ≡ arguments.now →
        result ≡ spec.fit types.now parts.now (expressions.promoted_all line xs) }
{
    fit(types, parts, arguments.kinds.as_slice())
}

/// What a format of these parts prints.
#[tactic(auto, using(crate::proofs::Promotions::values_are))]
fn printed(
    state: &State,
    at: Where,
    here: u32,
    parts: Items<Part>,
    arguments: PrintArguments,
) -> Result<Operand, CheckError>
    ensures { (xs : List Read) → reading.print_arguments at.line xs ≡ arguments →
        Gives (spec.printed at here state.now (expressions.promoted_all at.line xs) (Some parts)) result state.now }
{
    if at.constant || !fits(&state.types, parts.as_slice(), &arguments) {
        return Err(fault(CheckKind::TypeMismatch, here));
    }
    Ok(tree_building::print(at.line, parts, arguments.values))
}

/// `printf` with the bytes of its format, and what was read of the arguments behind it.
pub fn print(
    alloc: Global,
    state: &State,
    at: Where,
    here: u32,
    format: &[u8],
    arguments: PrintArguments,
) -> Result<Operand, CheckError>
    ensures { (parts : Option (List Piece)) (xs : List Read) → IsReading format.now parts →
        reading.print_arguments at.line xs ≡ arguments →
        Gives (spec.printed at here state.now (expressions.promoted_all at.line xs) parts) result state.now }
{
    match parts_of(alloc, format) {
        Ok(Some(parts)) => printed(state, at, here, parts, arguments),
        Ok(None) => Err(fault(CheckKind::TypeMismatch, here)),
        Err(_) => Err(out_of_memory()),
    }
}
