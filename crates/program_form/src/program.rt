//! Whole programs of the form.

ghost use Rattle.std.specs.Prelude.{◌≡◌, ◌≤◌, ℕ, List, [], length, IfOk, IsErrOf, Result};
ghost use Rattle.c_grammar.specs.declared.units.Unit.{Unit as Tree};
ghost use Rattle.plain_meaning.specs.declared.tree.Function.{Function as Typed};
ghost use Rattle.program_form.specs.Answers.{Gives, GivesAll};
ghost use Rattle.program_form.specs.Programs as spec;
ghost use Rattle.program_form.specs.Programs.{IsForm, IsOutside, Forms};

use crate::error::{FormError, Unfit};
use crate::statements::block;
use byte_texts::Text;
use c_grammar::{Declarator, External, Function as Syntax, MAX_DEPTH, Unit};
use form_parts::{Scope, declared_name, is_reserved, is_void};
use plain_meaning::{Function, Program};
use scoped_names::Names;
use sqlite_items::Items;
use std::alloc::Global;
use token_texts::TokenTexts;

/// A function, and the number of its name.
#[derive(Drop)]
struct NumberedFunction {
    number: u32,
    function: Function,
}

/// The name in `NAME(void)` or `NAME()`.
#[tactic(auto, unfolding(crate::specs::Programs::function_name))]
fn function_name(texts: &TokenTexts, declarator: &Declarator) -> Option<u32>
    ensures { result ≡ spec.function_name texts.now declarator.now }
{
    match declarator {
        Declarator::Function(_, inner, parameters) => {
            if parameters.len() == 0 {
                declared_name(texts, inner.get())
            } else {
                None
            }
        }
        _ => None,
    }
}

/// `void NAME(void) { .. }`, with a name that none of the earlier functions has.
#[tactic(auto, unfolding(crate::specs::Programs::function))]
fn function(
    alloc: Global,
    texts: &TokenTexts,
    earlier: &Names,
    function: &Syntax,
) -> Result<NumberedFunction, Unfit>
    ensures { Gives result (spec.function texts.now earlier.now function.now) }
{
    if !is_void(&function.specs) {
        return Err(Unfit::Outside);
    }
    let Some(number) = function_name(texts, &function.declarator) else {
        return Err(Unfit::Outside);
    };
    if is_reserved(texts, number) || earlier.find(number).is_some() {
        return Err(Unfit::Outside);
    }
    let mut scope = Scope::new(alloc);
    let body = block(alloc, texts, &mut scope, MAX_DEPTH, &function.body)?;
    let mut name = Text::new(alloc);
    name.append(texts.name(number))?;
    Ok(NumberedFunction {
        number,
        function: Function { name, body },
    })
}

fn external(
    alloc: Global,
    texts: &TokenTexts,
    earlier: &Names,
    one: &External,
) -> Result<NumberedFunction, Unfit>
    ensures { Gives result (spec.external texts.now earlier.now one.now) }
{
    match one {
        External::Declaration(_) => Err(Unfit::Outside),
        External::Function(found) => function(alloc, texts, earlier, found),
    }
}

fn line_of(one: &External) -> u32
    ensures { result ≡ spec.line_of one.now }
{
    match one {
        External::Declaration(declaration) => declaration.place.line,
        External::Function(function) => function.place.line,
    }
}

fn functions(
    alloc: Global,
    texts: &TokenTexts,
    all: &[External],
) -> Result<Items<Function>, FormError>
    ensures value { GivesAll result (spec.functions texts.now [] [] all.now) }
    ensures few { IfOk result (λ found. length found ≤ length all.now) }
{
    let mut names = Names::new(alloc);
    let mut found = Items::new(alloc);
    for one in all {
        match external(alloc, texts, &names, one) {
            Ok(next) => {
                names.declare(next.number)?;
                found.push(next.function)?;
            }
            Err(Unfit::Outside) => return Err(FormError::NotYet(line_of(one))),
            Err(Unfit::Memory(e)) => return Err(FormError::Memory(e)),
        }
    }
    Ok(found)
}

/// The program of a unit of the form that runs: functions `void NAME(void)` over numbers of type `int`, `printf`, and pointers to
/// `int` and `char`.
pub fn program_of(alloc: Global, unit: &Unit) -> Result<Program, FormError>
    // What is answered is the program of the unit.
    ensures found { IfOk result (λ program. IsForm unit.now program) }
    ensures few { IfOk result (λ program. length program.functions ≤ length unit.now.items) }
    // What is refused is outside the form, and this is the line of the first declaration or function that is.
    ensures refused { (line : ℕ) → IsErrOf result (FormError.NotYet line) → IsOutside unit.now line }
{
    let functions = functions(alloc, &unit.texts, unit.items.as_slice())?;
    Ok(Program { functions })
}

/// A unit is one program at most, or is outside the form for one line at most, and never both.
pub fn law_form()
    ensures { (unit : Tree) (a b : Result (List Typed) ℕ) → Forms unit a → Forms unit b → a ≡ b }
{}
