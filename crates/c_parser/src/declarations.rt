//! Declarations (C11 6.7).

ghost use Rattle.std.specs.Prelude.{◌≤◌, ◌∷◌, [], length};
ghost use Rattle.c_tokens.specs.Limits.{max_tokens};
ghost use Rattle.c_grammar.specs.Limits.{max_depth};
ghost use Rattle.grammar_descent.specs.AllReaders.{readers};
ghost use Rattle.grammar_descent.specs.InitialiserSteps as step;
ghost use Rattle.token_reader.specs.Input.{Reads};
ghost use Rattle.c_parser.specs.Named.{ReadsNamed, HasSpelling, spelled_named};

use crate::initialisers::initialiser;
use crate::phrases;
use c_grammar::{Declaration, Declarator, InitDeclarator, Initialiser, NameKind, Naming};
use c_tokens::Mark;
use sqlite_items::Items;
use std::alloc::Global;
use token_reader::{ParameterNames, ParseError, Reader};

/// A declarator, the number of the name that it declares, and what the first list of parameters after the name declares.
#[derive(Debug, Drop)]
pub struct NamedDeclarator {
    pub node: Declarator,
    pub name: u32,
    pub own: Option<ParameterNames>,
}

/// `= initialiser`, or nothing.
#[tactic(auto, unfolding(grammar_descent::specs::InitialiserSteps::initialiser_after))]
fn initialiser_after(
    alloc: Global,
    reader: &mut Reader<'_>,
    depth: u32,
) -> Result<Option<Initialiser>, ParseError>
    requires { depth ≤ max_depth }
    ensures { Reads (λ text ts. step.initialiser_after ts (readers text ts) depth) reader.old result reader.new }
{
    if !reader.sees_mark(Mark::Equal) {
        return Ok(None);
    }
    reader.pass(1);
    Ok(Some(initialiser(alloc, reader, depth)?))
}

/// A declarator that has a name.
#[tactic(auto, unfolding(grammar_descent::specs::InitialiserSteps::named_declarator))]
pub fn named_declarator(
    alloc: Global,
    reader: &mut Reader<'_>,
    depth: u32,
) -> Result<NamedDeclarator, ParseError>
    requires { depth ≤ max_depth }
    ensures { ReadsNamed (λ text ts. step.named_declarator ts (readers text ts) depth) reader.old result reader.new }
{
    let found = phrases::declarator(alloc, reader, depth, Naming::Named)?;
    match found.name {
        Some(name) => Ok(NamedDeclarator {
            node: found.node,
            name,
            own: found.own,
        }),
        None => Err(reader.refuse()),
    }
}

/// What is declared with the declarator that was read from the token `from` on. Its name is in scope in its own initialiser (C11 6.2.1p7).
#[tactic(auto, unfolding(grammar_descent::specs::InitialiserSteps::with_initialiser))]
fn with_initialiser(
    alloc: Global,
    reader: &mut Reader<'_>,
    depth: u32,
    kind: NameKind,
    from: usize,
    declared: NamedDeclarator,
) -> Result<InitDeclarator, ParseError>
    requires small { depth ≤ max_depth }
    requires place { from ≤ max_tokens }
    requires spelled { HasSpelling reader.old.texts declared }
    ensures { Reads (λ text ts s. step.with_initialiser ts (readers text ts) depth kind from (spelled_named reader.old.texts declared, s)) reader.old result reader.new }
{
    let place = reader.place_at(from);
    reader.declare(declared.name, kind)?;
    let value = initialiser_after(alloc, reader, depth)?;
    Ok(InitDeclarator {
        place,
        declarator: declared.node,
        value,
    })
}

#[tactic(auto, unfolding(grammar_descent::specs::InitialiserSteps::init_declarator))]
fn init_declarator(
    alloc: Global,
    reader: &mut Reader<'_>,
    depth: u32,
    kind: NameKind,
) -> Result<InitDeclarator, ParseError>
    requires { depth ≤ max_depth }
    ensures { Reads (λ text ts. step.init_declarator ts (readers text ts) depth kind) reader.old result reader.new }
{
    let from = reader.at();
    let declared = named_declarator(alloc, reader, depth)?;
    with_initialiser(alloc, reader, depth, kind, from, declared)
}

/// After the first of them: the others, and the semicolon.
fn more_declarators(
    alloc: Global,
    reader: &mut Reader<'_>,
    depth: u32,
    kind: NameKind,
    first: InitDeclarator,
) -> Result<Items<InitDeclarator>, ParseError>
    requires { depth ≤ max_depth }
    ensures { Reads (λ text ts. step.more_declarators ts (readers text ts) depth kind (length ts) (first ∷ [])) reader.old result reader.new }
{
    let mut found = Items::new(alloc);
    found.push(first)?;
    for _turn in 0..reader.tokens_len() {
        if reader.sees_mark(Mark::Comma) {
            reader.pass(1);
            found.push(init_declarator(alloc, reader, depth, kind)?)?;
        } else {
            reader.expect(Mark::Semicolon)?;
            return Ok(found);
        }
    }
    Err(reader.refuse())
}

/// All of them, of which the first declarator was read from the token `from` on, and the semicolon.
#[tactic(auto, unfolding(grammar_descent::specs::InitialiserSteps::init_declarators))]
pub fn init_declarators(
    alloc: Global,
    reader: &mut Reader<'_>,
    depth: u32,
    kind: NameKind,
    from: usize,
    first: NamedDeclarator,
) -> Result<Items<InitDeclarator>, ParseError>
    requires small { depth ≤ max_depth }
    requires place { from ≤ max_tokens }
    requires spelled { HasSpelling reader.old.texts first }
    ensures { Reads (λ text ts s. step.init_declarators ts (readers text ts) depth kind from (spelled_named reader.old.texts first, s)) reader.old result reader.new }
{
    let first = with_initialiser(alloc, reader, depth, kind, from, first)?;
    more_declarators(alloc, reader, depth, kind, first)
}

/// A declaration, also one without declarators.
#[tactic(auto, unfolding(grammar_descent::specs::InitialiserSteps::declaration, grammar_descent::specs::InitialiserSteps::declaration_of_names))]
pub fn declaration(
    alloc: Global,
    reader: &mut Reader<'_>,
    depth: u32,
) -> Result<Declaration, ParseError>
    requires { depth ≤ max_depth }
    ensures { Reads (λ text ts. step.declaration ts (readers text ts) depth) reader.old result reader.new }
{
    let place = reader.place();
    let specs = phrases::specs(alloc, reader, depth)?;
    if reader.sees_mark(Mark::Semicolon) {
        reader.pass(1);
        return Ok(Declaration {
            place,
            specs: specs.node,
            declarators: Items::new(alloc),
        });
    }
    let from = reader.at();
    let first = named_declarator(alloc, reader, depth)?;
    let declarators = init_declarators(alloc, reader, depth, specs.kind, from, first)?;
    Ok(Declaration {
        place,
        specs: specs.node,
        declarators,
    })
}
