//! The parsers of all phrases that nest no deeper than some depth. They lead to one another: what is nested in a phrase is read
//! by those of the depth below, and the values of enumeration constants by that of expressions of the same depth.

ghost use Rattle.std.specs.Prelude.{◌≤◌};
ghost use Rattle.c_grammar.specs.Limits.{max_depth};
ghost use Rattle.c_grammar.specs.Operators.{tightness};
ghost use Rattle.grammar_descent.specs.AllReaders.{readers};
ghost use Rattle.token_reader.specs.Found.{ReadsDeclarator};
ghost use Rattle.token_reader.specs.Input.{Reads};
ghost use Rattle.token_reader.specs.Nests.{with_kind};

use c_grammar::{Level, Naming};
use declarator_parser::Declaring;
use expression_parser::Inner;
use std::alloc::Global;
use token_reader::{FoundDeclarator, FoundExpression, FoundSpecs, ParseError, Reader};

/// An expression of the level or a tighter one.
#[cycle(phrases)]
pub fn expression(
    alloc: Global,
    reader: &mut Reader<'_>,
    depth: u32,
    level: Level,
) -> Result<FoundExpression, ParseError>
    requires { depth ≤ max_depth }
    ensures { Reads (λ text ts. (readers text ts depth).expression (tightness level)) reader.old result reader.new }
{
    if depth == 0 {
        return Err(reader.refuse());
    }
    Inner {
        alloc,
        depth: depth - 1,
        expression,
        specs,
        declarator,
    }
    .expression_step(reader, level)
}

/// Declaration specifiers.
#[cycle(phrases)]
pub fn specs(alloc: Global, reader: &mut Reader<'_>, depth: u32) -> Result<FoundSpecs, ParseError>
    requires { depth ≤ max_depth }
    ensures { Reads (λ text ts. with_kind (readers text ts depth).specs) reader.old result reader.new }
{
    Declaring {
        alloc,
        depth,
        expression,
        specs,
        declarator,
    }
    .read_specs(reader)
}

/// A declarator.
#[cycle(phrases)]
pub fn declarator(
    alloc: Global,
    reader: &mut Reader<'_>,
    depth: u32,
    how: Naming,
) -> Result<FoundDeclarator, ParseError>
    requires { depth ≤ max_depth }
    ensures { ReadsDeclarator (λ text ts. (readers text ts depth).declarator how) reader.old result reader.new }
{
    Declaring {
        alloc,
        depth,
        expression,
        specs,
        declarator,
    }
    .read_declarator(reader, how)
}
