//! The parser of phrases takes the parsers of what is nested in them as values, so that each is proved by itself.

ghost use Rattle.grammar_descent.specs.AllReaders.{readers};
ghost use Rattle.c_grammar.specs.Operators.{tightness};
ghost use Rattle.token_reader.specs.Found.{ReadsDeclarator};
ghost use Rattle.token_reader.specs.Input.{Reads};
ghost use Rattle.token_reader.specs.Nests.{Nests, with_kind};

use c_grammar::{Level, Naming};
use std::alloc::Global;
use token_reader::{FoundDeclarator, FoundExpression, FoundSpecs, ParseError, Reader};

/// The parsers of phrases that are nested no deeper than `depth`.
#[derive(Clone, Copy)]
pub struct Inner<E, S, D> {
    pub alloc: Global,
    pub depth: u32,
    pub expression: E,
    pub specs: S,
    pub declarator: D,
}

impl<
    E: Fn(Global, &mut Reader<'_>, u32, Level) -> Result<FoundExpression, ParseError>,
    S: Fn(Global, &mut Reader<'_>, u32) -> Result<FoundSpecs, ParseError>,
    D: Fn(Global, &mut Reader<'_>, u32, Naming) -> Result<FoundDeclarator, ParseError>,
> Inner<E, S, D> {
    /// An expression of the level.
    pub fn expression(
        &self,
        reader: &mut Reader<'_>,
        level: Level,
    ) -> Result<FoundExpression, ParseError>
        requires { Nests self.now.depth (E.pre self.now.expression) (E.post self.now.expression) (S.pre self.now.specs) (S.post self.now.specs) (D.pre self.now.declarator) (D.post self.now.declarator) }
        ensures { Reads (λ text ts. (readers text ts self.now.depth).expression (tightness level)) reader.old result reader.new }
    {
        (self.expression)(self.alloc, reader, self.depth, level)
    }

    /// Declaration specifiers.
    pub fn specs(&self, reader: &mut Reader<'_>) -> Result<FoundSpecs, ParseError>
        requires { Nests self.now.depth (E.pre self.now.expression) (E.post self.now.expression) (S.pre self.now.specs) (S.post self.now.specs) (D.pre self.now.declarator) (D.post self.now.declarator) }
        ensures { Reads (λ text ts. with_kind (readers text ts self.now.depth).specs) reader.old result reader.new }
    {
        (self.specs)(self.alloc, reader, self.depth)
    }

    /// A declarator.
    pub fn declarator(
        &self,
        reader: &mut Reader<'_>,
        how: Naming,
    ) -> Result<FoundDeclarator, ParseError>
        requires { Nests self.now.depth (E.pre self.now.expression) (E.post self.now.expression) (S.pre self.now.specs) (S.post self.now.specs) (D.pre self.now.declarator) (D.post self.now.declarator) }
        ensures { ReadsDeclarator (λ text ts. (readers text ts self.now.depth).declarator how) reader.old result reader.new }
    {
        (self.declarator)(self.alloc, reader, self.depth, how)
    }
}
