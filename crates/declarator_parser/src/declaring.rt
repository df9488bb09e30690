//! The parser of specifiers and declarators takes the parsers of what is nested in them as values.

ghost use Rattle.std.specs.Prelude.{◌<◌, ◌≤◌, IfOk, OnOk};
ghost use Rattle.c_grammar.specs.Operators.{tightness};
ghost use Rattle.c_grammar.specs.declared.words.Level.TheVariants as of;
ghost use Rattle.grammar_descent.specs.AllReaders.{readers};
ghost use Rattle.grammar_descent.specs.Exact.{Grows};
ghost use Rattle.declarator_parser.specs.Below.{below, NestsBelow};
ghost use Rattle.token_reader.specs.Input.{Reads};
ghost use Rattle.declarator_parser.specs.WithRoles.{ReadsSpecs};
ghost use Rattle.token_reader.specs.Found.{ReadsDeclarator};

use c_grammar::{Level, Naming};
use grammar_descent::law_readers;
use std::alloc::Global;
use token_reader::{FoundDeclarator, FoundExpression, FoundSpecs, ParseError, Reader, refused_at};

/// The parser of specifiers and declarators that are nested no deeper than `depth`.
#[derive(Clone, Copy)]
pub struct Declaring<E, S, D> {
    pub alloc: Global,
    pub depth: u32,
    pub expression: E,
    pub specs: S,
    pub declarator: D,
}

impl<
    E: Fn(Global, &mut Reader<'_>, u32, Level) -> Result<FoundExpression, ParseError> + Copy,
    S: Fn(Global, &mut Reader<'_>, u32) -> Result<FoundSpecs, ParseError> + Copy,
    D: Fn(Global, &mut Reader<'_>, u32, Naming) -> Result<FoundDeclarator, ParseError> + Copy,
> Declaring<E, S, D> {
    /// The value of an enumeration constant, which is an expression of this depth. At depth 0 the `=` before it is refused.
    pub fn value(&self, reader: &mut Reader<'_>) -> Result<FoundExpression, ParseError>
        requires { NestsBelow self.now.depth (E.pre self.now.expression) (E.post self.now.expression) (S.pre self.now.specs) (S.post self.now.specs) (D.pre self.now.declarator) (D.post self.now.declarator) }
        ensures reads { Reads (λ text ts. (readers text ts self.now.depth).expression (tightness of.Conditional)) reader.old result reader.new }
        ensures low { IfOk result (λ found. found.1 ≤ self.now.depth) }
    {
        law_readers();
        let equal = (self.depth == 0).then_some(reader.at().saturating_sub(1) as u32);
        let found = (self.expression)(self.alloc, reader, self.depth, Level::Conditional);
        refused_at(found, equal)
    }

    /// An expression that is nested less deep.
    pub fn inner_expression(&self, reader: &mut Reader<'_>) -> Result<FoundExpression, ParseError>
        requires { NestsBelow self.now.depth (E.pre self.now.expression) (E.post self.now.expression) (S.pre self.now.specs) (S.post self.now.specs) (D.pre self.now.declarator) (D.post self.now.declarator) }
        ensures reads { Reads (λ text ts. (below text ts self.now.depth).expression (tightness of.Conditional)) reader.old result reader.new }
        ensures low { IfOk result (λ found. found.1 < self.now.depth) }
    {
        law_readers();
        if self.depth == 0 {
            return Err(reader.refuse());
        }
        (self.expression)(self.alloc, reader, self.depth - 1, Level::Conditional)
    }

    /// Specifiers that are nested less deep.
    pub fn inner_specs(&self, reader: &mut Reader<'_>) -> Result<FoundSpecs, ParseError>
        requires { NestsBelow self.now.depth (E.pre self.now.expression) (E.post self.now.expression) (S.pre self.now.specs) (S.post self.now.specs) (D.pre self.now.declarator) (D.post self.now.declarator) }
        ensures reads { ReadsSpecs (λ text ts. (below text ts self.now.depth).specs) reader.old result reader.new }
        ensures low { IfOk result (λ found. found.height < self.now.depth) }
        ensures grows { OnOk result (Grows reader.old.state.scope reader.new.state.scope) }
    {
        law_readers();
        if self.depth == 0 {
            return Err(reader.refuse());
        }
        (self.specs)(self.alloc, reader, self.depth - 1)
    }

    /// A declarator that is nested less deep.
    pub fn inner_declarator(
        &self,
        reader: &mut Reader<'_>,
        how: Naming,
    ) -> Result<FoundDeclarator, ParseError>
        requires { NestsBelow self.now.depth (E.pre self.now.expression) (E.post self.now.expression) (S.pre self.now.specs) (S.post self.now.specs) (D.pre self.now.declarator) (D.post self.now.declarator) }
        ensures reads { ReadsDeclarator (λ text ts. (below text ts self.now.depth).declarator how) reader.old result reader.new }
        ensures low { IfOk result (λ found. found.height < self.now.depth) }
        ensures grows { OnOk result (Grows reader.old.state.scope reader.new.state.scope) }
    {
        law_readers();
        if self.depth == 0 {
            return Err(reader.refuse());
        }
        (self.declarator)(self.alloc, reader, self.depth - 1, how)
    }
}
