//! What stands within expressions: names of types, lists of expressions, and each of them with the mark after it.

ghost use Rattle.c_tokens.specs.declared.kind.Mark.TheVariants as marks;
ghost use Rattle.c_grammar.specs.declared.words.Level.TheVariants as of;
ghost use Rattle.c_grammar.specs.Operators.{tightness};
ghost use Rattle.grammar_descent.specs.AllReaders.{readers};
ghost use Rattle.grammar_descent.specs.ExpressionSteps as spec;
ghost use Rattle.expression_parser.specs.Before.{before};
ghost use Rattle.token_reader.specs.Input.{Reads};
ghost use Rattle.token_reader.specs.Nests.{Nests};

use crate::inner::Inner;
use c_grammar::{Expression, Level, Naming, TypePhrase};
use c_tokens::Mark;
use sqlite_items::Items;
use std::alloc::Global;
use token_reader::{FoundDeclarator, FoundExpression, FoundSpecs, ParseError, Reader};

impl<
    E: Fn(Global, &mut Reader<'_>, u32, Level) -> Result<FoundExpression, ParseError>,
    S: Fn(Global, &mut Reader<'_>, u32) -> Result<FoundSpecs, ParseError>,
    D: Fn(Global, &mut Reader<'_>, u32, Naming) -> Result<FoundDeclarator, ParseError>,
> Inner<E, S, D> {
    /// The name of a type (C11 6.7.7), and its height.
    #[tactic(auto, using(crate::proofs::TypePhrases::by_kind))]
    pub fn type_phrase(&self, reader: &mut Reader<'_>) -> Result<(TypePhrase, u32), ParseError>
        requires { Nests self.now.depth (E.pre self.now.expression) (E.post self.now.expression) (S.pre self.now.specs) (S.post self.now.specs) (D.pre self.now.declarator) (D.post self.now.declarator) }
        ensures { Reads (λ text ts. spec.type_phrase text ts self.now.depth (readers text ts self.now.depth)) reader.old result reader.new }
    {
        let place = reader.place();
        let specs = self.specs(reader)?;
        let declarator = self.declarator(reader, Naming::NotNamed)?;
        let found = TypePhrase {
            place,
            specs: specs.node,
            declarator: declarator.node,
        };
        Ok((found, specs.height.max(declarator.height)))
    }

    /// Expressions with commas between them, one at least, and the height of the highest.
    pub fn expressions(
        &self,
        reader: &mut Reader<'_>,
    ) -> Result<(Items<Expression>, u32), ParseError>
        requires { Nests self.now.depth (E.pre self.now.expression) (E.post self.now.expression) (S.pre self.now.specs) (S.post self.now.specs) (D.pre self.now.declarator) (D.post self.now.declarator) }
        ensures { Reads (λ text ts. spec.expressions text ts self.now.depth (readers text ts self.now.depth)) reader.old result reader.new }
    {
        let mut found = Items::new(self.alloc);
        let mut high = 0;
        for _turn in 0..reader.tokens_len() {
            let (item, height) = self.expression(reader, Level::Assignment)?;
            found.push(item)?;
            high = high.max(height);
            if !reader.sees_mark(Mark::Comma) {
                return Ok((found, high));
            }
            reader.pass(1);
        }
        Err(reader.refuse())
    }

    /// Those of a call, up to the parenthesis that closes it.
    #[tactic(auto, unfolding(grammar_descent::specs::ExpressionSteps::arguments))]
    pub fn arguments(&self, reader: &mut Reader<'_>) -> Result<(Items<Expression>, u32), ParseError>
        requires { Nests self.now.depth (E.pre self.now.expression) (E.post self.now.expression) (S.pre self.now.specs) (S.post self.now.specs) (D.pre self.now.declarator) (D.post self.now.declarator) }
        ensures { Reads (λ text ts. spec.arguments text ts self.now.depth (readers text ts self.now.depth)) reader.old result reader.new }
    {
        if reader.sees_mark(Mark::RightParen) {
            return Ok((Items::new(self.alloc), 0));
        }
        self.expressions(reader)
    }

    /// An expression of any level, and the mark after it.
    #[tactic(auto, unfolding(crate::specs::Before::before))]
    pub fn expression_before(
        &self,
        reader: &mut Reader<'_>,
        mark: Mark,
    ) -> Result<FoundExpression, ParseError>
        requires { Nests self.now.depth (E.pre self.now.expression) (E.post self.now.expression) (S.pre self.now.specs) (S.post self.now.specs) (D.pre self.now.declarator) (D.post self.now.declarator) }
        ensures { Reads (λ text ts. before ts mark ((readers text ts self.now.depth).expression (tightness of.Comma))) reader.old result reader.new }
    {
        let found = self.expression(reader, Level::Comma)?;
        reader.expect(mark)?;
        Ok(found)
    }

    /// The name of a type, and the parenthesis after it.
    #[tactic(auto, unfolding(crate::specs::Before::before))]
    pub fn type_before(&self, reader: &mut Reader<'_>) -> Result<(TypePhrase, u32), ParseError>
        requires { Nests self.now.depth (E.pre self.now.expression) (E.post self.now.expression) (S.pre self.now.specs) (S.post self.now.specs) (D.pre self.now.declarator) (D.post self.now.declarator) }
        ensures { Reads (λ text ts. before ts marks.RightParen (spec.type_phrase text ts self.now.depth (readers text ts self.now.depth))) reader.old result reader.new }
    {
        let found = self.type_phrase(reader)?;
        reader.expect(Mark::RightParen)?;
        Ok(found)
    }

    /// The arguments of a call, and the parenthesis after them.
    #[tactic(auto, unfolding(crate::specs::Before::before))]
    pub fn arguments_before(
        &self,
        reader: &mut Reader<'_>,
    ) -> Result<(Items<Expression>, u32), ParseError>
        requires { Nests self.now.depth (E.pre self.now.expression) (E.post self.now.expression) (S.pre self.now.specs) (S.post self.now.specs) (D.pre self.now.declarator) (D.post self.now.declarator) }
        ensures { Reads (λ text ts. before ts marks.RightParen (spec.arguments text ts self.now.depth (readers text ts self.now.depth))) reader.old result reader.new }
    {
        let found = self.arguments(reader)?;
        reader.expect(Mark::RightParen)?;
        Ok(found)
    }
}
