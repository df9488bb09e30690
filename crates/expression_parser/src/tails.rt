//! What stands after an operand (C11 6.5.2 and 6.5.5 to 6.5.17): it is read first, and joined with the operand then.

ghost use Rattle.std.specs.Prelude.{◌≡◌, ◌+◌, ◌<◌, ◌≤◌, length};
ghost use Rattle.c_tokens.specs.Limits.{max_tokens};
ghost use Rattle.c_grammar.specs.Limits.{max_depth};
ghost use Rattle.grammar_descent.specs.AllReaders.{readers};
ghost use Rattle.grammar_descent.specs.ExpressionSteps as spec;
ghost use Rattle.expression_parser.specs.Growing.{Finds, found};
ghost use Rattle.expression_parser.specs.Tails as tails;
ghost use Rattle.token_reader.specs.Input.{Reads};
ghost use Rattle.token_reader.specs.Nests.{Nests};

use crate::growing::{Growing, node_within};
use crate::inner::Inner;
use c_grammar::{Assignment, Binary, Level, Naming, Selection};
use c_tokens::Mark;
use expression_nodes::{Tail, growth_level, join, right_operand_level};
use grammar_descent::Growth;
use std::alloc::Global;
use token_reader::{FoundDeclarator, FoundExpression, FoundSpecs, ParseError, Reader};

impl<
    E: Fn(Global, &mut Reader<'_>, u32, Level) -> Result<FoundExpression, ParseError>,
    S: Fn(Global, &mut Reader<'_>, u32) -> Result<FoundSpecs, ParseError>,
    D: Fn(Global, &mut Reader<'_>, u32, Naming) -> Result<FoundDeclarator, ParseError>,
> Inner<E, S, D> {
    /// `[index]`
    #[tactic(auto, unfolding(crate::specs::Tails::index_tail))]
    fn index_tail(&self, reader: &mut Reader<'_>) -> Result<(Tail, u32), ParseError>
        requires token { reader.old.state.at < length reader.old.tokens }
        requires nests { Nests self.now.depth (E.pre self.now.expression) (E.post self.now.expression) (S.pre self.now.specs) (S.post self.now.specs) (D.pre self.now.declarator) (D.post self.now.declarator) }
        ensures { Reads (λ text ts. tails.index_tail text ts self.now.depth (readers text ts self.now.depth)) reader.old result reader.new }
    {
        reader.pass(1);
        let (index, height) = self.expression_before(reader, Mark::RightBracket)?;
        Ok((Tail::Index(index), height))
    }

    /// `(arguments)`
    #[tactic(auto, unfolding(crate::specs::Tails::call_tail))]
    fn call_tail(&self, reader: &mut Reader<'_>) -> Result<(Tail, u32), ParseError>
        requires token { reader.old.state.at < length reader.old.tokens }
        requires nests { Nests self.now.depth (E.pre self.now.expression) (E.post self.now.expression) (S.pre self.now.specs) (S.post self.now.specs) (D.pre self.now.declarator) (D.post self.now.declarator) }
        ensures { Reads (λ text ts. tails.call_tail text ts self.now.depth (readers text ts self.now.depth)) reader.old result reader.new }
    {
        reader.pass(1);
        let (arguments, height) = self.arguments_before(reader)?;
        Ok((Tail::Call(arguments), height))
    }

    /// `.name` or `->name`
    #[tactic(auto, unfolding(crate::specs::Tails::member_tail))]
    fn member_tail(
        &self,
        reader: &mut Reader<'_>,
        how: Selection,
    ) -> Result<(Tail, u32), ParseError>
        requires token { reader.old.state.at < length reader.old.tokens }
        ensures { Reads (λ text ts. tails.member_tail text ts self.now.depth (readers text ts self.now.depth) how) reader.old result reader.new }
    {
        if !reader.sees_name_after(1) {
            reader.pass(1);
            return Err(reader.refuse());
        }
        let name = reader.at() as u32 + 1;
        reader.pass(2);
        Ok((Tail::Select(how, name), 0))
    }

    /// An operator, and its right operand.
    #[tactic(auto, unfolding(crate::specs::Tails::binary_tail))]
    fn binary_tail(&self, reader: &mut Reader<'_>, op: Binary) -> Result<(Tail, u32), ParseError>
        requires token { reader.old.state.at < length reader.old.tokens }
        requires nests { Nests self.now.depth (E.pre self.now.expression) (E.post self.now.expression) (S.pre self.now.specs) (S.post self.now.specs) (D.pre self.now.declarator) (D.post self.now.declarator) }
        ensures { Reads (λ text ts. tails.binary_tail text ts self.now.depth (readers text ts self.now.depth) op) reader.old result reader.new }
    {
        reader.pass(1);
        let (right, height) = self.expression(reader, right_operand_level(op))?;
        Ok((Tail::Binary(op, right), height))
    }

    /// `? then : otherwise`
    #[tactic(auto, unfolding(crate::specs::Tails::conditional_tail))]
    fn conditional_tail(&self, reader: &mut Reader<'_>) -> Result<(Tail, u32), ParseError>
        requires token { reader.old.state.at < length reader.old.tokens }
        requires nests { Nests self.now.depth (E.pre self.now.expression) (E.post self.now.expression) (S.pre self.now.specs) (S.post self.now.specs) (D.pre self.now.declarator) (D.post self.now.declarator) }
        ensures { Reads (λ text ts. tails.conditional_tail text ts self.now.depth (readers text ts self.now.depth)) reader.old result reader.new }
    {
        reader.pass(1);
        let (then, high) = self.expression_before(reader, Mark::Colon)?;
        let (otherwise, height) = self.expression(reader, Level::Conditional)?;
        Ok((Tail::Conditional(then, otherwise), high.max(height)))
    }

    /// `=`, or an operator with it, and the value.
    #[tactic(auto, unfolding(crate::specs::Tails::assignment_tail))]
    fn assignment_tail(
        &self,
        reader: &mut Reader<'_>,
        op: Assignment,
    ) -> Result<(Tail, u32), ParseError>
        requires token { reader.old.state.at < length reader.old.tokens }
        requires nests { Nests self.now.depth (E.pre self.now.expression) (E.post self.now.expression) (S.pre self.now.specs) (S.post self.now.specs) (D.pre self.now.declarator) (D.post self.now.declarator) }
        ensures { Reads (λ text ts. tails.assignment_tail text ts self.now.depth (readers text ts self.now.depth) op) reader.old result reader.new }
    {
        reader.pass(1);
        let (value, height) = self.expression(reader, Level::Assignment)?;
        Ok((Tail::Assign(op, value), height))
    }

    /// `, second, ..`
    #[tactic(auto, unfolding(crate::specs::Tails::comma_tail))]
    fn comma_tail(&self, reader: &mut Reader<'_>) -> Result<(Tail, u32), ParseError>
        requires token { reader.old.state.at < length reader.old.tokens }
        requires nests { Nests self.now.depth (E.pre self.now.expression) (E.post self.now.expression) (S.pre self.now.specs) (S.post self.now.specs) (D.pre self.now.declarator) (D.post self.now.declarator) }
        ensures { Reads (λ text ts. tails.comma_tail text ts self.now.depth (readers text ts self.now.depth)) reader.old result reader.new }
    {
        reader.pass(1);
        let (rest, height) = self.expressions(reader)?;
        Ok((Tail::Comma(rest), height))
    }

    /// All that stands after an operand and makes a larger expression of it, and the height of its highest part.
    fn tail(&self, reader: &mut Reader<'_>, by: Growth) -> Result<(Tail, u32), ParseError>
        requires token { reader.old.state.at < length reader.old.tokens }
        requires nests { Nests self.now.depth (E.pre self.now.expression) (E.post self.now.expression) (S.pre self.now.specs) (S.post self.now.specs) (D.pre self.now.declarator) (D.post self.now.declarator) }
        ensures { Reads (λ text ts. tails.tail text ts self.now.depth (readers text ts self.now.depth) by) reader.old result reader.new }
    {
        match by {
            Growth::Index => self.index_tail(reader),
            Growth::Call => self.call_tail(reader),
            Growth::Select(how) => self.member_tail(reader, how),
            Growth::Postfix(op) => {
                reader.pass(1);
                Ok((Tail::Postfix(op), 0))
            }
            Growth::Binary(op) => self.binary_tail(reader, op),
            Growth::Conditional => self.conditional_tail(reader),
            Growth::Assign(op) => self.assignment_tail(reader, op),
            Growth::Comma => self.comma_tail(reader),
        }
    }

    /// The larger expression that the operand, which begins at `start`, makes with what stands after it.
    #[tactic(auto, using(crate::proofs::Joined::by_tail))]
    pub fn growth_after(
        &self,
        reader: &mut Reader<'_>,
        by: Growth,
        start: usize,
        left: Growing,
    ) -> Result<Growing, ParseError>
        requires small { self.now.depth < max_depth }
        requires begun { start ≤ max_tokens }
        requires token { reader.old.state.at < length reader.old.tokens }
        requires nests { Nests self.now.depth (E.pre self.now.expression) (E.post self.now.expression) (S.pre self.now.specs) (S.post self.now.specs) (D.pre self.now.declarator) (D.post self.now.declarator) }
        ensures { Finds (λ text ts s. spec.growth_after text ts self.now.depth (readers text ts self.now.depth) by start (found left s)) reader.old result reader.new }
    {
        let (tail, height) = self.tail(reader, by)?;
        let node = join(self.alloc, reader.place_at(start), left.node, tail)?;
        node_within(
            self.depth,
            reader,
            node,
            left.height.max(height),
            growth_level(by),
        )
    }
}
