//! What begins an expression (C11 6.5.1, 6.5.3 and 6.5.4).

ghost use Rattle.std.specs.Prelude.{◌≡◌, ◌+◌, ◌<◌, ◌≤◌, length};
ghost use Rattle.c_grammar.specs.Limits.{max_depth};
ghost use Rattle.c_grammar.specs.Operators.{tightness};
ghost use Rattle.c_grammar.specs.Tokens.{IsName};
ghost use Rattle.c_grammar.specs.declared.words.Level.TheVariants as of;
ghost use Rattle.grammar_descent.specs.AllReaders.{readers};
ghost use Rattle.grammar_descent.specs.ExpressionSteps as spec;
ghost use Rattle.grammar_descent.specs.Reading.{past};
ghost use Rattle.expression_parser.specs.Growing.{Finds};
ghost use Rattle.token_reader.specs.Input.{Reads};
ghost use Rattle.token_reader.specs.Nests.{Nests};
ghost use Rattle.token_reader.specs.Reader.{moved};

use crate::growing::{Growing, node_within};
use crate::inner::Inner;
use c_grammar::{Expression, Level, Naming, Prefix};
use c_tokens::{Keyword, Kind, Mark};
use expression_nodes::{operand_level, prefix_of};
use std::alloc::Global;
use token_reader::{FoundDeclarator, FoundExpression, FoundSpecs, ParseError, Reader, refused_at};

/// Goes past string literals in a row.
#[tactic(auto, unfolding(grammar_descent::specs::ExpressionSteps::past_strings))]
fn pass_strings(reader: &mut Reader<'_>)
    ensures { reader.new ≡ moved reader.old (record { at = spec.past_strings reader.old.tokens (length reader.old.tokens) reader.old.state.at; scope = reader.old.state.scope }) }
{
    for _turn in 0..reader.tokens_len() {
        if !reader.sees(Kind::Str) {
            return;
        }
        reader.pass(1);
    }
}

impl<
    E: Fn(Global, &mut Reader<'_>, u32, Level) -> Result<FoundExpression, ParseError>,
    S: Fn(Global, &mut Reader<'_>, u32) -> Result<FoundSpecs, ParseError>,
    D: Fn(Global, &mut Reader<'_>, u32, Naming) -> Result<FoundDeclarator, ParseError>,
> Inner<E, S, D> {
    /// A name that is no type.
    #[tactic(auto, unfolding(grammar_descent::specs::ExpressionSteps::name))]
    fn name(&self, reader: &mut Reader<'_>) -> Result<Growing, ParseError>
        requires small { self.now.depth < max_depth }
        requires token { reader.old.state.at < length reader.old.tokens }
        requires name { IsName reader.old.tokens reader.old.state.at }
        ensures { Finds (λ text ts. spec.name text ts self.now.depth (readers text ts self.now.depth)) reader.old result reader.new }
    {
        if reader.names_a_type() {
            return Err(reader.refuse());
        }
        let node = Expression::Name(reader.place());
        reader.pass(1);
        node_within(self.depth, reader, node, 0, Level::Primary)
    }

    #[tactic(auto, unfolding(grammar_descent::specs::ExpressionSteps::strings))]
    fn strings(&self, reader: &mut Reader<'_>) -> Result<Growing, ParseError>
        requires small { self.now.depth < max_depth }
        requires token { reader.old.state.at < length reader.old.tokens }
        ensures { Finds (λ text ts. spec.strings text ts self.now.depth (readers text ts self.now.depth)) reader.old result reader.new }
    {
        let place = reader.place();
        reader.pass(1);
        pass_strings(reader);
        let node = Expression::Strings(place, reader.at() as u32);
        node_within(self.depth, reader, node, 0, Level::Primary)
    }

    /// `(inner)`
    #[tactic(auto, using(crate::proofs::Shallow::no_parentheses, crate::proofs::Joined::by_parentheses))]
    fn parentheses(&self, reader: &mut Reader<'_>) -> Result<Growing, ParseError>
        requires small { self.now.depth < max_depth }
        requires token { reader.old.state.at < length reader.old.tokens }
        requires nests { Nests self.now.depth (E.pre self.now.expression) (E.post self.now.expression) (S.pre self.now.specs) (S.post self.now.specs) (D.pre self.now.declarator) (D.post self.now.declarator) }
        ensures { Finds (λ text ts. spec.parentheses text ts self.now.depth (readers text ts self.now.depth)) reader.old result reader.new }
    {
        if self.depth == 0 {
            return Err(reader.refuse());
        }
        let place = reader.place();
        reader.pass(1);
        let (inner, height) = self.expression_before(reader, Mark::RightParen)?;
        let node = expression_nodes::parentheses(self.alloc, place, inner)?;
        node_within(self.depth, reader, node, height, Level::Primary)
    }

    /// An operator before its operand.
    #[tactic(auto, using(crate::proofs::Shallow::no_prefix), unfolding(grammar_descent::specs::ExpressionSteps::prefix_expression))]
    fn prefix_expression(&self, reader: &mut Reader<'_>, op: Prefix) -> Result<Growing, ParseError>
        requires small { self.now.depth < max_depth }
        requires token { reader.old.state.at < length reader.old.tokens }
        requires nests { Nests self.now.depth (E.pre self.now.expression) (E.post self.now.expression) (S.pre self.now.specs) (S.post self.now.specs) (D.pre self.now.declarator) (D.post self.now.declarator) }
        ensures { Finds (λ text ts. spec.prefix_expression text ts self.now.depth (readers text ts self.now.depth) op) reader.old result reader.new }
    {
        if self.depth == 0 {
            return Err(reader.refuse());
        }
        let place = reader.place();
        reader.pass(1);
        let (operand, height) = self.expression(reader, operand_level(op))?;
        let node = expression_nodes::prefix(self.alloc, place, op, operand)?;
        node_within(self.depth, reader, node, height, Level::Unary)
    }

    /// The operand of `sizeof`. A parenthesis that no depth is left for might have enclosed the name of a type, so what stands after it
    /// is refused.
    #[tactic(auto, using(token_reader::proofs::Refusals::same_reads))]
    fn sizeof_operand(&self, reader: &mut Reader<'_>) -> Result<FoundExpression, ParseError>
        requires { Nests self.now.depth (E.pre self.now.expression) (E.post self.now.expression) (S.pre self.now.specs) (S.post self.now.specs) (D.pre self.now.declarator) (D.post self.now.declarator) }
        ensures { Reads (λ text ts. (readers text ts self.now.depth).expression (tightness of.Unary)) reader.old result reader.new }
    {
        let too_deep = self.depth <= 1 && reader.sees_mark(Mark::LeftParen);
        let next = too_deep.then_some(reader.at() as u32 + 1);
        let found = self.expression(reader, Level::Unary);
        refused_at(found, next)
    }

    /// `sizeof operand`
    #[tactic(auto, unfolding(grammar_descent::specs::ExpressionSteps::size_of))]
    fn size_of(&self, reader: &mut Reader<'_>) -> Result<Growing, ParseError>
        requires small { self.now.depth < max_depth }
        requires token { reader.old.state.at < length reader.old.tokens }
        requires nests { Nests self.now.depth (E.pre self.now.expression) (E.post self.now.expression) (S.pre self.now.specs) (S.post self.now.specs) (D.pre self.now.declarator) (D.post self.now.declarator) }
        ensures { Finds (λ text ts. spec.size_of text ts self.now.depth (readers text ts self.now.depth)) reader.old result reader.new }
    {
        let place = reader.place();
        reader.pass(1);
        let (operand, height) = self.sizeof_operand(reader)?;
        let node = expression_nodes::size_of(self.alloc, place, operand)?;
        node_within(self.depth, reader, node, height, Level::Unary)
    }

    /// `sizeof (type)`
    #[tactic(auto, using(crate::proofs::Joined::by_size_of_type))]
    fn size_of_type(&self, reader: &mut Reader<'_>) -> Result<Growing, ParseError>
        requires small { self.now.depth < max_depth }
        requires token { reader.old.state.at + 2 ≤ length reader.old.tokens }
        requires nests { Nests self.now.depth (E.pre self.now.expression) (E.post self.now.expression) (S.pre self.now.specs) (S.post self.now.specs) (D.pre self.now.declarator) (D.post self.now.declarator) }
        ensures { Finds (λ text ts. spec.size_of_type text ts self.now.depth (readers text ts self.now.depth)) reader.old result reader.new }
    {
        let place = reader.place();
        reader.pass(2);
        let (of, height) = self.type_before(reader)?;
        let node = expression_nodes::size_of_type(self.alloc, place, of)?;
        node_within(self.depth, reader, node, height, Level::Unary)
    }

    /// After `sizeof`, a parenthesis with specifiers after it begins the name of a type.
    #[tactic(auto, unfolding(grammar_descent::specs::ExpressionSteps::sizeof_expression))]
    fn sizeof_expression(&self, reader: &mut Reader<'_>) -> Result<Growing, ParseError>
        requires small { self.now.depth < max_depth }
        requires token { reader.old.state.at < length reader.old.tokens }
        requires nests { Nests self.now.depth (E.pre self.now.expression) (E.post self.now.expression) (S.pre self.now.specs) (S.post self.now.specs) (D.pre self.now.declarator) (D.post self.now.declarator) }
        ensures { Finds (λ text ts. spec.sizeof_expression text ts self.now.depth (readers text ts self.now.depth)) reader.old result reader.new }
    {
        if reader.sees_mark_after(1, Mark::LeftParen) && reader.begins_specs_after(2) {
            self.size_of_type(reader)
        } else {
            self.size_of(reader)
        }
    }

    /// `(type)operand`
    #[tactic(auto, using(crate::proofs::Shallow::no_cast, crate::proofs::Joined::by_cast))]
    fn cast_to(&self, reader: &mut Reader<'_>) -> Result<Growing, ParseError>
        requires small { self.now.depth < max_depth }
        requires token { reader.old.state.at < length reader.old.tokens }
        requires nests { Nests self.now.depth (E.pre self.now.expression) (E.post self.now.expression) (S.pre self.now.specs) (S.post self.now.specs) (D.pre self.now.declarator) (D.post self.now.declarator) }
        ensures { Finds (λ text ts. spec.cast_to text ts self.now.depth (readers text ts self.now.depth)) reader.old result reader.new }
    {
        if self.depth == 0 {
            return Err(reader.refuse());
        }
        let place = reader.place();
        reader.pass(1);
        let (to, high) = self.type_before(reader)?;
        let (operand, height) = self.expression(reader, Level::Cast)?;
        let node = expression_nodes::cast(self.alloc, place, to, operand)?;
        node_within(self.depth, reader, node, high.max(height), Level::Cast)
    }

    /// A parenthesis with specifiers after it begins a cast.
    #[tactic(auto, unfolding(grammar_descent::specs::ExpressionSteps::cast_or_parentheses))]
    fn cast_or_parentheses(&self, reader: &mut Reader<'_>) -> Result<Growing, ParseError>
        requires small { self.now.depth < max_depth }
        requires token { reader.old.state.at < length reader.old.tokens }
        requires nests { Nests self.now.depth (E.pre self.now.expression) (E.post self.now.expression) (S.pre self.now.specs) (S.post self.now.specs) (D.pre self.now.declarator) (D.post self.now.declarator) }
        ensures { Finds (λ text ts. spec.cast_or_parentheses text ts self.now.depth (readers text ts self.now.depth)) reader.old result reader.new }
    {
        if reader.begins_specs_after(1) {
            self.cast_to(reader)
        } else {
            self.parentheses(reader)
        }
    }

    /// A constant of one token.
    fn constant(&self, reader: &mut Reader<'_>, node: Expression) -> Result<Growing, ParseError>
        requires small { self.now.depth < max_depth }
        requires token { reader.old.state.at < length reader.old.tokens }
        ensures { Finds (λ text ts s. spec.node_within self.now.depth node 0 (tightness of.Primary) (past s 1)) reader.old result reader.new }
    {
        reader.pass(1);
        node_within(self.depth, reader, node, 0, Level::Primary)
    }

    /// An operator and its operand, if the mark is one.
    fn by_mark(&self, reader: &mut Reader<'_>, mark: Mark) -> Result<Growing, ParseError>
        requires small { self.now.depth < max_depth }
        requires token { reader.old.state.at < length reader.old.tokens }
        requires nests { Nests self.now.depth (E.pre self.now.expression) (E.post self.now.expression) (S.pre self.now.specs) (S.post self.now.specs) (D.pre self.now.declarator) (D.post self.now.declarator) }
        ensures { Finds (λ text ts. spec.prefix_by text ts self.now.depth (readers text ts self.now.depth) (spec.prefix_of mark)) reader.old result reader.new }
    {
        match prefix_of(mark) {
            Some(op) => self.prefix_expression(reader, op),
            None => Err(reader.refuse()),
        }
    }

    /// What begins an expression.
    #[tactic(auto, unfolding(grammar_descent::specs::ExpressionSteps::head))]
    pub fn expression_head(&self, reader: &mut Reader<'_>) -> Result<Growing, ParseError>
        requires small { self.now.depth < max_depth }
        requires nests { Nests self.now.depth (E.pre self.now.expression) (E.post self.now.expression) (S.pre self.now.specs) (S.post self.now.specs) (D.pre self.now.declarator) (D.post self.now.declarator) }
        ensures { Finds (λ text ts. spec.head text ts self.now.depth (readers text ts self.now.depth)) reader.old result reader.new }
    {
        let place = reader.place();
        match reader.kind() {
            Some(Kind::Name) => self.name(reader),
            Some(Kind::Number(value, of)) => {
                self.constant(reader, Expression::Number(place, value, of))
            }
            Some(Kind::Char(value)) => self.constant(reader, Expression::Character(place, value)),
            Some(Kind::Str) => self.strings(reader),
            Some(Kind::Word(Keyword::Sizeof)) => self.sizeof_expression(reader),
            Some(Kind::Mark(Mark::LeftParen)) => self.cast_or_parentheses(reader),
            Some(Kind::Mark(mark)) => self.by_mark(reader, mark),
            _ => Err(reader.refuse()),
        }
    }
}
