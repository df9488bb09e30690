//! Expressions, by precedence climbing (C11 6.5).

ghost use Rattle.std.specs.Prelude.{◌≡◌, ◌+◌, ◌<◌, ◌≤◌, ◌&&◌, nat_lt, suc};
ghost use Rattle.c_tokens.specs.Limits.{max_tokens};
ghost use Rattle.c_tokens.specs.declared.kind.Mark.TheVariants as marks;
ghost use Rattle.c_grammar.specs.Limits.{max_depth};
ghost use Rattle.c_grammar.specs.Operators.{tightness};
ghost use Rattle.c_grammar.specs.declared.words.Level.TheVariants as of;
ghost use Rattle.grammar_descent.specs.AllReaders.{readers};
ghost use Rattle.grammar_descent.specs.ExpressionSteps as spec;
ghost use Rattle.grammar_descent.specs.Reading.{mark_at};
ghost use Rattle.grammar_descent.specs.Types.{begins_specs};
ghost use Rattle.expression_parser.specs.Growing.{Finds, found};
ghost use Rattle.token_reader.specs.Input.{Reads};
ghost use Rattle.token_reader.specs.Nests.{Nests};

use crate::growing::Growing;
use crate::inner::Inner;
use c_grammar::{Expression, Level, Naming};
use c_tokens::Mark;
use expression_nodes::growth;
use std::alloc::Global;
use token_reader::{FoundDeclarator, FoundExpression, FoundSpecs, ParseError, Reader};

impl<
    E: Fn(Global, &mut Reader<'_>, u32, Level) -> Result<FoundExpression, ParseError>,
    S: Fn(Global, &mut Reader<'_>, u32) -> Result<FoundSpecs, ParseError>,
    D: Fn(Global, &mut Reader<'_>, u32, Naming) -> Result<FoundDeclarator, ParseError>,
> Inner<E, S, D> {
    /// What the expression that begins at `start` grows to, where one of the level `least` or a tighter one is read.
    fn climb(
        &self,
        reader: &mut Reader<'_>,
        least: Level,
        start: usize,
        head: Growing,
    ) -> Result<Growing, ParseError>
        requires small { self.now.depth < max_depth }
        requires begun { start ≤ max_tokens }
        requires nests { Nests self.now.depth (E.pre self.now.expression) (E.post self.now.expression) (S.pre self.now.specs) (S.post self.now.specs) (D.pre self.now.declarator) (D.post self.now.declarator) }
        ensures { Finds (λ text ts s. spec.climb text ts self.now.depth (readers text ts self.now.depth) (tightness least) start (suc self.now.depth) (found head s)) reader.old result reader.new }
    {
        let mut left = head;
        for _turn in 0..self.depth + 1 {
            let Some(by) = growth(reader.kind(), least, left.level) else {
                return Ok(left);
            };
            if left.height > self.depth {
                return Err(reader.refuse());
            }
            left = self.growth_after(reader, by, start, left)?;
        }
        Err(reader.refuse())
    }

    /// Whether a cast stands next, where only tighter expressions are read, as after `++` (C11 6.5.3).
    fn is_misplaced_cast(&self, reader: &Reader<'_>, least: Level) -> bool
        ensures { result ≡ (nat_lt (tightness of.Cast) (tightness least) && (mark_at reader.now.tokens reader.now.state.at marks.LeftParen && begins_specs reader.now.text reader.now.tokens reader.now.state.scope (reader.now.state.at + 1))) }
    {
        expression_nodes::tightness(least) > expression_nodes::tightness(Level::Cast)
            && reader.sees_mark(Mark::LeftParen)
            && reader.begins_specs_after(1)
    }

    /// An expression of the level `least` or a tighter one that is nested one deeper than `self.depth`, and its height.
    #[tactic(auto, using(crate::proofs::Operands::no_operand), unfolding(grammar_descent::specs::ExpressionSteps::expression))]
    pub fn expression_step(
        &self,
        reader: &mut Reader<'_>,
        least: Level,
    ) -> Result<(Expression, u32), ParseError>
        requires small { self.now.depth < max_depth }
        requires nests { Nests self.now.depth (E.pre self.now.expression) (E.post self.now.expression) (S.pre self.now.specs) (S.post self.now.specs) (D.pre self.now.declarator) (D.post self.now.declarator) }
        ensures { Reads (λ text ts. spec.expression text ts self.now.depth (readers text ts self.now.depth) (tightness least)) reader.old result reader.new }
    {
        let start = reader.at();
        if self.depth > 0 && self.is_misplaced_cast(reader, least) {
            return Err(ParseError::Syntax(start as u32 + 1));
        }
        let head = self.expression_head(reader)?;
        if expression_nodes::tightness(head.level) < expression_nodes::tightness(least) {
            return Err(reader.refuse());
        }
        let whole = self.climb(reader, least, start, head)?;
        Ok((whole.node, whole.height))
    }
}
