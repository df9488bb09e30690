//! Statements (C11 6.8). Those that hold others take the parser of statements as a parameter, so that each is proved by itself.

ghost use Rattle.std.specs.Prelude.{◌≡◌, ◌<◌, ◌≤◌, ◌+◌, [], true, false, length, Some, OnOk, OnErr};
ghost use Rattle.c_tokens.specs.declared.kind.Kind.TheVariants as kind;
ghost use Rattle.c_tokens.specs.declared.kind.Mark.TheVariants as mark;
ghost use Rattle.c_grammar.specs.declared.statements.Statement.TheVariants as node;
ghost use Rattle.c_grammar.specs.Limits.{max_depth};
ghost use Rattle.c_grammar.specs.Operators.{tightness};
ghost use Rattle.c_grammar.specs.Tokens as token;
ghost use Rattle.grammar_descent.specs.AllReaders.{readers};
ghost use Rattle.grammar_descent.specs.Reading as reading;
ghost use Rattle.grammar_descent.specs.StatementSteps as step;
ghost use Rattle.token_reader.specs.Input.{Reads};
ghost use Rattle.c_parser.specs.ForHeader as header;
ghost use Rattle.c_parser.specs.NestsStatements.{NestsStatements};
ghost use Rattle.token_reader.specs.Reader as spec;
ghost use Rattle.token_reader.specs.Reader.{IsSameText};

use crate::declarations::declaration;
use crate::initialisers::expression;
use c_grammar::{Block, BlockItem, Expression, ForStart, Level, Statement};
use c_tokens::{Keyword, Kind, Mark};
use grammar_descent::law_readers;
use sqlite_items::{Boxed, Items};
use std::alloc::Global;
use token_reader::{ParseError, Reader, refused_at};

/// Goes past a word and the mark after it.
fn pass_with(reader: &mut Reader<'_>, mark: Mark) -> Result<(), ParseError>
    requires { reader.old.state.at < length reader.old.tokens }
    ensures ok { OnOk result ((reading.mark_at reader.old.tokens (reader.old.state.at + 1) mark ≡ true) × (reader.new ≡ spec.moved reader.old (reading.past reader.old.state 2))) }
    ensures err { OnErr result (reading.mark_at reader.old.tokens (reader.old.state.at + 1) mark ≡ false) }
    ensures kept { IsSameText reader.old reader.new }
{
    if reader.sees_mark_after(1, mark) {
        reader.pass(2);
        Ok(())
    } else {
        reader.pass(1);
        Err(reader.refuse())
    }
}

/// An expression and the mark after it.
#[tactic(auto, unfolding(grammar_descent::specs::StatementSteps::expression_before))]
fn expression_before(
    alloc: Global,
    reader: &mut Reader<'_>,
    depth: u32,
    level: Level,
    mark: Mark,
) -> Result<Expression, ParseError>
    requires { depth ≤ max_depth }
    ensures { Reads (λ text ts. step.expression_before text ts (readers text ts) depth (tightness level) mark) reader.old result reader.new }
{
    let found = expression(alloc, reader, depth, level)?;
    reader.expect(mark)?;
    Ok(found)
}

/// An expression or nothing, and the mark after it.
#[tactic(auto, unfolding(grammar_descent::specs::StatementSteps::optional_before))]
fn optional_before(
    alloc: Global,
    reader: &mut Reader<'_>,
    depth: u32,
    mark: Mark,
) -> Result<Option<Expression>, ParseError>
    requires { depth ≤ max_depth }
    ensures { Reads (λ text ts. step.optional_before text ts (readers text ts) depth mark) reader.old result reader.new }
{
    if reader.sees_mark(mark) {
        reader.pass(1);
        return Ok(None);
    }
    Ok(Some(expression_before(alloc, reader, depth, Level::Comma, mark)?))
}

/// An expression in parentheses after a word.
#[tactic(auto, unfolding(grammar_descent::specs::StatementSteps::condition))]
fn condition(alloc: Global, reader: &mut Reader<'_>, depth: u32) -> Result<Expression, ParseError>
    requires small { depth ≤ max_depth }
    requires within { reader.old.state.at < length reader.old.tokens }
    ensures { Reads (λ text ts. step.condition text ts (readers text ts) depth) reader.old result reader.new }
{
    pass_with(reader, Mark::LeftParen)?;
    expression_before(alloc, reader, depth, Level::Comma, Mark::RightParen)
}

/// What stands first after `for (`, up to its semicolon.
#[tactic(auto, unfolding(grammar_descent::specs::StatementSteps::for_start))]
fn for_start(alloc: Global, reader: &mut Reader<'_>, depth: u32) -> Result<ForStart, ParseError>
    requires { depth ≤ max_depth }
    ensures { Reads (λ text ts. step.for_start text ts (readers text ts) depth) reader.old result reader.new }
{
    if reader.begins_specs_after(0) {
        Ok(ForStart::Declaration(declaration(alloc, reader, depth)?))
    } else {
        Ok(ForStart::Expression(optional_before(alloc, reader, depth, Mark::Semicolon)?))
    }
}

/// The test and the step of a `for`, with the mark after each.
#[tactic(auto, unfolding(crate::specs::ForHeader::for_controls))]
fn for_controls(
    alloc: Global,
    reader: &mut Reader<'_>,
    depth: u32,
) -> Result<(Option<Expression>, Option<Expression>), ParseError>
    requires { depth ≤ max_depth }
    ensures { Reads (λ text ts. header.for_controls text ts (readers text ts) depth) reader.old result reader.new }
{
    let test = optional_before(alloc, reader, depth, Mark::Semicolon)?;
    let step = optional_before(alloc, reader, depth, Mark::RightParen)?;
    Ok((test, step))
}

/// What stands between the word `for` and the statement that it repeats.
#[tactic(auto, unfolding(crate::specs::ForHeader::for_header))]
fn for_header(
    alloc: Global,
    reader: &mut Reader<'_>,
    depth: u32,
) -> Result<(ForStart, Option<Expression>, Option<Expression>), ParseError>
    requires small { depth ≤ max_depth }
    requires within { reader.old.state.at < length reader.old.tokens }
    ensures { Reads (λ text ts. header.for_header text ts (readers text ts) depth) reader.old result reader.new }
{
    pass_with(reader, Mark::LeftParen)?;
    let start = for_start(alloc, reader, depth)?;
    let (test, step) = for_controls(alloc, reader, depth)?;
    Ok((start, test, step))
}

/// `default:`
#[tactic(auto, unfolding(grammar_descent::specs::StatementSteps::word_before))]
fn default_label(reader: &mut Reader<'_>) -> Result<Statement, ParseError>
    requires { reader.old.state.at < length reader.old.tokens }
    ensures { Reads (λ text ts s. step.word_before text ts (readers text ts) 0 mark.Colon (node.Default (token.place_at ts s.at)) s) reader.old result reader.new }
{
    let place = reader.place();
    pass_with(reader, Mark::Colon)?;
    Ok(Statement::Default(place))
}

/// `break;`
#[tactic(auto, unfolding(grammar_descent::specs::StatementSteps::word_before))]
fn break_statement(reader: &mut Reader<'_>) -> Result<Statement, ParseError>
    requires { reader.old.state.at < length reader.old.tokens }
    ensures { Reads (λ text ts s. step.word_before text ts (readers text ts) 0 mark.Semicolon (node.Break (token.place_at ts s.at)) s) reader.old result reader.new }
{
    let place = reader.place();
    pass_with(reader, Mark::Semicolon)?;
    Ok(Statement::Break(place))
}

/// `continue;`
#[tactic(auto, unfolding(grammar_descent::specs::StatementSteps::word_before))]
fn continue_statement(reader: &mut Reader<'_>) -> Result<Statement, ParseError>
    requires { reader.old.state.at < length reader.old.tokens }
    ensures { Reads (λ text ts s. step.word_before text ts (readers text ts) 0 mark.Semicolon (node.Continue (token.place_at ts s.at)) s) reader.old result reader.new }
{
    let place = reader.place();
    pass_with(reader, Mark::Semicolon)?;
    Ok(Statement::Continue(place))
}

#[tactic(auto, unfolding(grammar_descent::specs::StatementSteps::expression_statement))]
fn expression_statement(
    alloc: Global,
    reader: &mut Reader<'_>,
    depth: u32,
) -> Result<Statement, ParseError>
    requires { depth ≤ max_depth }
    ensures { Reads (λ text ts. step.expression_statement text ts (readers text ts) depth) reader.old result reader.new }
{
    let place = reader.place();
    let value = expression_before(alloc, reader, depth, Level::Comma, Mark::Semicolon)?;
    Ok(Statement::Expression(place, value))
}

/// `case value:`
#[tactic(auto, unfolding(grammar_descent::specs::StatementSteps::case_label))]
fn case_label(alloc: Global, reader: &mut Reader<'_>, depth: u32) -> Result<Statement, ParseError>
    requires small { depth ≤ max_depth }
    requires within { reader.old.state.at + 1 ≤ length reader.old.tokens }
    ensures { Reads (λ text ts. step.case_label text ts (readers text ts) depth) reader.old result reader.new }
{
    let place = reader.place();
    reader.pass(1);
    let value = expression_before(alloc, reader, depth, Level::Conditional, Mark::Colon)?;
    Ok(Statement::Case(place, value))
}

#[tactic(auto, unfolding(grammar_descent::specs::StatementSteps::return_statement))]
fn return_statement(
    alloc: Global,
    reader: &mut Reader<'_>,
    depth: u32,
) -> Result<Statement, ParseError>
    requires small { depth ≤ max_depth }
    requires within { reader.old.state.at + 1 ≤ length reader.old.tokens }
    ensures { Reads (λ text ts. step.return_statement text ts (readers text ts) depth) reader.old result reader.new }
{
    let place = reader.place();
    reader.pass(1);
    let value = optional_before(alloc, reader, depth, Mark::Semicolon)?;
    Ok(Statement::Return(place, value))
}

/// Whether the next word begins a statement that has parts.
fn needs_parts(reader: &Reader<'_>) -> bool {
    matches!(
        reader.kind(),
        Some(Kind::Word(
            Keyword::If
                | Keyword::While
                | Keyword::Do
                | Keyword::For
                | Keyword::Switch
                | Keyword::Case
        ))
    )
}

/// The parsers of what stands in a statement: `depth` is that of its parts, and statements no deeper than that are read by `statement`.
#[derive(Clone, Copy)]
pub struct Parts<F> {
    pub alloc: Global,
    pub depth: u32,
    pub statement: F,
}

impl<F: Fn(Global, &mut Reader<'_>, u32) -> Result<Statement, ParseError>> Parts<F> {
    fn inner(&self, reader: &mut Reader<'_>, depth: u32) -> Result<Statement, ParseError>
        requires nests { NestsStatements self.now.depth (F.pre self.now.statement) (F.post self.now.statement) }
        requires inside { depth ≤ self.now.depth }
        ensures { Reads (λ text ts. step.statement text ts (readers text ts) depth) reader.old result reader.new }
    {
        (self.statement)(self.alloc, reader, depth)
    }

    /// A declaration or a statement.
    #[tactic(auto, unfolding(grammar_descent::specs::StatementSteps::item_of))]
    fn item(&self, reader: &mut Reader<'_>, depth: u32) -> Result<BlockItem, ParseError>
        requires nests { NestsStatements self.now.depth (F.pre self.now.statement) (F.post self.now.statement) }
        requires inside { depth ≤ self.now.depth }
        ensures { Reads (λ text ts. step.item_of text ts (readers text ts) depth (step.statement text ts (readers text ts) depth)) reader.old result reader.new }
    {
        if reader.begins_specs_after(0) {
            let found = declaration(self.alloc, reader, depth)?;
            Ok(BlockItem::Declaration(found))
        } else {
            Ok(BlockItem::Statement(self.inner(reader, depth)?))
        }
    }

    /// What stands in a block after its `{`, with the `}`.
    fn items(&self, reader: &mut Reader<'_>, depth: u32) -> Result<Items<BlockItem>, ParseError>
        requires nests { NestsStatements self.now.depth (F.pre self.now.statement) (F.post self.now.statement) }
        requires inside { depth ≤ self.now.depth }
        ensures { Reads (λ text ts. step.items text ts (readers text ts) depth (step.statement text ts (readers text ts) depth) (length ts) []) reader.old result reader.new }
    {
        let mut found = Items::new(self.alloc);
        for _turn in 0..reader.tokens_len() {
            if reader.sees_mark(Mark::RightBrace) {
                reader.pass(1);
                return Ok(found);
            }
            found.push(self.item(reader, depth)?)?;
        }
        Err(reader.refuse())
    }

    /// A block, with which the scope of what is declared in it ends.
    #[tactic(auto, unfolding(grammar_descent::specs::StatementSteps::block_of))]
    fn block(&self, reader: &mut Reader<'_>, depth: u32) -> Result<Block, ParseError>
        requires nests { NestsStatements self.now.depth (F.pre self.now.statement) (F.post self.now.statement) }
        requires inside { depth ≤ self.now.depth }
        ensures { Reads (λ text ts. step.block_of text ts (readers text ts) depth (step.statement text ts (readers text ts) depth)) reader.old result reader.new }
    {
        law_readers();
        let place = reader.place();
        let count = reader.in_scope();
        reader.expect(Mark::LeftBrace)?;
        let items = self.items(reader, depth)?;
        reader.close(count);
        Ok(Block { place, items })
    }

    /// A block that is nested no deeper than the parts.
    fn inner_block(&self, reader: &mut Reader<'_>) -> Result<Block, ParseError>
        requires { NestsStatements self.now.depth (F.pre self.now.statement) (F.post self.now.statement) }
        ensures { Reads (λ text ts. step.block text ts (readers text ts) self.now.depth) reader.old result reader.new }
    {
        if self.depth == 0 {
            return Err(reader.refuse());
        }
        self.block(reader, self.depth - 1)
    }

    #[tactic(auto, unfolding(grammar_descent::specs::StatementSteps::block_statement))]
    fn block_statement(&self, reader: &mut Reader<'_>) -> Result<Statement, ParseError>
        requires { NestsStatements self.now.depth (F.pre self.now.statement) (F.post self.now.statement) }
        ensures { Reads (λ text ts. step.block_statement text ts (readers text ts) self.now.depth (step.statement text ts (readers text ts) self.now.depth)) reader.old result reader.new }
    {
        Ok(Statement::Block(self.block(reader, self.depth)?))
    }

    /// `if (test) then`, and the `else` after it, if there is one. Each part is a scope, and so is the whole (C11 6.8.4p3).
    #[tactic(auto, unfolding(grammar_descent::specs::StatementSteps::if_statement, grammar_descent::specs::StatementSteps::else_after))]
    fn read_if(&self, reader: &mut Reader<'_>) -> Result<Statement, ParseError>
        requires nests { NestsStatements self.now.depth (F.pre self.now.statement) (F.post self.now.statement) }
        requires within { reader.old.state.at < length reader.old.tokens }
        ensures { Reads (λ text ts. step.if_statement text ts (readers text ts) self.now.depth (step.statement text ts (readers text ts) self.now.depth)) reader.old result reader.new }
    {
        law_readers();
        let place = reader.place();
        let count = reader.in_scope();
        let test = condition(self.alloc, reader, self.depth)?;
        let inside = reader.in_scope();
        let then = self.inner(reader, self.depth)?;
        if !reader.sees_word(Keyword::Else) {
            reader.close(count);
            return Ok(Statement::If(place, test, Boxed::new(self.alloc, then)?));
        }
        reader.close(inside);
        reader.pass(1);
        let otherwise = self.inner(reader, self.depth)?;
        reader.close(count);
        let then = Boxed::new(self.alloc, then)?;
        let otherwise = Boxed::new(self.alloc, otherwise)?;
        Ok(Statement::IfElse(place, test, then, otherwise))
    }

    /// `while (test) body`
    #[tactic(auto, unfolding(grammar_descent::specs::StatementSteps::while_statement))]
    fn read_while(&self, reader: &mut Reader<'_>) -> Result<Statement, ParseError>
        requires nests { NestsStatements self.now.depth (F.pre self.now.statement) (F.post self.now.statement) }
        requires within { reader.old.state.at < length reader.old.tokens }
        ensures { Reads (λ text ts. step.while_statement text ts (readers text ts) self.now.depth (step.statement text ts (readers text ts) self.now.depth)) reader.old result reader.new }
    {
        law_readers();
        let place = reader.place();
        let count = reader.in_scope();
        let test = condition(self.alloc, reader, self.depth)?;
        let body = self.inner(reader, self.depth)?;
        reader.close(count);
        let body = Boxed::new(self.alloc, body)?;
        Ok(Statement::While(place, test, body))
    }

    /// `do body while (test);`
    #[tactic(auto, unfolding(grammar_descent::specs::StatementSteps::do_statement))]
    fn read_do(&self, reader: &mut Reader<'_>) -> Result<Statement, ParseError>
        requires nests { NestsStatements self.now.depth (F.pre self.now.statement) (F.post self.now.statement) }
        requires within { reader.old.state.at + 1 ≤ length reader.old.tokens }
        ensures { Reads (λ text ts. step.do_statement text ts (readers text ts) self.now.depth (step.statement text ts (readers text ts) self.now.depth)) reader.old result reader.new }
    {
        law_readers();
        let place = reader.place();
        let count = reader.in_scope();
        reader.pass(1);
        let body = self.inner(reader, self.depth)?;
        reader.close(count);
        if !reader.sees_word(Keyword::While) {
            return Err(reader.refuse());
        }
        let test = condition(self.alloc, reader, self.depth)?;
        reader.expect(Mark::Semicolon)?;
        reader.close(count);
        let body = Boxed::new(self.alloc, body)?;
        Ok(Statement::Do(place, body, test))
    }

    /// `for (start test; step) body`, which is a scope (C11 6.8.5p5).
    fn read_for(&self, reader: &mut Reader<'_>) -> Result<Statement, ParseError>
        requires nests { NestsStatements self.now.depth (F.pre self.now.statement) (F.post self.now.statement) }
        requires within { reader.old.state.at < length reader.old.tokens }
        ensures { Reads (λ text ts. step.for_statement text ts (readers text ts) self.now.depth (step.statement text ts (readers text ts) self.now.depth)) reader.old result reader.new }
    {
        law_readers();
        let place = reader.place();
        let count = reader.in_scope();
        let header = for_header(self.alloc, reader, self.depth)?;
        let body = self.inner(reader, self.depth)?;
        reader.close(count);
        let body = Boxed::new(self.alloc, body)?;
        let (start, test, step) = header;
        Ok(Statement::For(place, start, test, step, body))
    }

    /// `switch (value) block`
    #[tactic(auto, unfolding(grammar_descent::specs::StatementSteps::switch_statement))]
    fn read_switch(&self, reader: &mut Reader<'_>) -> Result<Statement, ParseError>
        requires nests { NestsStatements self.now.depth (F.pre self.now.statement) (F.post self.now.statement) }
        requires within { reader.old.state.at < length reader.old.tokens }
        ensures { Reads (λ text ts. step.switch_statement text ts (readers text ts) self.now.depth (step.block text ts (readers text ts) self.now.depth)) reader.old result reader.new }
    {
        law_readers();
        let place = reader.place();
        let count = reader.in_scope();
        let value = condition(self.alloc, reader, self.depth)?;
        let body = self.inner_block(reader)?;
        reader.close(count);
        Ok(Statement::Switch(place, value, body))
    }

    /// What begins with this word.
    fn statement_by_word(
        &self,
        reader: &mut Reader<'_>,
        word: Keyword,
    ) -> Result<Statement, ParseError>
        requires nests { NestsStatements self.now.depth (F.pre self.now.statement) (F.post self.now.statement) }
        requires within { reader.old.state.at + 1 ≤ length reader.old.tokens }
        ensures { Reads (λ text ts s. step.statement_by text ts (readers text ts) self.now.depth (step.statement text ts (readers text ts) self.now.depth) (step.block text ts (readers text ts) self.now.depth) s (Some (kind.Word word))) reader.old result reader.new }
    {
        match word {
            Keyword::If => self.read_if(reader),
            Keyword::While => self.read_while(reader),
            Keyword::Do => self.read_do(reader),
            Keyword::For => self.read_for(reader),
            Keyword::Switch => self.read_switch(reader),
            Keyword::Case => case_label(self.alloc, reader, self.depth),
            Keyword::Default => default_label(reader),
            Keyword::Break => break_statement(reader),
            Keyword::Continue => continue_statement(reader),
            Keyword::Return => return_statement(self.alloc, reader, self.depth),
            _ => expression_statement(self.alloc, reader, self.depth),
        }
    }

    /// By the first token.
    fn statement_by_token(&self, reader: &mut Reader<'_>) -> Result<Statement, ParseError>
        requires { NestsStatements self.now.depth (F.pre self.now.statement) (F.post self.now.statement) }
        ensures { Reads (λ text ts s. step.statement_by text ts (readers text ts) self.now.depth (step.statement text ts (readers text ts) self.now.depth) (step.block text ts (readers text ts) self.now.depth) s (token.kind_at ts s.at)) reader.old result reader.new }
    {
        match reader.kind() {
            Some(Kind::Mark(Mark::LeftBrace)) => self.block_statement(reader),
            Some(Kind::Mark(Mark::Semicolon)) => {
                let place = reader.place();
                reader.pass(1);
                Ok(Statement::Empty(place))
            }
            Some(Kind::Word(word)) => self.statement_by_word(reader, word),
            _ => expression_statement(self.alloc, reader, self.depth),
        }
    }

    /// The same; its first word is refused where no depth is left for the parts that it needs.
    #[tactic(auto, using(token_reader::proofs::Refusals::same_reads))]
    fn read_statement(&self, reader: &mut Reader<'_>) -> Result<Statement, ParseError>
        requires { NestsStatements self.now.depth (F.pre self.now.statement) (F.post self.now.statement) }
        ensures { Reads (λ text ts s. step.statement_by text ts (readers text ts) self.now.depth (step.statement text ts (readers text ts) self.now.depth) (step.block text ts (readers text ts) self.now.depth) s (token.kind_at ts s.at)) reader.old result reader.new }
    {
        let too_deep = self.depth == 0 && needs_parts(reader);
        let start = too_deep.then_some(reader.at() as u32);
        let found = self.statement_by_token(reader);
        refused_at(found, start)
    }
}

/// A statement that is nested no deeper than `depth`.
pub fn statement(
    alloc: Global,
    reader: &mut Reader<'_>,
    depth: u32,
) -> Result<Statement, ParseError>
    requires { depth ≤ max_depth }
    ensures { Reads (λ text ts. step.statement text ts (readers text ts) depth) reader.old result reader.new }
{
    if depth == 0 {
        return Err(reader.refuse());
    }
    Parts {
        alloc,
        depth: depth - 1,
        statement,
    }
    .read_statement(reader)
}

/// A block that is nested no deeper than `depth`.
pub fn block(alloc: Global, reader: &mut Reader<'_>, depth: u32) -> Result<Block, ParseError>
    requires { depth ≤ max_depth }
    ensures { Reads (λ text ts. step.block text ts (readers text ts) depth) reader.old result reader.new }
{
    Parts {
        alloc,
        depth,
        statement,
    }
    .inner_block(reader)
}
