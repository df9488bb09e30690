//! Declarations and statements.

use crate::phrases::{Declarator, Expression, Specs};
use crate::words::Place;
use sqlite_items::{Boxed, Items};

/// An initialiser (C11 6.7.9).
#[derive(Debug, Drop)]
pub enum Initialiser {
    Value(Expression),
    /// `{ first, second, .. }`: one part at least.
    Braces(Place, Items<Initialiser>),
}

/// A declarator, and what it is initialised with, if anything.
#[derive(Debug, Drop)]
pub struct InitDeclarator {
    pub place: Place,
    pub declarator: Declarator,
    pub value: Option<Initialiser>,
}

/// A declaration (C11 6.7), also one without declarators.
#[derive(Debug, Drop)]
pub struct Declaration {
    pub place: Place,
    pub specs: Specs,
    pub declarators: Items<InitDeclarator>,
}

/// `{ .. }` (C11 6.8.2)
#[cycle(statements)]
#[derive(Debug, Drop)]
pub struct Block {
    pub place: Place,
    pub items: Items<BlockItem>,
}

/// What stands in a block.
#[cycle(statements)]
#[derive(Debug, Drop)]
pub enum BlockItem {
    Declaration(Declaration),
    Statement(Statement),
}

/// What stands first after `for (` (C11 6.8.5.3): a declaration, or an expression, which may be left out.
#[derive(Debug, Drop)]
pub enum ForStart {
    Declaration(Declaration),
    Expression(Option<Expression>),
}

/// A statement (C11 6.8), with the place of its first token. Labels of a `switch` are statements of their own.
#[cycle(statements)]
#[derive(Debug, Drop)]
pub enum Statement {
    Block(Block),
    /// `;`
    Empty(Place),
    /// `value;`
    Expression(Place, Expression),
    /// `if (test) then`
    If(Place, Expression, Boxed<Statement>),
    /// `if (test) then else otherwise`
    IfElse(Place, Expression, Boxed<Statement>, Boxed<Statement>),
    /// `while (test) body`
    While(Place, Expression, Boxed<Statement>),
    /// `do body while (test);`
    Do(Place, Boxed<Statement>, Expression),
    /// `for (start; test; step) body`
    For(Place, ForStart, Option<Expression>, Option<Expression>, Boxed<Statement>),
    /// `switch (value) { .. }`
    Switch(Place, Expression, Block),
    /// `case value:`
    Case(Place, Expression),
    /// `default:`
    Default(Place),
    /// `break;`
    Break(Place),
    /// `continue;`
    Continue(Place),
    /// `return value;`, or without a value
    Return(Place, Option<Expression>),
}
