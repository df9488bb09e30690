//! The typed tree of a program of numbers and pointers.

use byte_texts::Text;
use sqlite_items::{Boxed, Items};

/// The operators on whole numbers (C11 6.5.5, 6.5.6, 6.5.8, 6.5.9).
#[derive(Clone, Copy, Debug, PartialEq, Eq)]
pub enum Operator {
    Multiply,
    Add,
    Subtract,
    Less,
    LessEqual,
    Equal,
}

/// What a pointer points to.
#[derive(Clone, Copy, Debug, PartialEq, Eq)]
pub enum Target {
    Int,
    Char,
}

/// A variable of pointer type: its number among the variables in scope, the outermost first, and what it
/// points to.
#[derive(Clone, Copy, Debug, PartialEq, Eq)]
pub struct Pointer {
    pub variable: usize,
    pub target: Target,
}

/// An expression of type `int`. A variable has its place among the variables in scope, the outermost first.
#[derive(Debug, Drop)]
pub enum Expression {
    Variable(usize),
    Number(i32),
    Binary(Operator, Boxed<Expression>, Boxed<Expression>),
    /// The element of a pointer at an index.
    Element(Pointer, Boxed<Expression>),
}

/// Each statement has the line of its first token first, a block none. A declaration makes the next variable.
#[derive(Debug, Drop)]
pub enum Statement {
    Block(Items<Statement>),
    Declaration(u32, Expression),
    /// A pointer to a new object: what it points to, and the object's size in bytes.
    Allocation(u32, Target, u32),
    /// A pointer to a target, converted from another.
    PointerDeclaration(u32, Target, Pointer),
    Assignment(u32, usize, Expression),
    /// The second pointer, converted to the first one's type.
    PointerAssignment(u32, Pointer, Pointer),
    /// The pointer, the index and the value.
    ElementAssignment(u32, Pointer, Expression, Expression),
    Free(u32, Pointer),
    If(u32, Expression, Boxed<Statement>),
    IfElse(u32, Expression, Boxed<Statement>, Boxed<Statement>),
    While(u32, Expression, Boxed<Statement>),
    Print(u32, Expression),
}

#[derive(Debug, Drop)]
pub struct Function {
    pub name: Text,
    pub body: Statement,
}

/// The functions in order of definition; a function's number is its place, counted from 0.
#[derive(Debug, Drop)]
pub struct Program {
    pub functions: Items<Function>,
}
