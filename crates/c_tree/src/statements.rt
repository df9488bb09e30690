//! Initialisers, statements and blocks.

use crate::values::{Place, Value};
use byte_texts::Text;
use sqlite_items::{Boxed, Items};

/// A store of an initialiser (C11 6.7.9). An initialiser is the list of its stores in the order of the text; what none
/// of them reaches stays zero. The first place is the variable or global that is declared, or one of its elements and
/// members.
#[derive(Drop)]
pub enum Initial {
    /// A scalar: its place, and the converted value (C11 6.7.9p11).
    Value(Place, Value),
    /// A struct or a union from a place of its own type (C11 6.7.9p13).
    Copy(Place, Place),
    /// The bytes of a string literal in an array of characters, with the zero byte where it fits (C11 6.7.9p14).
    Bytes(Place, Text),
}

/// `{ .. }` (C11 6.8.2): the line of its `{`, the numbers of its own variables in the order in which they are declared,
/// and what stands in it.
#[cycle(statements)]
#[derive(Drop)]
pub struct Block {
    pub line: u32,
    pub variables: Items<u32>,
    pub items: Items<Statement>,
}

/// What a `for` does first (C11 6.8.5.3).
#[derive(Drop)]
pub enum ForStart {
    Nothing,
    /// `for (value; ..)`
    Value(Value),
    /// `for (int i = value; ..)`: the numbers of the variables, which live as long as the `for` and are freed with its
    /// line, the line of the declaration, and its stores.
    Declaration(Items<u32>, u32, Items<Initial>),
}

/// A statement (C11 6.8), with the line of its first token first. The value of a condition is a whole number or a
/// pointer.
#[cycle(statements)]
#[derive(Drop)]
pub enum Statement {
    /// A declaration of variables (C11 6.7): the stores of its initialisers.
    Declaration(u32, Items<Initial>),
    /// `{ .. }` (C11 6.8.2)
    Block(Block),
    /// `;` (C11 6.8.3)
    Empty(u32),
    /// `value;` (C11 6.8.3)
    Value(u32, Value),
    /// `if (test) then` (C11 6.8.4.1)
    If(u32, Value, Boxed<Statement>),
    /// `if (test) then else otherwise` (C11 6.8.4.1)
    IfElse(u32, Value, Boxed<Statement>, Boxed<Statement>),
    /// `while (test) body` (C11 6.8.5.1)
    While(u32, Value, Boxed<Statement>),
    /// `do body while (test);` (C11 6.8.5.2)
    Do(u32, Boxed<Statement>, Value),
    /// `for (start; test; step) body` (C11 6.8.5.3)
    For(u32, ForStart, Option<Value>, Option<Value>, Boxed<Statement>),
    /// `switch (value) { .. }` (C11 6.8.4.2): the value is promoted, and the labels stand among the block's own items.
    Switch(u32, Value, Block),
    /// `case value:`, converted to the type of the switch (C11 6.8.4.2p5)
    Case(u32, i128),
    /// `default:` (C11 6.8.4.2)
    Default(u32),
    /// `break;` (C11 6.8.6.3)
    Break(u32),
    /// `continue;` (C11 6.8.6.2)
    Continue(u32),
    /// `return;` and `return value;`, converted to the type of the result (C11 6.8.6.4)
    Return(u32, Option<Value>),
}
