//! Whole programs.

use crate::lists::{Functions, Globals, Literals, Names};
use crate::statements::{Block, Initial};
use byte_texts::Text;
use c_types::{TypeNo, TypeTable};
use sqlite_items::Items;

/// A variable or parameter of a function: its type, the line of its declaration (of a parameter that of the function's
/// name), and whether `&` stands directly before its name anywhere. It is a register where its type is scalar and its
/// address is never taken, else an object.
#[derive(Clone, Copy, Debug, PartialEq, Eq)]
pub struct Variable {
    pub kind: TypeNo,
    pub line: u32,
    pub addressed: bool,
}

/// A function that is defined (C11 6.9.1): the line of its name, the type of its result, how many of the variables are
/// parameters, which come first, and its variables in the order of their declarations, whichever block they stand in.
#[derive(Drop)]
pub struct Function {
    pub name: Text,
    pub line: u32,
    pub result: TypeNo,
    pub parameters: u32,
    pub variables: Items<Variable>,
    pub body: Block,
}

/// An object of file scope (C11 6.9.2), or one that is declared `extern` in a function: its number by first
/// declaration, whether its name is known at the end of the text, its type, the line of the declaration that defines
/// it, and what its initialiser stores.
#[derive(Drop)]
pub struct GlobalVariable {
    pub number: u32,
    pub name: Text,
    pub visible: bool,
    pub kind: TypeNo,
    pub line: u32,
    pub initial: Items<Initial>,
}

/// A string literal that makes an object (C11 6.4.5p6): its type `char[n]`, the line of the innermost statement or
/// declaration in which it stands, and its n bytes, the last of which is zero.
#[derive(Drop)]
pub struct Literal {
    pub kind: TypeNo,
    pub line: u32,
    pub bytes: Text,
}

/// What a name of file scope means that is no object and no function (C11 6.2.1, 6.2.3).
#[derive(Clone, Copy, Debug, PartialEq, Eq)]
pub enum Meaning {
    /// A typedef, with its type (C11 6.7.8).
    Typedef(TypeNo),
    /// A typedef of a function type, of which no object may be made.
    FunctionTypedef,
    /// A tag of a struct or a union, with its type (C11 6.7.2.3).
    Tag(TypeNo),
    /// A tag of an enumeration, whose type is `int` (C11 6.7.2.2).
    EnumTag,
    /// An enumeration constant, with its value (C11 6.7.2.2p3).
    Constant(i32),
}

/// A name of file scope, with its meaning. Tags have a name space of their own.
#[derive(Drop)]
pub struct Named {
    pub name: Text,
    pub meaning: Meaning,
}

/// A program: its types, the functions that are defined and the globals, both in order of definition, the string
/// literals that make objects in the order of the text, and the typedefs, tags and enumeration constants of file scope.
#[derive(Drop)]
pub struct Program {
    pub types: TypeTable,
    pub functions: Functions,
    pub globals: Globals,
    pub literals: Literals,
    pub names: Names,
}
