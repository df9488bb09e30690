//! What the text up to a place has declared, and where a part of it stands. A name is a number here.

use crate::symbols::BuiltIn;
use c_tree::{Initial, Literals, Variable};
use c_types::{TypeNo, TypeTable};
use scoped_meanings::Meanings;
use sqlite_items::Items;
use well_typed::Signature;

/// What specifiers or a declarator make (C11 6.7.6): a type of the table, or one that is not in it yet.
#[derive(Drop)]
pub enum Made {
    Known(TypeNo),
    /// An array: the type of its elements, and how many there are.
    Array(TypeNo, u32),
    /// An array without a size: the type of its elements.
    Open(TypeNo),
    Function(Signature),
}

/// What an ordinary name means (C11 6.2.3).
#[derive(Drop)]
pub enum Symbol {
    /// A variable of the function that is read, or a parameter in its list, by its number.
    Variable(u32),
    /// An object of the whole text, by its number in the order of first declarations.
    Global(u32),
    /// A function of the text, by its number in the order of first declarations.
    Function(u32),
    /// A function that each text has.
    Given(BuiltIn),
    /// `NULL`
    Null,
    /// An enumeration constant, with its value.
    Constant(i32),
    /// A typedef, of a type of the table or of a function type.
    Typedef(Made),
}

/// What a tag means (C11 6.7.2.3).
#[derive(Clone, Copy, Debug, PartialEq, Eq)]
pub enum TagSymbol {
    /// A struct, or a union where that is true, with its type.
    Aggregate(bool, TypeNo),
    Enumeration,
}

/// A function that was declared: its type, its number among those that the text defines anywhere, and whether
/// it has its body by now.
#[derive(Drop)]
pub struct DeclaredFunction {
    pub signature: Signature,
    pub number: Option<u32>,
    pub defined: bool,
}

/// An object of the whole text by now: its type, the line of the declaration that defines it or else of the first one,
/// the line of its first declarator, its place in the order of definition once it is defined, and what its initialiser
/// stores.
#[derive(Drop)]
pub struct GlobalSoFar {
    pub kind: TypeNo,
    pub line: u32,
    pub named_at: u32,
    pub order: Option<u32>,
    pub initial: Items<Initial>,
}

/// What the text up to a place has declared and made.
#[derive(Drop)]
pub struct State {
    pub types: TypeTable,
    /// Ordinary names and tags in scope, the last ones innermost.
    pub symbols: Meanings<Symbol>,
    pub tags: Meanings<TagSymbol>,
    /// The functions, and the objects of the whole text, in the order of first declarations.
    pub functions: Meanings<DeclaredFunction>,
    pub globals: Meanings<GlobalSoFar>,
    /// How many of the objects are defined.
    pub defined: u32,
    /// The variables of the function that is read.
    pub variables: Items<Variable>,
    /// The numbers of the variables of the innermost block.
    pub block: Items<u32>,
    /// The type of the elements of an array without a size whose initialiser is read: its own number is 0 up to the end
    /// of that.
    pub open_element: TypeNo,
    pub literals: Literals,
    /// How many bytes the initialised objects of the whole text and the literals have together.
    pub bytes: u32,
}

/// Where a part of the text stands: the line of the innermost statement or declaration, how many names and tags there
/// were before the innermost scope, and whether it stands under `sizeof`, in the initialiser of an object of file scope,
/// and in a function.
#[derive(Clone, Copy, Debug, PartialEq, Eq)]
pub struct Where {
    pub line: u32,
    pub names_before: usize,
    pub tags_before: usize,
    pub unevaluated: bool,
    pub constant: bool,
    pub in_function: bool,
}
