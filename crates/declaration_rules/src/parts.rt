//! What stands in a declarator.

use c_tree::Variable;
use sqlite_items::Items;
use static_rules::{Symbol, TagSymbol};

/// The name that a declarator declares, by its number, and its line.
#[derive(Clone, Copy, Debug, PartialEq, Eq)]
pub struct DeclaredName {
    pub number: u32,
    pub line: u32,
}

/// A list of parameters: the variables that they are, and the names and tags that it declares, which a definition's body
/// knows as well.
#[derive(Drop)]
pub struct ParameterList {
    pub variables: Items<Variable>,
    pub names: Items<(u32, Symbol)>,
    pub tags: Items<(u32, TagSymbol)>,
}

/// What stands around a name (C11 6.7.6), with the line of its first token.
#[derive(Drop)]
pub enum Part {
    Pointer(u32),
    /// An array, and how many elements it has.
    Array(u32, u32),
    OpenArray(u32),
    Function(u32, ParameterList),
}

/// The name of a declarator, and what stands around it, the innermost first.
#[derive(Drop)]
pub struct Around {
    pub name: Option<DeclaredName>,
    pub parts: Items<Part>,
}
