//! Whole texts, and names of types that stand alone.

use crate::phrases::{Declarator, Specs, TypePhrase};
use crate::statements::{Block, Declaration};
use crate::words::Place;
use sqlite_items::Items;
use token_texts::TokenTexts;

/// A function with its body (C11 6.9.1).
#[derive(Debug, Drop)]
pub struct Function {
    pub place: Place,
    pub specs: Specs,
    pub declarator: Declarator,
    pub body: Block,
}

/// What stands outside all functions (C11 6.9).
#[derive(Debug, Drop)]
pub enum External {
    Declaration(Declaration),
    Function(Function),
}

/// A whole text: its declarations and functions, in their order, and what its names and strings are.
#[derive(Debug, Drop)]
pub struct Unit {
    pub items: Items<External>,
    pub texts: TokenTexts,
}

/// The name of a type that stands alone, and what its names and strings are.
#[derive(Debug, Drop)]
pub struct TypeName {
    pub phrase: TypePhrase,
    pub texts: TokenTexts,
}
